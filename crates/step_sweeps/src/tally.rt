//! What a sweep counts of a tree's own cells.
use peano_keys::CellKey;

/// What a sweep found of the cells that its tree owns: the least leaf in key order that has no new state, in a primary
/// sweep of the skeleton leaves and in a secondary one of the enclaves, and how many leaves split and how many refined
/// cells merge, both 0 in a primary sweep.
#[derive(Clone, Copy, Debug, PartialEq, Eq)]
pub struct Tally {
    pub failing: Option<CellKey>,
    pub splits: u64,
    pub merges: u64,
}
