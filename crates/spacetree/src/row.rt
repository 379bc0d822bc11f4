//! The rows of a field.
use peano_keys::{CellKey, State};

/// A leaf and its state.
#[derive(Clone, Copy, Debug, PartialEq, Eq)]
pub struct Row {
    pub key: CellKey,
    pub value: State,
}
