//! What a showing sweep counts of the cells that it leaves.
ghost use Rattle.std.specs.Prelude.{◌≡◌, ◌≤◌, length};
ghost use Rattle.showing_sweep.specs.Shows.{is_hanging, hanging_in, with_cell, with_leaf};

use peano_records::{CellView, Corner};

// How many cells a tree holds and how many of their corners hang, and how many leaves of either kind it owns.
#[derive(Clone, Copy, Debug, PartialEq, Eq)]
pub(crate) struct CellCounts {
    pub(crate) cells: u64,
    pub(crate) hanging: u64,
    pub(crate) enclave: u64,
    pub(crate) skeleton: u64,
}

// Whether a corner hangs.
fn is_hanging(corner: &Corner) -> bool
    ensures { result ≡ is_hanging corner.now }
{
    matches!(corner, Corner::Hanging(_))
}

// How many corners of a view hang.
fn hanging_in(view: &CellView) -> usize
    ensures { result ≡ hanging_in view.now }
{
    view.corners
        .iter()
        .filter(|corner| is_hanging(corner))
        .count()
}

impl CellCounts {
    // With a cell that is held.
    pub(crate) fn with_cell(self, view: &CellView) -> CellCounts
        ensures { result ≡ with_cell view.now self }
    {
        let hanging = hanging_in(view) as u64;
        CellCounts {
            cells: self.cells.saturating_add(1),
            hanging: self.hanging.saturating_add(hanging),
            ..self
        }
    }

    // With a leaf that is owned.
    pub(crate) fn with_leaf(self, enclave: bool) -> CellCounts
        ensures { result ≡ with_leaf enclave self }
    {
        if enclave {
            CellCounts {
                enclave: self.enclave.saturating_add(1),
                ..self
            }
        } else {
            CellCounts {
                skeleton: self.skeleton.saturating_add(1),
                ..self
            }
        }
    }
}
