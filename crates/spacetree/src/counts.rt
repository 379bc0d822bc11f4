//! How many cells a grid has.
ghost use Rattle.std.specs.Prelude.{◌≡◌, ◌+◌, ◌≤◌, ◌^◌};
ghost use Rattle.std.specs.FinSet as set;
ghost use Rattle.spacetree.specs.Counts.{cells_for};

use crate::cells::CellSet;
use crate::limits::MOST_CELLS;
use peano_keys::{Dim, child_count};

// How many cells a grid has with some refined ones: the root, and the children of each.
pub(crate) fn cells_with(dim: Dim, refined: &CellSet) -> u64
    requires { set.len refined.now ≤ 2 ^ 59 + MOST_CELLS }
    ensures { result ≡ cells_for dim (set.len refined.now) }
{
    1 + u64::from(child_count(dim)) * refined.len()
}
