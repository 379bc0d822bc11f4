//! How many leaves a grid has, and the size of the next grid.
ghost use Rattle.std.specs.Prelude.{◌≡◌, ℕ, ◌-◌, ◌*◌, ◌^◌, ◌≤◌};
ghost use Rattle.peano_keys.specs.Dim.{axes};
ghost use Rattle.spacetree.specs.Counts.{cells_for};
ghost use Rattle.step_driver.specs.Sizes.{HasTurnover, IsSizeAfter};

use crate::finishing::Turnover;
use peano_keys::{Dim, child_count};
use spacetree::MOST_CELLS;

// How many children so many cells have.
fn children_of(dim: Dim, cells: u64) -> u64
    requires { cells ≤ MOST_CELLS }
    ensures value { result ≡ 3 ^ axes dim * cells }
    ensures most { result ≤ 5400000 }
{
    u64::from(child_count(dim)) * cells
}

/// How many cells the next grid has: those of the old one, with the children of each cell that splits and without those of
/// each that merges.
pub(crate) fn size_after(cells: u64, dim: Dim, turnover: Turnover) -> u64
    requires limit { cells ≤ MOST_CELLS }
    requires turnover { HasTurnover dim cells turnover }
    ensures { IsSizeAfter dim cells turnover result }
{
    let added = children_of(dim, turnover.splits);
    let removed = children_of(dim, turnover.merges);
    cells + added - removed
}

/// How many leaves a grid of so many cells has. A refined cell has nine children, or 27 in space, and only the root is a
/// child of none: so of the cells one in nine is refined, or one in 27, rounded down.
pub(crate) fn leaves_among(cells: u64, dim: Dim) -> u64
    ensures { (refined : ℕ) → cells ≡ cells_for dim refined → result ≡ cells - refined }
{
    cells - cells / children_of(dim, 1)
}
