//! Keys of trees with equal shares of a grid.
ghost use Rattle.std.specs.Prelude.{◌≤◌, IfOk};
ghost use Rattle.peano_keys.specs.Grid.{IsGrid};
ghost use Rattle.curve_cuts.specs.Cuts.{IsCutGrid};
ghost use Rattle.curve_cuts.specs.Keys.{cuts_of};
ghost use Rattle.step_driver.specs.Starts.{AreEqualKeys};

use crate::along::leaves_along;
use curve_cuts::Keys;
use spacetree::Grid;
use std::alloc::{AllocError, Global};

/// The keys of so many trees over a grid: equal shares of its leaves. May want memory alone.
pub(crate) fn equal_keys(
    alloc: Global,
    depth: u32,
    grid: &Grid,
    trees: u32,
) -> Result<Keys, AllocError>
    requires depth { depth ≤ 12 }
    requires grid { IsGrid depth grid.now }
    requires some { 1 ≤ trees }
    requires most { trees ≤ 64 }
    ensures first { IfOk result (λ keys. AreEqualKeys depth grid.now trees keys) }
    ensures fits { IfOk result (λ keys. IsCutGrid (cuts_of keys) grid.now) }
{
    let leaves = leaves_along(alloc, grid, depth)?;
    Keys::equal(alloc, grid.dim(), depth, leaves.as_slice(), trees)
}
