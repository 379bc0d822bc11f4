//! The leaves of a grid in the order of the curve.
ghost use Rattle.std.specs.Prelude.{◌≤◌, IfOk};
ghost use Rattle.peano_keys.specs.Grid.{IsGrid};
ghost use Rattle.curve_cuts.specs.Leaves.{AreLeaves};
ghost use Rattle.step_driver.specs.Along.{HasLeavesAlong};

use peano_curve::interval;
use peano_keys::CellKey;
use spacetree::Grid;
use std::alloc::{AllocError, Global};
use std::collections::BTreeMap;

// The leaves of a grid by the positions where they begin.
fn leaves_by_start(
    alloc: Global,
    grid: &Grid,
    depth: u32,
) -> Result<BTreeMap<u64, CellKey>, AllocError>
    requires depth { depth ≤ 12 }
    requires grid { IsGrid depth grid.now }
    ensures { IfOk result (λ starts. HasLeavesAlong depth grid.now starts) }
{
    let dim = grid.dim();
    let leaves = grid.leaves(alloc)?;
    let mut starts = BTreeMap::new(alloc);
    for leaf in leaves.as_slice() {
        starts.insert(interval(dim, *leaf, depth).lo, *leaf)?;
    }
    Ok(starts)
}

/// The leaves of a grid, in the order of the curve.
#[tactic(auto, using(crate::proofs::Begins::leaves_are))]
pub fn leaves_along(alloc: Global, grid: &Grid, depth: u32) -> Result<Vec<CellKey>, AllocError>
    requires depth { depth ≤ 12 }
    requires grid { IsGrid depth grid.now }
    ensures { IfOk result (λ leaves. AreLeaves grid.now.dim depth grid.now leaves.items) }
{
    let starts = leaves_by_start(alloc, grid, depth)?;
    starts.values().copied().collect(alloc)
}
