//! How the world of a plan's run begins.
ghost use Rattle.std.specs.Prelude.{IfOk};
ghost use Rattle.peano_keys.specs.Grid.{IsGrid};
ghost use Rattle.spacetree.specs.Opening.{Opens};
ghost use Rattle.grid_file.specs.Valid.{IsPlan};
ghost use Rattle.peano_run.specs.Asked.{IsTreeCount};
ghost use Rattle.peano_run.specs.Led.{IsFirst};

use grid_file::Plan;
use solver_api::Solver;
use spacetree::{Field, Grid};
use std::alloc::{AllocError, Global};
use std::thread::Threads;
use step_driver::World;
use volume_solver::AnySolver;

// The world of a plan on its opening grid, with its opening field, before the first step. Its trees are cut anew where the
// plan says.
pub(crate) fn begin<R: Threads + Sync>(
    rt: &R,
    alloc: Global,
    plan: &Plan,
    grid: &Grid,
    trees: u32,
) -> Result<World<AnySolver>, AllocError>
    requires plan { IsPlan plan.now }
    requires opens { Opens plan.now.shape grid.now }
    requires grid { IsGrid plan.now.shape.depth grid.now }
    requires served { IsGrid 12 grid.now }
    requires trees { IsTreeCount trees }
    ensures { IfOk result (IsFirst trees plan.now grid.now) }
{
    let field = Field::opening(alloc, grid, plan.fills.as_slice(), plan.solver.parts())?;
    World::start(
        rt,
        alloc,
        plan.shape.depth,
        grid,
        &field,
        plan.solver,
        trees,
        plan.recut_every,
    )
}
