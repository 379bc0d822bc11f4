//! What files open with: their plans, their grids and fields, and the worlds that stand at these.
ghost use Rattle.std.specs.Prelude.{IfOk};
ghost use Rattle.peano_keys.specs.Grid.{IsGrid};
ghost use Rattle.volume_solver.specs.Any.{parts_in};
ghost use Rattle.spacetree.specs.Fields.{IsFieldOn};
ghost use Rattle.grid_file.specs.Valid.{IsPlan};

use grid_file::{Plan, PlanFault, read_plan};
use solver_api::Solver;
use spacetree::{BuildFault, Field, Grid};
use std::alloc::{AllocError, Global};
use std::process::Abort;
use std::thread::Threads;
use step_driver::World;
use volume_solver::AnySolver;

// The plan of a file.
pub(crate) fn plan_of<R: Abort + Threads + Sync>(
    rt: &R,
    alloc: Global,
    file: &str,
) -> Result<Plan, AllocError>
    ensures { IfOk result IsPlan }
{
    match read_plan(alloc, file.as_bytes()) {
        Ok(plan) => Ok(plan),
        Err(PlanFault::Malformed(fault)) => panic!(rt; "{fault:?} in {file}"),
        Err(PlanFault::NoMemory) => Err(AllocError),
    }
}

// The grid and the field of a plan.
pub(crate) fn opened<R: Abort + Threads + Sync>(
    rt: &R,
    alloc: Global,
    plan: &Plan,
) -> Result<(Grid, Field), AllocError>
    requires { IsPlan plan.now }
    ensures grid { IfOk result (λ r. IsGrid plan.now.shape.depth r.0) }
    ensures served { IfOk result (λ r. IsGrid 12 r.0) }
    ensures field { IfOk result (λ r. IsFieldOn (parts_in plan.now.solver) r.0 r.1) }
{
    let grid = match Grid::build(alloc, &plan.shape) {
        Ok(grid) => grid,
        Err(BuildFault::TooMany) => panic!(rt; "too many cells"),
        Err(BuildFault::NoMemory) => return Err(AllocError),
    };
    let field = Field::opening(alloc, &grid, plan.fills.as_slice(), plan.solver.parts())?;
    Ok((grid, field))
}

// A world of so many trees at the opening of a plan, which are cut anew where the plan says so.
pub(crate) fn started<R: Abort + Threads + Sync>(
    rt: &R,
    alloc: Global,
    plan: &Plan,
    grid: &Grid,
    field: &Field,
    trees: u32,
) -> Result<World<AnySolver>, AllocError>
    requires plan { IsPlan plan.now }
    requires grid { IsGrid plan.now.shape.depth grid.now }
    requires field { IsFieldOn (parts_in plan.now.solver) grid.now field.now }
{
    assert!(rt; 1 <= trees && trees <= 64);
    World::start(
        rt,
        alloc,
        plan.shape.depth,
        grid,
        field,
        plan.solver,
        trees,
        plan.recut_every,
    )
}

// A world, and how many helpers it takes its steps with.
#[derive(Drop)]
pub(crate) struct Manned {
    pub(crate) world: World<AnySolver>,
    pub(crate) workers: u32,
}

// A world for each number of trees and each number of helpers.
pub(crate) fn all_started<R: Abort + Threads + Sync>(
    rt: &R,
    alloc: Global,
    plan: &Plan,
    grid: &Grid,
    field: &Field,
    trees: &[u32],
    workers: &[u32],
) -> Result<Vec<Manned>, AllocError>
    requires plan { IsPlan plan.now }
    requires grid { IsGrid plan.now.shape.depth grid.now }
    requires field { IsFieldOn (parts_in plan.now.solver) grid.now field.now }
{
    let mut worlds = Vec::new(alloc);
    for count in trees {
        for helpers in workers {
            let world = started(rt, alloc, plan, grid, field, *count)?;
            worlds.push(Manned {
                world,
                workers: *helpers,
            })?;
        }
    }
    Ok(worlds)
}
