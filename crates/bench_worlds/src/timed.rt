//! The times of a file's steps, by a world and by the plain evaluator.
ghost use Rattle.std.specs.Prelude.{IfOk};
ghost use Rattle.peano_keys.specs.Grid.{IsGrid};
ghost use Rattle.volume_solver.specs.Any.{parts_in};
ghost use Rattle.spacetree.specs.Fields.{IsFieldOn};
ghost use Rattle.grid_file.specs.Valid.{IsPlan};

use anyhow::Result;
use field_report::Traffic;
use grid_file::{Plan, read_plan};
use peano_keys::Dim;
use solver_api::Solver;
use spacetree::{Field, Grid, evaluate};
use std::alloc::Global;
use std::io;
use std::thread::Threads;
use std::time::{Clock, Instant};
use step_driver::World;
use task_pool::Through;
use volume_solver::AnySolver;

/// The leaves of all steps, the nanoseconds of the steps and of showing the world once, and the leaves that the fullest tree
/// owns at the end.
#[derive(Clone, Copy)]
pub struct Times {
    pub leaves: u64,
    pub steps: u64,
    pub show: u64,
    pub fullest: u64,
}

fn nanos(clock: &impl Clock, start: &Instant) -> io::Result<u64> {
    let spent = start.elapsed(clock)?;
    Ok(u64::try_from(spent.as_nanos()).unwrap_or(u64::MAX))
}

/// How many leaves a grid of so many cells has.
pub fn leaves_among(dim: Dim, cells: u64) -> u64 {
    let fan = match dim {
        Dim::Two => 9,
        Dim::Three => 27,
    };
    cells - cells.saturating_sub(1) / fan
}

/// The grid and the field of a plan.
pub fn opened(alloc: Global, plan: &Plan) -> Result<(Grid, Field)>
    requires { IsPlan plan.now }
    ensures grid { IfOk result (λ r. IsGrid plan.now.shape.depth r.0) }
    ensures served { IfOk result (λ r. IsGrid 12 r.0) }
    ensures field { IfOk result (λ r. IsFieldOn (parts_in plan.now.solver) r.0 r.1) }
{
    let grid = Grid::build(alloc, &plan.shape)?;
    let field = Field::opening(alloc, &grid, plan.fills.as_slice(), plan.solver.parts())?;
    Ok((grid, field))
}

// How many leaves the tree owns that owns the most.
fn fullest_of(traffic: &[Traffic]) -> u64 {
    traffic.iter().fold(0, |most, tree| {
        most.max(tree.enclave.saturating_add(tree.skeleton))
    })
}

/// Takes so many steps of a world, as far as it is live, and shows it in the end.
pub fn time_world<R: Clock + Threads + Sync + Alloc<A = Global>>(
    rt: &R,
    dim: Dim,
    world: &mut World<AnySolver>,
    steps: u32,
    workers: u32,
) -> Result<Times> {
    let mut leaves: u64 = 0;
    let start = Instant::now(rt)?;
    for _ in 0..steps {
        if world.is_live() && world.step() < 10_000 {
            leaves = leaves.saturating_add(leaves_among(dim, world.cell_count()));
            world.advance(rt, rt.alloc(), workers.min(16), &Through)?;
        }
    }
    let steps = nanos(rt, &start)?;
    let start = Instant::now(rt)?;
    let mut fullest: u64 = 0;
    if world.is_live() {
        let shown = world.show(rt, rt.alloc())?;
        fullest = fullest_of(shown.traffic.as_slice());
    }
    let show = nanos(rt, &start)?;
    Ok(Times {
        leaves,
        steps,
        show,
        fullest,
    })
}

// The nanoseconds of the plain evaluator for so many steps.
fn time_evaluator<R: Clock + Threads + Sync + Alloc<A = Global>>(
    rt: &R,
    plan: &Plan,
    grid: &Grid,
    field: &Field,
) -> Result<u64>
    requires plan { IsPlan plan.now }
    requires grid { IsGrid 12 grid.now }
    requires field { IsFieldOn (parts_in plan.now.solver) grid.now field.now }
{
    let start = Instant::now(rt)?;
    let _end = evaluate(rt.alloc(), grid, field, &plan.solver, plan.steps)?;
    Ok(nanos(rt, &start)?)
}

/// So many nanoseconds, for each of some leaves.
pub fn each(nanos: u64, leaves: u64) -> u64 {
    nanos.checked_div(leaves).unwrap_or(0)
}

/// Times the steps of a file by a world of so many trees, with so many helpers, and by the plain evaluator, and prints the nanoseconds for each
/// leaf and step: or takes them by one tree, and prints how many leaves there were.
pub fn tell<R: Clock + Threads + Sync + Alloc<A = Global> + Print>(
    rt: &R,
    name: &str,
    file: &str,
    trees: Option<u32>,
    workers: u32,
) -> Result<()> {
    let alloc = rt.alloc();
    let plan = read_plan(alloc, file.as_bytes())?;
    let (grid, field) = opened(alloc, &plan)?;
    let count = trees.unwrap_or(1).clamp(1, 64);
    let raising = Instant::now(rt)?;
    let mut world = World::start(
        rt,
        alloc,
        plan.shape.depth,
        &grid,
        &field,
        plan.solver,
        count,
        plan.recut_every,
    )?;
    let raised = nanos(rt, &raising)?;
    let times = time_world(rt, plan.shape.dim, &mut world, plan.steps, workers)?;
    let plain = time_evaluator(rt, &plan, &grid, &field)?;
    let at_last = leaves_among(plan.shape.dim, world.cell_count());
    match trees {
        Some(_) => {
            println!(rt; "{name}: step {} ns", each(times.steps, times.leaves))?;
            println!(rt; "  evaluator {} ns", each(plain, times.leaves))?;
            println!(rt;
                "  start {} ns, show {} ns",
                each(raised, grid.leaf_count()),
                each(times.show, at_last)
            )?;
        }
        None => println!(rt; "{name}: {} leaves in all steps", times.leaves)?,
    }
    Ok(())
}
