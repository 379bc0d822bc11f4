//! Demonstrations: the steps of a plan that is made from a number, and the summary of what they lead to.
ghost use Rattle.std.specs.Prelude.{◌≡◌, ◌+◌, ◌<◌, ◌≤◌, IfOk};
ghost use Rattle.grid_file.specs.Valid.{IsPlan};
ghost use Rattle.demonstration.specs.Demo.{demo};
ghost use Rattle.peano_run.specs.Asked.{IsCrew, IsTreeCount};
ghost use Rattle.peano_run.specs.Run.{WritesNothing, WriteFaultRose};
ghost use Rattle.peano_run.specs.Left.{EndsAtLast, IsLeft, leaves_world};
ghost use Rattle.peano_run.specs.Led.{IsDemo, IsLed};
ghost use Rattle.peano_run.specs.Demonstrated.{IsDemoSummary};
ghost use Rattle.peano_run.specs.Served.{Demonstrates};

use crate::answer::Answer;
use crate::begin::begin;
use crate::ending::Ending;
use demonstration::demo_plan;
use field_report::summary_text;
use grid_file::Plan;
use peano_io::{Sink, write_whole};
use spacetree::{BuildFault, Grid};
use std::alloc::{AllocError, Global};
use std::thread::Threads;
use step_driver::{StepFault, World};
use task_pool::Gate;
use volume_solver::AnySolver;

// A demonstration's world before its first step. Its opening grid is small.
fn opened<R: Threads + Sync>(
    rt: &R,
    alloc: Global,
    plan: &Plan,
    trees: u32,
) -> Result<World<AnySolver>, AllocError>
    requires plan { IsPlan plan.now }
    requires demo { IsDemo plan.now }
    requires trees { IsTreeCount trees }
    ensures { IfOk result (IsLed trees plan.now 0) }
{
    match Grid::build(alloc, &plan.shape) {
        Ok(grid) => begin(rt, alloc, plan, &grid, trees),
        Err(BuildFault::NoMemory) => Err(AllocError),
        Err(BuildFault::TooMany) => unreachable!(),
    }
}

// A demonstration's world after one step more. No step of it is refused.
fn stepped<R: Threads + Sync, G: Gate>(
    rt: &R,
    alloc: Global,
    plan: &Plan,
    trees: u32,
    workers: u32,
    step: u32,
    mut world: World<AnySolver>,
    gate: &G,
) -> Result<World<AnySolver>, AllocError>
    requires demo { IsDemo plan.now }
    requires led { IsLed trees plan.now step world }
    requires more { step < plan.now.steps }
    requires workers { workers ≤ 16 }
    ensures { IfOk result (IsLed trees plan.now (step + 1)) }
{
    match world.advance(rt, alloc, workers, gate) {
        Ok(()) => Ok(world),
        Err(StepFault::NoMemory) => Err(AllocError),
        Err(StepFault::Overflow { .. }) => unreachable!(),
        Err(StepFault::Crowded { .. }) => unreachable!(),
    }
}

// The summary of demonstration `number`, and its world after the last step.
fn summary<R: Threads + Sync, G: Gate>(
    rt: &R,
    alloc: Global,
    number: u64,
    trees: u32,
    workers: u32,
    gate: &G,
) -> Result<(World<AnySolver>, Vec<u8>), AllocError>
    requires { IsCrew trees workers }
    ensures text { IfOk result (λ r. IsDemoSummary number r.1.items) }
    ensures world { IfOk result (λ r. EndsAtLast trees (demo number) r.0) }
{
    let plan = demo_plan(alloc, number)?;
    let mut world = opened(rt, alloc, &plan, trees)?;
    for step in 0..plan.steps {
        world = stepped(rt, alloc, &plan, trees, workers, step, world, gate)?;
    }
    let shown = world.show(rt, alloc)?;
    let text = summary_text(alloc, number, shown.rows.as_slice(), world.cell_count())?;
    Ok((world, text))
}

// Writes the summary of demonstration `number`.
pub(crate) fn demonstrated<R: Threads + Sync, K: Sink, G: Gate>(
    rt: &R,
    alloc: Global,
    number: u64,
    trees: u32,
    workers: u32,
    out: &mut K,
    gate: &G,
) -> Ending
    requires { IsCrew trees workers }
    ensures demonstrates { Demonstrates number result.answer (K.taken out.old) (K.taken out.new) }
    ensures world { IsLeft (EndsAtLast trees (demo number))
        (leaves_world result.answer) result.world }
    ensures nothing { WritesNothing result.answer out.old out.new }
    ensures write_fault { WriteFaultRose result.answer (K.faults out.old) (K.faults out.new) }
{
    let Ok((world, text)) = summary(rt, alloc, number, trees, workers, gate) else {
        return Ending::of(Answer::NoMemory);
    };
    match write_whole(out, text.as_slice()) {
        Ok(()) => Ending::with(Answer::Done, world),
        Err(fault) => Ending::with(
            Answer::WriteFault {
                written: fault.written,
            },
            world,
        ),
    }
}
