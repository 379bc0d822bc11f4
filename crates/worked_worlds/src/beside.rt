//! Worlds beside the plain evaluator, step by step.
use crate::opening::{Manned, all_started, opened, plan_of};
use spacetree::{EvalFault, Field, Grid, Row, evaluate};
use std::alloc::{AllocError, Global};
use std::process::Abort;
use std::thread::Threads;
use step_driver::World;
use task_pool::Through;
use volume_solver::AnySolver;

// A world takes a step with so many helpers, or is refused it.
pub(crate) fn advance<R: Abort + Threads + Sync>(
    rt: &R,
    alloc: Global,
    world: &mut World<AnySolver>,
    workers: u32,
) -> Result<(), EvalFault> {
    assert!(rt; world.is_live());
    assert!(rt; world.step() < 10_000 && workers <= 16);
    world.advance(rt, alloc, workers, &Through)
}

// A world is live after a step, has as many cells as a grid, and shows these rows.
fn expect_at<R: Abort + Threads + Sync>(
    rt: &R,
    alloc: Global,
    world: &mut World<AnySolver>,
    grid: &Grid,
    rows: &[Row],
    step: u32,
) -> Result<(), AllocError> {
    let trees = world.trees();
    assert!(rt; world.is_live(), "{trees} trees, step {step}");
    let shown = world.show(rt, alloc)?;
    assert!(rt; shown.rows.as_slice() == rows, "{trees} trees, step {step}");
    assert_eq!(rt; shown.step, step);
    assert_eq!(rt; shown.traffic.len() as u64, u64::from(trees));
    assert_eq!(rt; world.cell_count(), grid.cell_count());
    assert!(rt; world.is_live() && world.step() == step);
    Ok(())
}

// Each world is where the evaluation is after a step.
fn expect_all_at<R: Abort + Threads + Sync>(
    rt: &R,
    alloc: Global,
    worlds: &mut [Manned],
    grid: &Grid,
    field: &Field,
    step: u32,
) -> Result<(), AllocError> {
    let rows = field.rows(alloc)?;
    for manned in worlds.iter_mut() {
        expect_at(rt, alloc, &mut manned.world, grid, rows.as_slice(), step)?;
    }
    Ok(())
}

// Each world takes a step.
fn advance_all<R: Abort + Threads + Sync>(
    rt: &R,
    alloc: Global,
    worlds: &mut [Manned],
) -> Result<(), EvalFault> {
    for manned in worlds.iter_mut() {
        advance(rt, alloc, &mut manned.world, manned.workers)?;
    }
    Ok(())
}

// Each world is refused as the evaluation is, stays at its step, and is not live.
fn expect_refused<R: Abort + Threads + Sync>(
    rt: &R,
    alloc: Global,
    worlds: &mut [Manned],
    fault: EvalFault,
    step: u32,
) {
    for manned in worlds.iter_mut() {
        let world = &mut manned.world;
        assert_eq!(rt;
            advance(rt, alloc, world, manned.workers),
            Err(fault),
            "{} trees",
            world.trees()
        );
        assert!(rt; !world.is_live());
        assert_eq!(rt; world.step().saturating_add(1), step);
    }
}

// The refusal of one step, as that of a step of a run.
fn at_step(fault: EvalFault, step: u32) -> EvalFault {
    match fault {
        EvalFault::Overflow { key, .. } => EvalFault::Overflow { step, key },
        EvalFault::Crowded { cells, .. } => EvalFault::Crowded { step, cells },
        EvalFault::NoMemory => EvalFault::NoMemory,
    }
}

// Worlds of so many trees and with so many helpers, and the evaluator, take the steps of a file, or are refused. After each step the worlds
// are where the evaluation is. The answer is how many leaves there are at first and in the end.
pub(crate) fn compare<R: Abort + Threads + Sync>(
    rt: &R,
    alloc: Global,
    file: &str,
    trees: &[u32],
    workers: &[u32],
) -> Result<(u64, u64), EvalFault> {
    let plan = plan_of(rt, alloc, file)?;
    let (mut grid, mut field) = opened(rt, alloc, &plan)?;
    let first = grid.leaf_count();
    let mut worlds = all_started(rt, alloc, &plan, &grid, &field, trees, workers)?;
    expect_all_at(rt, alloc, &mut worlds, &grid, &field, 0)?;
    for step in 1..=plan.steps {
        match evaluate(alloc, &grid, &field, &plan.solver, 1) {
            Ok((next, after)) => {
                grid = next;
                field = after;
            }
            Err(fault) => {
                let fault = at_step(fault, step);
                expect_refused(rt, alloc, &mut worlds, fault, step);
                return Err(fault);
            }
        }
        advance_all(rt, alloc, &mut worlds)?;
        expect_all_at(rt, alloc, &mut worlds, &grid, &field, step)?;
    }
    Ok((first, grid.leaf_count()))
}

// A world takes so many steps, up to one that is refused.
fn advance_by<R: Abort + Threads + Sync>(
    rt: &R,
    alloc: Global,
    manned: &mut Manned,
    steps: u32,
) -> Result<(), EvalFault> {
    for _ in 0..steps {
        advance(rt, alloc, &mut manned.world, manned.workers)?;
    }
    Ok(())
}

// A world that took so many steps is where the evaluation ends, or it is not live and was refused alike.
fn expect_end<R: Abort + Threads + Sync>(
    rt: &R,
    alloc: Global,
    world: &mut World<AnySolver>,
    steps: u32,
    found: Result<(), EvalFault>,
    want: &Result<(Grid, Field), EvalFault>,
) -> Result<(), AllocError> {
    match want {
        Ok((grid, field)) => {
            assert_eq!(rt; found, Ok(()));
            let rows = field.rows(alloc)?;
            expect_at(rt, alloc, world, grid, rows.as_slice(), steps)?;
        }
        Err(fault) => {
            assert_eq!(rt; found, Err(*fault));
            assert!(rt; !world.is_live());
        }
    }
    Ok(())
}

// Worlds of so many trees and with so many helpers that take all steps of a file, or are refused, before they are shown: they are where the
// evaluation ends.
pub(crate) fn compare_last<R: Abort + Threads + Sync>(
    rt: &R,
    alloc: Global,
    file: &str,
    trees: &[u32],
    workers: &[u32],
) -> Result<(), AllocError> {
    let plan = plan_of(rt, alloc, file)?;
    let (grid, field) = opened(rt, alloc, &plan)?;
    let mut worlds = all_started(rt, alloc, &plan, &grid, &field, trees, workers)?;
    let want = evaluate(alloc, &grid, &field, &plan.solver, plan.steps);
    for manned in worlds.iter_mut() {
        let found = advance_by(rt, alloc, manned, plan.steps);
        expect_end(rt, alloc, &mut manned.world, plan.steps, found, &want)?;
    }
    Ok(())
}
