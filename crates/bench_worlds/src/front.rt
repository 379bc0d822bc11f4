//! A front that moves across the domain, so that trees drift out of balance where they are not cut anew.
use crate::files::with_recuts;
use crate::timed::{Times, each, leaves_among, opened, time_world};
use anyhow::Result;
use grid_file::read_plan;
use std::alloc::Global;
use std::thread::Threads;
use std::time::Clock;
use step_driver::World;

// How many trees a front is told of where no times are.
const TREES: u32 = 4;

// What the steps of a front came to, and how much more the fullest tree owns at the end than the mean, in percent.
#[derive(Clone, Copy)]
struct Crossing {
    times: Times,
    steps: u32,
    leaves: u64,
    share: u64,
}

// A front crosses the domain by so many trees, with so many helpers, where the trees are cut anew or stay.
fn crossed<R: Clock + Threads + Sync + Alloc<A = Global>>(
    rt: &R,
    file: &str,
    trees: u32,
    workers: u32,
    recut: Option<u32>,
) -> Result<Crossing> {
    let alloc = rt.alloc();
    let text = with_recuts(alloc, file, recut)?;
    let plan = read_plan(alloc, text.as_str().as_bytes())?;
    let (grid, field) = opened(alloc, &plan)?;
    let count = trees.clamp(1, 64);
    let mut world = World::start(
        rt,
        alloc,
        plan.shape.depth,
        &grid,
        &field,
        plan.solver,
        count,
        plan.recut_every,
    )?;
    let times = time_world(rt, plan.shape.dim, &mut world, plan.steps, workers)?;
    let leaves = leaves_among(plan.shape.dim, world.cell_count());
    let all = times
        .fullest
        .saturating_mul(100)
        .saturating_mul(u64::from(count));
    Ok(Crossing {
        times,
        steps: plan.steps,
        leaves,
        share: each(all, leaves),
    })
}

/// Takes the steps of a front by four trees, and prints how many leaves the fullest of them owns at the end.
pub fn tell_shares<R: Clock + Threads + Sync + Alloc<A = Global> + Print>(
    rt: &R,
    name: &str,
    file: &str,
    recut: Option<u32>,
) -> Result<()> {
    let crossing = crossed(rt, file, TREES, 0, recut)?;
    println!(rt;
        "{name}: {} of {} leaves in the fullest of {TREES}, {}% of the mean",
        crossing.times.fullest, crossing.leaves, crossing.share
    )?;
    Ok(())
}

/// Takes the steps of a front by so many trees, with so many helpers, and prints what the fullest tree owns at the end, in
/// percent of the mean, and the times of a step and of a leaf in it.
pub fn tell_front<R: Clock + Threads + Sync + Alloc<A = Global> + Print>(
    rt: &R,
    name: &str,
    file: &str,
    trees: u32,
    workers: u32,
    recut: Option<u32>,
) -> Result<()> {
    let crossing = crossed(rt, file, trees, workers, recut)?;
    println!(rt;
        "{name}: fullest {}% of the mean, step {} us, {} ns a leaf",
        crossing.share,
        each(crossing.times.steps, u64::from(crossing.steps)) / 1_000,
        each(crossing.times.steps, crossing.times.leaves)
    )?;
    Ok(())
}
