//! The primary sweeps of all trees.
ghost use Rattle.std.specs.Prelude.{◌≡◌, IfOk, OnErr, length, map};
ghost use Rattle.peano_keys.specs.Grid.{Spacetree};
ghost use Rattle.peano_keys.specs.Field.{States};
ghost use Rattle.peano_curve.specs.declared.order.Direction.{Direction};
ghost use Rattle.curve_cuts.specs.Keys.{cuts_of};
ghost use Rattle.vertex_stacks.specs.declared.kind.Kind.TheVariants.{Primary};
ghost use Rattle.step_world.specs.Notes.{note_over, by_trees};
ghost use Rattle.step_sweeps.specs.Kernels.{kernel_by, least_of};
ghost use Rattle.step_sweeps.specs.Sweeps.{CanStep};
ghost use Rattle.step_driver.specs.Gives.{EachIs, EachMayGive};
ghost use Rattle.step_driver.specs.Tasking.{AreTasksOf};
ghost use Rattle.step_driver.specs.Notes.{sizes_of, AddsFirst};
ghost use Rattle.step_driver.specs.Computing.{AllStandOn, AllCanStep, AreComputed, Computes, CanCompute, ComputesJob, seen_job, job_for, least_with};

use crate::beside::{Swept, all_of, paired, parted, stores_of};
use curve_cuts::Keys;
use peano_keys::CellKey;
use solver_api::Solver;
use std::alloc::{AllocError, Global};
use std::cmp::Ordering;
use std::thread;
use std::thread::Threads;
use step_sweeps::{Tally, TreeTasks, primary_tree};
use tree_automaton::TreeStore;
use vertex_stacks::SweepNote;

// The lesser of a leaf and one that was found before.
fn least(found: Option<CellKey>, key: CellKey) -> CellKey
    ensures { result ≡ least_of found key }
{
    let Some(before) = found else {
        return key;
    };
    match key.cmp(&before) {
        Ordering::Less => key,
        Ordering::Equal | Ordering::Greater => before,
    }
}

// The least leaf that was found, with one more that may have been.
pub(crate) fn with_found(found: Option<CellKey>, other: Option<CellKey>) -> Option<CellKey>
    ensures { result ≡ least_with found other }
{
    match other {
        Some(key) => Some(least(found, key)),
        None => found,
    }
}

/// All trees after their primary sweeps: their stores, and the least skeleton leaf that has no new value, if there is one.
#[derive(Drop)]
pub(crate) struct Computed {
    pub(crate) stores: Vec<TreeStore>,
    pub(crate) failing: Option<CellKey>,
}

// The primary sweep of one tree, with its tasks, which come back.
fn compute_one<'p, S: Solver>(
    mut store: TreeStore,
    tasks: TreeTasks<'p, S>,
    solver: &'p S,
    keys: &'p Keys,
    step: u32,
) -> Result<(TreeTasks<'p, S>, Swept<Tally>), AllocError>
    requires store { CanStep (cuts_of keys.now) (S.parts_of solver.now) store }
    requires tasks { tasks.solver ≡ solver.now }
    ensures tasks { IfOk result (λ r. r.0.solver ≡ solver.now) }
    ensures computed { IfOk result
        (λ r. Computes (kernel_by S.parts_of S.updated S.marked solver.now)
        (cuts_of keys.now) step store r.1) }
{
    let (tasks, swept) = primary_tree(&mut store, solver, keys, step, tasks);
    let (note, found) = swept?;
    Ok((tasks, Swept { store, note, found }))
}

// A tree that is to be swept: its store and its tasks, and what it is swept with.
#[derive(Drop)]
struct Job<'p, S: Solver> {
    store: TreeStore,
    tasks: TreeTasks<'p, S>,
    solver: &'p S,
    keys: &'p Keys,
    step: u32,
}

// The trees as jobs.
fn jobs_with<'p, S: Solver>(
    alloc: Global,
    trees: Vec<(TreeStore, TreeTasks<'p, S>)>,
    solver: &'p S,
    keys: &'p Keys,
    step: u32,
) -> Result<Vec<Job<'p, S>>, AllocError>
    ensures { IfOk result
        (λ jobs. map seen_job jobs.items
        ≡ map (job_for solver.now keys.now step) trees.entry.items) }
{
    let mut jobs = Vec::new(alloc);
    for (store, tasks) in trees {
        jobs.push(Job {
            store,
            tasks,
            solver,
            keys,
            step,
        })?;
    }
    Ok(jobs)
}

// The primary sweep of each job, beside those of the others.
fn compute_jobs<'p, S: Solver, R: Threads + Sync>(
    rt: &R,
    jobs: Vec<Job<'p, S>>,
) -> Result<Vec<Result<(TreeTasks<'p, S>, Swept<Tally>), AllocError>>, AllocError>
    requires { EachIs (λ x. CanCompute (S.parts_of x.solver.now) (seen_job x)) jobs.items }
    ensures { IfOk result
        (λ given. EachMayGive
        (λ x. ComputesJob (kernel_by S.parts_of S.updated S.marked x.solver.now)
        (seen_job x)) jobs.entry.items given.items) }
{
    thread::map_vec(
        rt,
        jobs,
        &|job: Job<S>| -> Result<(TreeTasks<S>, Swept<Tally>), AllocError>
            requires { CanCompute (S.parts_of job.solver.now) (seen_job job) }
            ensures { IfOk result
                (ComputesJob (kernel_by S.parts_of S.updated S.marked job.entry.solver.now)
                (seen_job job.entry)) }
        { compute_one(job.store, job.tasks, job.solver, job.keys, job.step) },
    )
}

// The primary sweep of each tree, beside those of the others.
fn compute_each<'p, S: Solver, R: Threads + Sync>(
    rt: &R,
    alloc: Global,
    trees: Vec<(TreeStore, TreeTasks<'p, S>)>,
    solver: &'p S,
    keys: &'p Keys,
    step: u32,
) -> Result<Vec<Result<(TreeTasks<'p, S>, Swept<Tally>), AllocError>>, AllocError>
    requires { EachIs
        (λ x. CanCompute (S.parts_of solver.now) (job_for solver.now keys.now step x)) trees.items }
    ensures { IfOk result
        (λ given. EachMayGive
        (λ x. ComputesJob (kernel_by S.parts_of S.updated S.marked solver.now)
        (job_for solver.now keys.now step x)) trees.entry.items given.items) }
{
    compute_jobs(rt, jobs_with(alloc, trees, solver, keys, step)?)
}

/// The primary sweeps of all trees, beside each other: each notes its sweep, and spawns its tasks, which come back. May want
/// memory alone.
pub(crate) fn compute_all<'p, S: Solver, R: Threads + Sync>(
    rt: &R,
    alloc: Global,
    stores: Vec<TreeStore>,
    tasks: Vec<TreeTasks<'p, S>>,
    notes: &mut Vec<SweepNote>,
    solver: &'p S,
    keys: &'p Keys,
    step: u32,
) -> Result<(Computed, Vec<TreeTasks<'p, S>>), AllocError>
    requires tasks { (length tasks.items ≡ length stores.items)
        × AreTasksOf solver.now tasks.items }
    requires stores { AllCanStep (cuts_of keys.now) (S.parts_of solver.now) stores.items }
    ensures tasks { IfOk result
        (λ r. (length r.1.items ≡ length stores.items) × AreTasksOf solver.now r.1.items) }
    ensures computed { IfOk result
        (λ r. (dir : Direction) (g : Spacetree) (f : States)
        → AllStandOn (cuts_of keys.now) (S.parts_of solver.now) dir g f stores.items
        → AreComputed (kernel_by S.parts_of S.updated S.marked solver.now)
        (cuts_of keys.now) dir g f step stores.items r.0.stores.items notes.old.items
        notes.new.items r.0.failing) }
    ensures stopped { OnErr result
        ((dir : Direction) (g : Spacetree) (f : States)
        → AllStandOn (cuts_of keys.now) (S.parts_of solver.now) dir g f stores.items
        → AddsFirst notes.old.items notes.new.items
        (by_trees (cuts_of keys.now).trees
        (note_over (sizes_of (cuts_of keys.now)) step Primary g))) }
{
    let trees = paired(alloc, stores, tasks)?;
    let done = all_of(alloc, compute_each(rt, alloc, trees, solver, keys, step)?)?;
    let (tasks, swept) = parted(alloc, done)?;
    let mut failing = None;
    for tree in &swept {
        notes.push(tree.note)?;
        failing = with_found(failing, tree.found.failing);
    }
    let stores = stores_of(alloc, swept)?;
    Ok((Computed { stores, failing }, tasks))
}
