//! The part of a step that computes: trees sweep beside each other while helpers take their tasks.
ghost use Rattle.std.specs.Prelude.{◌≡◌, ◌-◌, ◌<◌, ◌^◌, IfOk, OnErr, length};
ghost use Rattle.std.specs.Thread.{IsSync};
ghost use Rattle.peano_keys.specs.Grid.{Spacetree};
ghost use Rattle.peano_keys.specs.Field.{States};
ghost use Rattle.peano_curve.specs.declared.order.Direction.{Direction};
ghost use Rattle.curve_cuts.specs.Keys.{cuts_of};
ghost use Rattle.task_pool.specs.Seen.{IsHelperOf, pool_solver};
ghost use Rattle.step_world.specs.Notes.{computing_notes};
ghost use Rattle.step_driver.specs.Notes.{sizes_of, AddsFirst};
ghost use Rattle.step_driver.specs.Computing.{AllStandOn, AllCanStep};
ghost use Rattle.step_driver.specs.Tasking.{AreTasksOf, AreHelpersOf};
ghost use Rattle.step_driver.specs.Stepping.{IsComputedStep, SweptTwice};
ghost use Rattle.step_sweeps.specs.Kernels.{kernel_by};

use crate::computing::{compute_all, with_found};
use crate::exchanging::exchange;
use crate::finishing::{Findings, finish_all};
use crate::tasking::{desk_sizes, seat_trees};
use curve_cuts::Keys;
use peano_keys::CellKey;
use peano_records::Partials;
use solver_api::Solver;
use std::alloc::{AllocError, Global};
use std::thread;
use std::thread::{Threads, join};
use step_phases::Phase;
use step_sweeps::TreeTasks;
use task_pool::{Gate, Helper, Pool};
use tree_automaton::TreeStore;
use vertex_stacks::SweepNote;

/// All trees after both sweeps of a step: their stores, their partials and their notes, the least skeleton leaf that has no
/// new value, if there is one, and what the secondary sweeps found.
#[derive(Drop)]
pub(crate) struct Twice {
    pub(crate) stores: Vec<TreeStore>,
    pub(crate) partials: Vec<Partials>,
    pub(crate) notes: Vec<SweepNote>,
    pub(crate) early: Option<CellKey>,
    pub(crate) late: Findings,
}

/// All trees after they computed a step: their stores, the partials of each, and what they found.
#[derive(Drop)]
pub(crate) struct Worked {
    pub(crate) stores: Vec<TreeStore>,
    pub(crate) partials: Vec<Partials>,
    pub(crate) found: Findings,
}

// What the trees do while helpers help: each leaf takes its mark, and each skeleton leaf its new value, which go to all
// trees; then each enclave leaf and each refined cell takes its new value, and each cell what it is to become; the sums of
// shared cells are handed out.
fn sweep_twice<'p, S: Solver, R: Threads + Sync, G: Gate>(
    rt: &R,
    alloc: Global,
    stores: Vec<TreeStore>,
    tasks: Vec<TreeTasks<'p, S>>,
    solver: &'p S,
    keys: &'p Keys,
    step: u32,
    gate: &'p G,
) -> Result<Twice, AllocError>
    requires tasks { (length tasks.items ≡ length stores.items)
        × AreTasksOf solver.now tasks.items }
    requires stores { AllCanStep (cuts_of keys.now) (S.parts_of solver.now) stores.items }
    ensures { IfOk result
        (SweptTwice (kernel_by S.parts_of S.updated S.marked solver.now)
        (cuts_of keys.now) step stores.items) }
{
    let mut notes = Vec::new(alloc);
    let (computed, tasks) = compute_all(rt, alloc, stores, tasks, &mut notes, solver, keys, step)?;
    let marked = exchange(rt, alloc, computed.stores, keys, Phase::First)?;
    let finished = finish_all(
        rt, alloc, marked, tasks, &mut notes, solver, keys, step, gate,
    )?;
    Ok(Twice {
        stores: finished.stores,
        partials: finished.partials,
        notes,
        early: computed.failing,
        late: finished.found,
    })
}

// The helpers take tasks until there are none, each beside the others.
fn help<S: Solver, R: Threads + Sync, G: Gate>(
    rt: &R,
    helpers: Vec<Helper<S>>,
    pool: &Pool<S>,
    solver: &S,
    gate: &G,
) -> Result<Vec<u64>, AllocError>
    requires helpers { AreHelpersOf pool.now helpers.items }
    requires solver { solver.now ≡ pool_solver pool.now }
{
    thread::map_vec(
        rt,
        helpers,
        &|mut helper: Helper<S>| -> u64
            requires { IsHelperOf pool.now helper × (solver.now ≡ pool_solver pool.now) }
        { helper.help(pool, solver, gate) },
    )
}

// The trees sweep twice, and the helpers help beside them.
fn sweep_with_helpers<'p, S: Solver, R: Threads + Sync, G: Gate>(
    rt: &R,
    alloc: Global,
    stores: Vec<TreeStore>,
    tasks: Vec<TreeTasks<'p, S>>,
    helpers: Vec<Helper<S>>,
    pool: &'p Pool<S>,
    solver: &'p S,
    keys: &'p Keys,
    step: u32,
    gate: &'p G,
) -> Result<Twice, AllocError>
    requires tasks { (length tasks.items ≡ length stores.items)
        × AreTasksOf solver.now tasks.items }
    requires stores { AllCanStep (cuts_of keys.now) (S.parts_of solver.now) stores.items }
    requires helpers { AreHelpersOf pool.now helpers.items }
    requires solver { solver.now ≡ pool_solver pool.now }
    ensures { IfOk result
        (SweptTwice (kernel_by S.parts_of S.updated S.marked solver.now)
        (cuts_of keys.now) step stores.items) }
{
    let (swept, _) = join(
        rt,
        move || -> Result<Twice, AllocError>
            requires { (length tasks.items ≡ length stores.items)
                × AreTasksOf solver.now tasks.items
                × AllCanStep (cuts_of keys.now) (S.parts_of solver.now) stores.items }
            ensures { IfOk result
                (SweptTwice (kernel_by S.parts_of S.updated S.marked solver.entry.now)
                (cuts_of keys.entry.now) step stores.items) }
        { sweep_twice(rt, alloc, stores, tasks, solver, keys, step, gate) },
        move || -> Result<Vec<u64>, AllocError>
            requires { AreHelpersOf pool.now helpers.items × (solver.now ≡ pool_solver pool.now) }
        { help(rt, helpers, pool, solver, gate) },
    );
    swept
}

/// The part of a step that computes: all trees sweep twice, with so many helpers. May want memory alone.
pub(crate) fn compute<S: Solver, R: Threads + Sync, G: Gate>(
    rt: &R,
    alloc: Global,
    stores: Vec<TreeStore>,
    notes: &mut Vec<SweepNote>,
    solver: &S,
    keys: &Keys,
    step: u32,
    workers: u32,
    gate: &G,
) -> Result<Worked, AllocError>
    requires stores { AllCanStep (cuts_of keys.now) (S.parts_of solver.now) stores.items }
    requires workers { workers < 2 ^ 32 - 1 }
    ensures computed { IfOk result
        (λ r. (dir : Direction) (g : Spacetree) (f : States)
        → AllStandOn (cuts_of keys.now) (S.parts_of solver.now) dir g f stores.items
        → IsComputedStep (kernel_by S.parts_of S.updated S.marked solver.now)
        (cuts_of keys.now) dir g f step stores.items r.stores.items r.partials.items
        notes.old.items notes.new.items r.found) }
    ensures stopped { OnErr result
        ((dir : Direction) (g : Spacetree) (f : States)
        → AllStandOn (cuts_of keys.now) (S.parts_of solver.now) dir g f stores.items
        → AddsFirst notes.old.items notes.new.items
        (computing_notes (sizes_of (cuts_of keys.now)) (cuts_of keys.now).trees step g)) }
{
    let sizes = desk_sizes(alloc, stores.as_slice(), workers)?;
    let _trees = keys.trees();
    let (pool, hands, helpers) = Pool::new(alloc, &sizes, workers, solver)?;
    let tasks = seat_trees(alloc, &pool, hands)?;
    let twice = sweep_with_helpers(
        rt, alloc, stores, tasks, helpers, &pool, solver, keys, step, gate,
    )?;
    notes.extend_from_slice(twice.notes.as_slice())?;
    Ok(Worked {
        stores: twice.stores,
        partials: twice.partials,
        found: Findings {
            failing: with_found(twice.early, twice.late.failing),
            turnover: twice.late.turnover,
        },
    })
}
