//! The secondary sweeps of all trees.
ghost use Rattle.std.specs.Prelude.{◌≡◌, ◌+◌, IfOk, OnErr, length, map};
ghost use Rattle.peano_keys.specs.Field.{States};
ghost use Rattle.peano_curve.specs.declared.order.Direction.{Direction};
ghost use Rattle.curve_cuts.specs.Keys.{cuts_of};
ghost use Rattle.vertex_stacks.specs.declared.kind.Kind.TheVariants.{Secondary};
ghost use Rattle.vertex_stacks.specs.Tales.{capped};
ghost use Rattle.step_phases.specs.Change.{Change};
ghost use Rattle.step_world.specs.Notes.{note_over, by_trees};
ghost use Rattle.step_sweeps.specs.Sweeps.{CanFinish};
ghost use Rattle.step_driver.specs.declared.beside.Swept.{Swept};
ghost use Rattle.step_driver.specs.Gives.{EachIs, EachGives};
ghost use Rattle.step_driver.specs.Tasking.{AreTasksOf};
ghost use Rattle.step_driver.specs.Computing.{least_with};
ghost use Rattle.step_driver.specs.Notes.{sizes_of, AddsFirst};
ghost use Rattle.step_driver.specs.declared.finishing.TreeFindings.{TreeFindings};
ghost use Rattle.step_driver.specs.Finishing.{AllMarked, AllCanFinish, AreFinished, Finishes, CanFinishJob, FinishesJob};
ghost use Rattle.step_sweeps.specs.Kernels.{kernel_by};

use crate::beside::{Swept, all_of, paired};
use crate::computing::with_found;
use curve_cuts::Keys;
use peano_keys::CellKey;
use peano_records::Partials;
use solver_api::Solver;
use std::alloc::{AllocError, Global};
use std::thread;
use std::thread::Threads;
use step_sweeps::{Tally, TreeTasks, secondary_tree};
use task_pool::Gate;
use tree_automaton::TreeStore;
use vertex_stacks::SweepNote;

/// How many leaves split in a step, and how many refined cells merge.
#[derive(Clone, Copy)]
pub(crate) struct Turnover {
    pub(crate) splits: u64,
    pub(crate) merges: u64,
}

/// What the trees find while they compute a step: the least leaf that has no new value, if there is one, and how many
/// cells split and merge.
#[derive(Clone, Copy)]
pub(crate) struct Findings {
    pub(crate) failing: Option<CellKey>,
    pub(crate) turnover: Turnover,
}

/// What one tree finds in its secondary sweep: its tally, and the partials of the cells that it shares.
#[derive(Drop)]
pub(crate) struct TreeFindings {
    pub(crate) tally: Tally,
    pub(crate) partials: Partials,
}

impl Turnover {
    // With the cells of one more tree.
    fn with(self, tally: &Tally) -> Turnover
        ensures splits { result.splits ≡ capped (self.splits + tally.now.splits) }
        ensures merges { result.merges ≡ capped (self.merges + tally.now.merges) }
    {
        Turnover {
            splits: self.splits.saturating_add(tally.splits),
            merges: self.merges.saturating_add(tally.merges),
        }
    }
}

impl Findings {
    // With what one more tree found.
    fn with(self, tally: &Tally) -> Findings
        ensures failing { result.failing ≡ least_with self.failing tally.now.failing }
        ensures splits { result.turnover.splits ≡ capped (self.turnover.splits + tally.now.splits) }
        ensures merges { result.turnover.merges ≡ capped (self.turnover.merges + tally.now.merges) }
    {
        Findings {
            failing: with_found(self.failing, tally.failing),
            turnover: self.turnover.with(tally),
        }
    }
}

/// All trees after their secondary sweeps: their stores, the partials of each, and what they found.
#[derive(Drop)]
pub(crate) struct Finished {
    pub(crate) stores: Vec<TreeStore>,
    pub(crate) partials: Vec<Partials>,
    pub(crate) found: Findings,
}

// The secondary sweep of one tree, with its tasks, which it gathers.
fn finish_one<'p, S: Solver, G: Gate>(
    mut store: TreeStore,
    tasks: TreeTasks<'p, S>,
    solver: &'p S,
    keys: &'p Keys,
    step: u32,
    gate: &'p G,
) -> Result<Swept<TreeFindings>, AllocError>
    requires store { CanFinish (kernel_by S.parts_of S.updated S.marked solver.now)
        (cuts_of keys.now) store }
    requires tasks { tasks.solver ≡ solver.now }
    ensures { IfOk result
        (Finishes (kernel_by S.parts_of S.updated S.marked solver.now)
        (cuts_of keys.now) step store) }
{
    let (_, swept) = secondary_tree(&mut store, solver, keys, step, tasks, gate);
    let (note, tally, partials) = swept?;
    Ok(Swept {
        store,
        note,
        found: TreeFindings { tally, partials },
    })
}

// The stores of swept trees and the partials that they handed out, each in their order.
fn taken_apart(
    alloc: Global,
    swept: Vec<Swept<TreeFindings>>,
) -> Result<(Vec<TreeStore>, Vec<Partials>), AllocError>
    ensures stores { IfOk result
        (λ r. r.0.items ≡ map (λ (x : Swept TreeFindings). x.store) swept.items) }
    ensures partials { IfOk result
        (λ r. r.1.items ≡ map (λ (x : Swept TreeFindings). x.found.partials) swept.items) }
{
    let mut stores = Vec::new(alloc);
    let mut partials = Vec::new(alloc);
    for tree in swept {
        stores.push(tree.store)?;
        partials.push(tree.found.partials)?;
    }
    Ok((stores, partials))
}

// The secondary sweep of each tree, beside those of the others.
fn finish_each<'p, S: Solver, R: Threads + Sync, G: Gate>(
    rt: &R,
    jobs: Vec<(TreeStore, TreeTasks<'p, S>)>,
    solver: &'p S,
    keys: &'p Keys,
    step: u32,
    gate: &'p G,
) -> Result<Vec<Result<Swept<TreeFindings>, AllocError>>, AllocError>
    requires { EachIs
        (CanFinishJob (kernel_by S.parts_of S.updated S.marked solver.now)
        (cuts_of keys.now) solver.now) jobs.items }
    ensures { IfOk result
        (λ given. EachGives
        (FinishesJob (kernel_by S.parts_of S.updated S.marked solver.now)
        (cuts_of keys.now) step) jobs.entry.items given.items) }
{
    thread::map_vec(
        rt,
        jobs,
        &|job: (TreeStore, TreeTasks<S>)| -> Result<Swept<TreeFindings>, AllocError>
            requires { CanFinishJob (kernel_by S.parts_of S.updated S.marked solver.now)
                (cuts_of keys.now) solver.now job }
            ensures { FinishesJob (kernel_by S.parts_of S.updated S.marked solver.entry.now)
                (cuts_of keys.entry.now) step job.entry result }
        { finish_one(job.0, job.1, solver, keys, step, gate) },
    )
}

/// The secondary sweeps of all trees, beside each other: each notes its sweep, gathers its tasks, and hands out its partials.
/// May want memory alone.
pub(crate) fn finish_all<'p, S: Solver, R: Threads + Sync, G: Gate>(
    rt: &R,
    alloc: Global,
    stores: Vec<TreeStore>,
    tasks: Vec<TreeTasks<'p, S>>,
    notes: &mut Vec<SweepNote>,
    solver: &'p S,
    keys: &'p Keys,
    step: u32,
    gate: &'p G,
) -> Result<Finished, AllocError>
    requires tasks { (length tasks.items ≡ length stores.items)
        × AreTasksOf solver.now tasks.items }
    requires stores { AllCanFinish (kernel_by S.parts_of S.updated S.marked solver.now)
        (cuts_of keys.now) stores.items }
    ensures finished { IfOk result
        (λ r. (dir : Direction) (w : Change) (f : States)
        → AllMarked (kernel_by S.parts_of S.updated S.marked solver.now)
        (cuts_of keys.now) dir w f stores.items
        → AreFinished (cuts_of keys.now) (S.parts_of solver.now) dir w step stores.items
        r.stores.items r.partials.items notes.old.items notes.new.items r.found) }
    ensures stopped { OnErr result
        ((dir : Direction) (w : Change) (f : States)
        → AllMarked (kernel_by S.parts_of S.updated S.marked solver.now)
        (cuts_of keys.now) dir w f stores.items
        → AddsFirst notes.old.items notes.new.items
        (by_trees (cuts_of keys.now).trees
        (note_over (sizes_of (cuts_of keys.now)) step Secondary w.old))) }
{
    let jobs = paired(alloc, stores, tasks)?;
    let swept = all_of(alloc, finish_each(rt, jobs, solver, keys, step, gate)?)?;
    let mut found = Findings {
        failing: None,
        turnover: Turnover {
            splits: 0,
            merges: 0,
        },
    };
    for tree in &swept {
        notes.push(tree.note)?;
        found = found.with(&tree.found.tally);
    }
    let (stores, partials) = taken_apart(alloc, swept)?;
    Ok(Finished {
        stores,
        partials,
        found,
    })
}
