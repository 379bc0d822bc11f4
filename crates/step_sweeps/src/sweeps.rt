//! Whole sweeps of a tree.
ghost use Rattle.std.specs.Prelude.{◌≡◌, ◌-◌, ◌^◌, ◌<◌, false, IsOk, IfOk, OnOk, OnErr};
ghost use Rattle.peano_keys.specs.Grid.{Spacetree};
ghost use Rattle.peano_keys.specs.Field.{States};
ghost use Rattle.peano_curve.specs.declared.order.Direction.{Direction};
ghost use Rattle.tree_automaton.specs.TreeLists.{IsRoomy};
ghost use Rattle.curve_cuts.specs.Keys.{cuts_of};
ghost use Rattle.step_phases.specs.Change.{Change};
ghost use Rattle.step_sweeps.specs.Kernels.{kernel_by};
ghost use Rattle.step_sweeps.specs.Tasks.{Spawns, HasPlaces, SpawnedAll, CollectedAll};
ghost use Rattle.step_sweeps.specs.Sweeps.{CanStep, StandsOn, IsPrimarySwept, CanFinish, IsMarked, IsSecondarySwept};

use crate::primary::Primary;
use crate::secondary::Secondary;
use crate::tally::Tally;
use crate::tasks::TreeTasks;
use curve_cuts::Keys;
use peano_records::Partials;
use solver_api::Solver;
use std::alloc::AllocError;
use task_pool::Passes;
use tree_automaton::{TreeStore, sweep};
use vertex_stacks::{Kind, SweepNote};

/// Computes the skeleton leaves that a tree owns: each takes its mark and its new value as `next`, in all copies of its
/// corners that the tree has. Enclave leaves take their marks alone, and are offered as tasks: all of them, where the desk
/// has a place for each leaf that the tree owns and nothing was spawned before. A store with room takes no memory; after a refusal the store is not live.
pub fn primary_tree<'p, S: Solver>(
    store: &mut TreeStore,
    solver: &'p S,
    keys: &'p Keys,
    step: u32,
    tasks: TreeTasks<'p, S>,
) -> (TreeTasks<'p, S>, Result<(SweepNote, Tally), AllocError>)
    requires store { CanStep (cuts_of keys.now) (S.parts_of solver.now) store.old }
    requires solver { tasks.solver ≡ solver.now }
    ensures spawned { OnOk result.1 (Spawns tasks.entry result.0) }
    ensures all { OnOk result.1 ((dir : Direction) (g : Spacetree) (f : States)
        → StandsOn (cuts_of keys.now) (S.parts_of solver.now) dir g f store.old
        → tasks.entry.spawned ≡ 0 → HasPlaces (cuts_of keys.now) g store.old.tree tasks.entry.size
        → SpawnedAll (cuts_of keys.now) g store.old.tree tasks.entry.size result.0.spawned) }
    ensures swept { IfOk result.1
        (λ r. (dir : Direction) (g : Spacetree) (f : States)
        → StandsOn (cuts_of keys.now) (S.parts_of solver.now) dir g f store.old
        → IsPrimarySwept (kernel_by S.parts_of S.updated S.marked solver.now)
        (cuts_of keys.now) dir g f step store.old store.new r.0 r.1) }
    ensures refused { OnErr result.1 (store.new.live ≡ false) }
    ensures memory { IsRoomy store.old → IsOk result.1 }
    ensures roomy { IfOk result.1 (λ _. store.old.stored < 2 ^ 64 - 1 → IsRoomy store.new) }
{
    let tree = store.tree();
    let mut visitor = Primary::new(solver, keys, tree, tasks);
    let swept = sweep(store, &mut visitor, step, Kind::Primary);
    let (tasks, tally) = visitor.close();
    match swept {
        Ok(note) => (tasks, Ok((note, tally))),
        Err(refused) => (tasks, Err(refused)),
    }
}

/// Finishes a step in the cells that a tree owns, where the marks of all leaves and the new values of skeleton leaves are
/// there: each takes its intent, each enclave leaf its new value, and each refined cell the means of what the tree has of
/// it, in all copies of its corners that the tree has. Of a cell that no other tree holds that is its new value; the
/// partials have what the tree has of the others. The tally has the least enclave leaf that has no new value, and counts
/// the leaves that split and the refined cells that merge. Where a task was spawned for each enclave leaf and none
/// gathered, all are gathered then. A store with room takes no memory; after a refusal the store is not live.
pub fn secondary_tree<'p, S: Solver, G: Passes>(
    store: &mut TreeStore,
    solver: &'p S,
    keys: &'p Keys,
    step: u32,
    tasks: TreeTasks<'p, S>,
    gate: &'p G,
) -> (
    TreeTasks<'p, S>,
    Result<(SweepNote, Tally, Partials), AllocError>,
)
    requires solver { tasks.solver ≡ solver.now }
    requires store { CanFinish (kernel_by S.parts_of S.updated S.marked solver.now)
        (cuts_of keys.now) store.old }
    ensures swept { IfOk result.1
        (λ r. (dir : Direction) (w : Change) (f : States)
        → IsMarked (kernel_by S.parts_of S.updated S.marked solver.now)
        (cuts_of keys.now) dir w f store.old
        → IsSecondarySwept (cuts_of keys.now) (S.parts_of solver.now) dir w step store.old store.new
        r.0 r.1 r.2) }
    ensures all { OnOk result.1
        ((dir : Direction) (w : Change) (f : States)
        → IsMarked (kernel_by S.parts_of S.updated S.marked solver.now)
        (cuts_of keys.now) dir w f store.old
        → SpawnedAll
        (cuts_of keys.now) w.old store.old.tree tasks.entry.left tasks.entry.spawned
        → CollectedAll result.0.seat tasks.entry.spawned) }
    ensures refused { OnErr result.1 (store.new.live ≡ false) }
    ensures memory { IsRoomy store.old → IsOk result.1 }
    ensures roomy { IfOk result.1 (λ _. store.old.stored < 2 ^ 64 - 1 → IsRoomy store.new) }
{
    let tree = store.tree();
    let mut tasks = tasks;
    tasks.turn();
    let mut visitor = Secondary::new(solver, keys, tree, tasks, gate);
    let swept = sweep(store, &mut visitor, step, Kind::Secondary);
    let partials = visitor.partials();
    let (tasks, tally) = visitor.close();
    match swept {
        Ok(note) => (tasks, Ok((note, tally, partials))),
        Err(refused) => (tasks, Err(refused)),
    }
}
