//! One step of all trees: each phase of it is a call.
ghost use Rattle.std.specs.Prelude.{◌≡◌, ◌-◌, ◌<◌, ◌≤◌, ◌^◌, IfOk, OnErr};
ghost use Rattle.peano_keys.specs.Grid.{Spacetree};
ghost use Rattle.peano_keys.specs.Field.{States};
ghost use Rattle.peano_curve.specs.declared.order.Direction.{Direction};
ghost use Rattle.curve_cuts.specs.Keys.{cuts_of};
ghost use Rattle.step_phases.specs.Change.{Change};
ghost use Rattle.step_world.specs.Notes.{note_adapted, by_trees};
ghost use Rattle.step_driver.specs.Notes.{sizes_of, AddsFirst};
ghost use Rattle.step_driver.specs.Adapting.{AllCanAdapt, AllCanTake};
ghost use Rattle.step_driver.specs.Worlds.{AreAt};
ghost use Rattle.step_driver.specs.Stepping.{IsAdaptedStep, IsStepTaken};
ghost use Rattle.step_sweeps.specs.Kernels.{kernel_by};

use crate::adapting::adapt_all;
use crate::exchanging::exchange;
use crate::refusing::refusal;
use crate::size::size_after;
use crate::summing::settle;
use crate::working::compute;
use adapt_sweep::NewGrid;
use curve_cuts::Keys;
use solver_api::Solver;
use spacetree::EvalFault;
use std::alloc::{AllocError, Global};
use std::marker::Brand;
use std::thread::Threads;
use step_phases::Phase;
use task_pool::Gate;
use tree_automaton::TreeStore;
use vertex_stacks::SweepNote;
use vertex_stacks::laws::tale_of_notes_grows;

/// All trees after a step, and how many cells the next grid has.
#[derive(Drop)]
pub(crate) struct Stepped {
    pub(crate) stores: Vec<TreeStore>,
    pub(crate) cells: u64,
}

// The part of a step that adapts: each tree goes over to the next grid.
fn adapt<N: NewGrid + Send + Sync, R: Threads + Sync>(
    rt: &R,
    alloc: Global,
    stores: Vec<TreeStore>,
    notes: &mut Vec<SweepNote>,
    keys: &Keys,
    step: u32,
) -> Result<Vec<TreeStore>, AllocError>
    requires { AllCanTake (cuts_of keys.now) N.grid stores.items }
    ensures adapted { IfOk result
        (λ after. (dir : Direction) (w : Change) → w.new ≡ N.grid
        → AllCanAdapt (cuts_of keys.now) dir w stores.items
        → IsAdaptedStep
        (cuts_of keys.now) dir w step stores.items after.items notes.old.items
        notes.new.items) }
    ensures stopped { OnErr result
        ((dir : Direction) (w : Change) → w.new ≡ N.grid
        → AllCanAdapt (cuts_of keys.now) dir w stores.items
        → AddsFirst notes.old.items notes.new.items
        (by_trees (cuts_of keys.now).trees
        (note_adapted (sizes_of (cuts_of keys.now)) step w.old w.new))) }
{
    let stores = adapt_all::<N, R>(rt, alloc, stores, notes, keys, step)?;
    exchange(rt, alloc, stores, keys, Phase::Third)
}

/// One step of all trees. It is refused at the least leaf whose new value leaves its range, or, where there is none, because
/// the next grid would have more than 200,000 cells; or for want of memory.
pub(crate) fn take_step<S: Solver, R: Threads + Sync, G: Gate>(
    rt: &R,
    alloc: Global,
    stores: Vec<TreeStore>,
    notes: &mut Vec<SweepNote>,
    solver: &S,
    keys: &Keys,
    cells: u64,
    step: u32,
    workers: u32,
    gate: &G,
) -> Result<Stepped, EvalFault>
    requires at { (g : Spacetree) × (f : States)
        × AreAt (S.parts_of solver.now) (cuts_of keys.now) stores.items notes.old.items cells g f }
    requires deepest { S.deepest_of solver.now ≤ keys.now.depth }
    requires workers { workers < 2 ^ 32 - 1 }
    ensures { (g : Spacetree) (f : States)
        → AreAt (S.parts_of solver.now) (cuts_of keys.now) stores.items notes.old.items cells g f
        → IsStepTaken (kernel_by S.parts_of S.updated S.marked solver.now) (S.adapting solver.now)
        (cuts_of keys.now) g f step notes.old.items notes.new.items result }
{
    tale_of_notes_grows();
    let worked = compute(rt, alloc, stores, notes, solver, keys, step, workers, gate)?;
    let cells = size_after(cells, keys.dim(), worked.found.turnover);
    if let Some(fault) = refusal(worked.found.failing, cells, step) {
        return Err(fault);
    }
    let settled = settle(rt, alloc, worked.stores, worked.partials.as_slice(), keys)?;
    if !solver.adapts() {
        return Ok(Stepped {
            stores: settled,
            cells,
        });
    }
    let stores = adapt::<Brand, R>(rt, alloc, settled, notes, keys, step)?;
    Ok(Stepped { stores, cells })
}
