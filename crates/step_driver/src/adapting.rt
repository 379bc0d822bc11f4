//! The adaptation sweeps of all trees.
ghost use Rattle.std.specs.Prelude.{◌≡◌, IfOk, OnErr};
ghost use Rattle.peano_curve.specs.declared.order.Direction.{Direction};
ghost use Rattle.curve_cuts.specs.Keys.{cuts_of};
ghost use Rattle.step_phases.specs.Change.{Change};
ghost use Rattle.step_world.specs.Notes.{note_adapted, by_trees};
ghost use Rattle.step_driver.specs.Gives.{EachIs, EachMayGive};
ghost use Rattle.step_driver.specs.Notes.{sizes_of, AddsFirst};
ghost use Rattle.step_driver.specs.Adapting.{AllCanAdapt, AllCanTake, AreAdapted, Adapts, CanTake};

use crate::beside::{Swept, all_of, stores_of};
use adapt_sweep::{NewGrid, adapt_tree};
use curve_cuts::Keys;
use std::alloc::{AllocError, Global};
use std::thread;
use std::thread::Threads;
use tree_automaton::TreeStore;
use vertex_stacks::SweepNote;

// The adaptation sweep of one tree.
fn adapt_one<N: NewGrid>(
    mut store: TreeStore,
    keys: &Keys,
    step: u32,
) -> Result<Swept<()>, AllocError>
    requires { CanTake (cuts_of keys.now) N.grid store }
    ensures { IfOk result (Adapts (cuts_of keys.now) N.grid step store) }
{
    let note = adapt_tree::<N>(&mut store, keys, step)?;
    Ok(Swept {
        store,
        note,
        found: (),
    })
}

// The adaptation sweep of each tree, beside those of the others.
fn adapt_each<N: NewGrid + Send + Sync, R: Threads + Sync>(
    rt: &R,
    stores: Vec<TreeStore>,
    keys: &Keys,
    step: u32,
) -> Result<Vec<Result<Swept<()>, AllocError>>, AllocError>
    requires { EachIs (CanTake (cuts_of keys.now) N.grid) stores.items }
    ensures { IfOk result
        (λ given. EachMayGive (Adapts (cuts_of keys.now) N.grid step) stores.items given.items) }
{
    thread::map_vec(
        rt,
        stores,
        &|store: TreeStore| -> Result<Swept<()>, AllocError>
            requires { CanTake (cuts_of keys.now) N.grid store }
            ensures { IfOk result (Adapts (cuts_of keys.entry.now) N.grid step store) }
        { adapt_one::<N>(store, keys, step) },
    )
}

/// The adaptation sweeps of all trees, beside each other, to a grid that the type parameter tells contracts: each notes its
/// sweep. The answer is their stores. May want memory alone.
pub(crate) fn adapt_all<N: NewGrid + Send + Sync, R: Threads + Sync>(
    rt: &R,
    alloc: Global,
    stores: Vec<TreeStore>,
    notes: &mut Vec<SweepNote>,
    keys: &Keys,
    step: u32,
) -> Result<Vec<TreeStore>, AllocError>
    requires { AllCanTake (cuts_of keys.now) N.grid stores.items }
    ensures adapted { IfOk result
        (λ after. (dir : Direction) (w : Change) → w.new ≡ N.grid
        → AllCanAdapt (cuts_of keys.now) dir w stores.items
        → AreAdapted
        (cuts_of keys.now) dir w step stores.items after.items notes.old.items
        notes.new.items) }
    ensures stopped { OnErr result
        ((dir : Direction) (w : Change) → w.new ≡ N.grid
        → AllCanAdapt (cuts_of keys.now) dir w stores.items
        → AddsFirst notes.old.items notes.new.items
        (by_trees (cuts_of keys.now).trees
        (note_adapted (sizes_of (cuts_of keys.now)) step w.old w.new))) }
{
    let swept = all_of(alloc, adapt_each::<N, R>(rt, stores, keys, step)?)?;
    for tree in &swept {
        notes.push(tree.note)?;
    }
    stores_of(alloc, swept)
}
