//! The exchange between all trees, made while no tree sweeps.
ghost use Rattle.std.specs.Prelude.{◌≡◌, ◌<◌, IfOk, length};
ghost use Rattle.curve_cuts.specs.Keys.{cuts_of};
ghost use Rattle.boundary_streams.specs.Collects.{IsCollected};
ghost use Rattle.boundary_streams.specs.Trees.{IsTreeOf};
ghost use Rattle.step_driver.specs.Stores.{AreTrees, AllMerged, store_of};
ghost use Rattle.step_driver.specs.Gives.{EachIs, EachGives, EachMayGive};
ghost use Rattle.step_driver.specs.Boxes.{MergesBoxes};

use crate::beside::all_of;
use boundary_streams::{Outbox, collect, merge};
use curve_cuts::Keys;
use std::alloc::{AllocError, Global};
use std::thread;
use std::thread::Threads;
use step_phases::Phase;
use tree_automaton::TreeStore;

// What each tree sends, beside the others.
fn collect_each<R: Threads + Sync>(
    rt: &R,
    alloc: Global,
    stores: &[TreeStore],
    keys: &Keys,
) -> Result<Vec<Result<Outbox, AllocError>>, AllocError>
    requires { EachIs (IsTreeOf (cuts_of keys.now)) stores.now }
    ensures { IfOk result
        (λ given. EachMayGive (IsCollected (cuts_of keys.now)) stores.now given.items) }
{
    thread::map_indices(
        rt,
        alloc,
        stores.len(),
        &|t: usize| -> Result<Outbox, AllocError>
            requires { (t < length stores.now) × EachIs (IsTreeOf (cuts_of keys.now)) stores.now }
            ensures { IfOk result
                (IsCollected (cuts_of keys.entry.now) (store_of stores.entry.now t)) }
        { collect(alloc, &stores[t], keys) },
    )
}

// A tree takes over what the others sent.
fn merge_one(
    alloc: Global,
    mut store: TreeStore,
    keys: &Keys,
    boxes: &[Outbox],
    phase: Phase,
) -> Result<TreeStore, AllocError>
    requires { IsTreeOf (cuts_of keys.now) store }
    ensures { IfOk result (MergesBoxes phase (cuts_of keys.now) boxes.now store) }
{
    merge(alloc, &mut store, keys, boxes, phase)?;
    Ok(store)
}

// Each tree takes over what the others sent, beside the others.
fn merge_each<R: Threads + Sync>(
    rt: &R,
    alloc: Global,
    stores: Vec<TreeStore>,
    keys: &Keys,
    boxes: &[Outbox],
    phase: Phase,
) -> Result<Vec<Result<TreeStore, AllocError>>, AllocError>
    requires { EachIs (IsTreeOf (cuts_of keys.now)) stores.items }
    ensures { IfOk result
        (λ given. EachMayGive
        (MergesBoxes phase (cuts_of keys.now) boxes.now) stores.items given.items) }
{
    thread::map_vec(
        rt,
        stores,
        &|store: TreeStore| -> Result<TreeStore, AllocError>
            requires { IsTreeOf (cuts_of keys.now) store }
            ensures { IfOk result
                (MergesBoxes phase (cuts_of keys.entry.now) boxes.entry.now store) }
        { merge_one(alloc, store, keys, boxes, phase) },
    )
}

/// All trees exchange what they know: each sends first, then each takes over what the others sent. The answer is their
/// stores. May want memory alone.
pub(crate) fn exchange<R: Threads + Sync>(
    rt: &R,
    alloc: Global,
    stores: Vec<TreeStore>,
    keys: &Keys,
    phase: Phase,
) -> Result<Vec<TreeStore>, AllocError>
    requires { AreTrees (cuts_of keys.now) stores.items }
    ensures { IfOk result (λ after. AllMerged phase (cuts_of keys.now) stores.items after.items) }
{
    let boxes = all_of(alloc, collect_each(rt, alloc, stores.as_slice(), keys)?)?;
    all_of(
        alloc,
        merge_each(rt, alloc, stores, keys, boxes.as_slice(), phase)?,
    )
}
