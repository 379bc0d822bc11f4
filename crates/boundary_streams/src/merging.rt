//! What a tree takes over from what it was sent.
ghost use Rattle.std.specs.Prelude.{◌≡◌, ℕ, ◌<◌, true, None, OnOk, OnErr, length, slice_index, slice_index_or};
ghost use Rattle.curve_cuts.specs.Keys.{cuts_of};
ghost use Rattle.sweep_visits.specs.Plan.{SweepPlan};
ghost use Rattle.tree_automaton.specs.AtRest.{HasLists};
ghost use Rattle.boundary_streams.specs.Sent.{sent_to};
ghost use Rattle.boundary_streams.specs.Trees.{IsKeyOf, IsTreeOf};
ghost use Rattle.boundary_streams.specs.Merges.{IsMerged};
ghost use Rattle.boundary_streams.specs.Mails.{Covers, mail_of, source_of, IsSource, IsOwnerAt};
ghost use Rattle.boundary_streams.specs.Records.{IsSlotExchanged, IsRecordExchanged, MergesAt};

use crate::outbox::Outbox;
use crate::received::{Received, is_touched, parcel_from, receive};
use crate::round::owner_at;
use crate::slots::{exchange, is_first, is_left};
use curve_cuts::Keys;
use peano_keys::VertexKey;
use peano_records::Parcel;
use std::alloc::{AllocError, Global};
use step_phases::Phase;
use tree_automaton::TreeStore;

// The trees that own the cells at the adjacent positions of a vertex; the tree itself where there is none.
fn owners_round(keys: &Keys, vertex: VertexKey, tree: u32) -> [u32; 8]
    requires { IsKeyOf (cuts_of keys.now) vertex }
    ensures eight { length result ≡ 8 }
    ensures each { (n : ℕ) → n < 8
        → IsOwnerAt (cuts_of keys.now) tree vertex n (slice_index result n) }
{
    [
        owner_at(keys, vertex, 0, tree),
        owner_at(keys, vertex, 1, tree),
        owner_at(keys, vertex, 2, tree),
        owner_at(keys, vertex, 3, tree),
        owner_at(keys, vertex, 4, tree),
        owner_at(keys, vertex, 5, tree),
        owner_at(keys, vertex, 6, tree),
        owner_at(keys, vertex, 7, tree),
    ]
}

// The parcel for slot `n`, which is looked up where no earlier slot has the same owner.
fn source(
    received: &Received,
    owners: &[u32; 8],
    found: &[Option<Parcel>; 8],
    n: u32,
    vertex: VertexKey,
    tree: u32,
) -> Option<Parcel>
    requires slot { n < 8 }
    requires owners { length owners.now ≡ 8 }
    requires eight { length found.now ≡ 8 }
    requires found { (m : ℕ) → m < n
        → slice_index_or found.now m None
        ≡ source_of (mail_of received.now) owners.now tree vertex m }
    ensures { result ≡ source_of (mail_of received.now) owners.now tree vertex n }
{
    let owner = owners[n as usize];
    if owner == tree {
        return None;
    }
    for m in 0..n as usize {
        if owners[m] == owner {
            return found[m];
        }
    }
    parcel_from(received, owner, vertex)
}

// The parcels for all slots.
fn sources(
    received: &Received,
    owners: &[u32; 8],
    vertex: VertexKey,
    tree: u32,
) -> [Option<Parcel>; 8]
    requires { length owners.now ≡ 8 }
    ensures eight { length result ≡ 8 }
    ensures each { (m : ℕ) → m < 8
        → slice_index_or result m None ≡ source_of (mail_of received.now) owners.now tree vertex m }
{
    let mut found = [None; 8];
    for n in 0..8u32 {
        found[n as usize] = source(received, owners, &found, n, vertex, tree);
    }
    found
}

// The parcels for all slots of a vertex, from the owners of the cells round it.
fn sources_round(
    keys: &Keys,
    received: &Received,
    vertex: VertexKey,
    tree: u32,
) -> [Option<Parcel>; 8]
    requires { IsKeyOf (cuts_of keys.now) vertex }
    ensures each { (n : ℕ) → n < 8
        → IsSource (cuts_of keys.now) (mail_of received.now) tree vertex n
        (slice_index_or result n None) }
    ensures eight { length result ≡ 8 }
{
    let owners = owners_round(keys, vertex, tree);
    sources(received, &owners, vertex, tree)
}

// Changes one slot as a phase does, with the parcel of the tree that owns its cell if there is one. A slot that stays as
// it is is not written, so that a record of the plane does not grow.
fn exchange_slot(store: &mut TreeStore, k: u64, n: u32, phase: Phase, theirs: &Option<Parcel>)
    requires live { store.old.live ≡ true }
    requires place { k < length store.old.lanes.input }
    requires slot { n < 8 }
    ensures { IsSlotExchanged phase k n theirs.now store.old store.new }
{
    let ours = store.slot_at(k, n);
    if theirs.is_none() && is_left(phase, &ours) {
        return;
    }
    store.set_slot(k, n, exchange(phase, n, theirs, ours));
}

// Merges the record of a vertex of which no tree sent anything.
fn finish_record(store: &mut TreeStore, k: u64, phase: Phase)
    requires live { store.old.live ≡ true }
    requires place { k < length store.old.lanes.input }
    ensures { IsRecordExchanged phase k (λ n. None) store.old store.new }
{
    if is_first(phase) {
        return;
    }
    for n in 0..8u32 {
        exchange_slot(store, k, n, phase, &None);
    }
}

// Merges the record of a vertex, with a parcel for each slot where there is one.
fn exchange_record(store: &mut TreeStore, k: u64, phase: Phase, found: &[Option<Parcel>; 8])
    requires live { store.old.live ≡ true }
    requires place { k < length store.old.lanes.input }
    requires eight { length found.now ≡ 8 }
    ensures { IsRecordExchanged phase k (λ n. slice_index_or found.now n None) store.old store.new }
{
    for n in 0..8u32 {
        exchange_slot(store, k, n, phase, &found[n as usize]);
    }
}

// Merges one record.
fn merge_record(store: &mut TreeStore, k: u64, keys: &Keys, received: &Received, phase: Phase)
    requires place { k < length store.old.lanes.input }
    requires store { IsTreeOf (cuts_of keys.now) store.old }
    requires covers { Covers received.now }
    ensures { MergesAt phase (cuts_of keys.now) (mail_of received.now) k store.old store.new }
{
    let vertex = store.key_at(k);
    if !is_touched(received, vertex) {
        finish_record(store, k, phase);
        return;
    }
    let found = sources_round(keys, received, vertex, store.tree());
    exchange_record(store, k, phase, &found);
}

/// Takes over what the boxes have for the tree of a store: in each slot of a cell that another tree owns, the fields of the
/// phase from that tree's parcel; then the phase's finish in every slot. May want memory alone, and takes all of it first.
pub fn merge(
    alloc: Global,
    store: &mut TreeStore,
    keys: &Keys,
    boxes: &[Outbox],
    phase: Phase,
) -> Result<(), AllocError>
    requires { IsTreeOf (cuts_of keys.now) store.old }
    // Every slot of the store afterwards.
    ensures ok { OnOk result
        (IsMerged phase (cuts_of keys.now) (sent_to boxes.now store.old.tree) store.old store.new) }
    // A refusal changes nothing.
    ensures err { OnErr result (store.new ≡ store.old) }
    // What a sweep reads stays, so the store is as ready for the next sweep as before.
    ensures lists { (p : SweepPlan) (number : ℕ) → HasLists p number store.old
        → HasLists p number store.new }
    ensures tree { IsTreeOf (cuts_of keys.now) store.new }
{
    let received = receive(alloc, boxes, store.tree())?;
    for k in 0..store.input_count() {
        merge_record(store, k, keys, &received, phase);
    }
    Ok(())
}
