//! What a tree sends of the vertices that it shares.
ghost use Rattle.std.specs.Prelude.{◌≡◌, ℕ, ◌<◌, OnOk, IfOk, [], ◌∷◌, ◌++◌, map, length, slice_get, slice_index_or, slice_set, if◌then◌else◌, IsSomeAnd};
ghost use Rattle.vertex_stacks.specs.Lists.{parcel_of};
ghost use Rattle.curve_cuts.specs.Keys.{cuts_of};
ghost use Rattle.boundary_streams.specs.Trees.{IsKeyOf, IsTreeOf};
ghost use Rattle.boundary_streams.specs.Collects.{IsCollected};
ghost use Rattle.boundary_streams.specs.Sendings.{AddsWhere, AreWithin, items_of, AreEmpty, HasSent, is_met_first};

use crate::inner::is_shared;
use crate::outbox::Outbox;
use crate::round::{intervals, is_met_first};
use curve_cuts::Keys;
use peano_curve::Range;
use peano_records::Parcel;
use std::alloc::{AllocError, Global};
use tree_automaton::TreeStore;

// So many empty lists.
fn empty_lists(alloc: Global, count: u32) -> Result<Vec<Vec<Parcel>>, AllocError>
    ensures { IfOk result (λ lists. AreEmpty count (map items_of lists.items)) }
{
    let mut lists = Vec::new(alloc);
    for _ in 0..count {
        lists.push(Vec::new(alloc))?;
    }
    Ok(lists)
}

// Adds a parcel to a list, where that is wanted.
fn add(
    lists: &mut Vec<Vec<Parcel>>,
    place: usize,
    parcel: &Parcel,
    wanted: bool,
) -> Result<(), AllocError>
    requires { place < length lists.old.items }
    ensures { OnOk result
        (map items_of lists.new.items
        ≡ (if wanted
        then slice_set (map items_of lists.old.items) place
        (slice_index_or (map items_of lists.old.items) place [] ++ parcel.now ∷ [])
        else map items_of lists.old.items)) }
{
    if !wanted {
        return Ok(());
    }
    lists[place].push(*parcel)?;
    Ok(())
}

// Adds the parcel of a vertex to the list of each other tree that has a position of interval number `n` and none of an
// earlier one. It begins with the tree of the interval's first position, and asks no tree behind its last one.
fn send_round(
    lists: &mut Vec<Vec<Parcel>>,
    keys: &Keys,
    tree: u32,
    parcel: &Parcel,
    intervals: &[Range; 8],
    n: usize,
) -> Result<(), AllocError>
    requires eight { length intervals.now ≡ 8 }
    requires place { n < 8 }
    requires within { AreWithin (cuts_of keys.now) intervals.now }
    requires lists { length lists.old.items ≡ (cuts_of keys.now).trees }
    ensures { OnOk result
        (AddsWhere (is_met_first (cuts_of keys.now) tree intervals.now n) parcel.now
        (map items_of lists.old.items) (map items_of lists.new.items)) }
{
    let interval = intervals[n];
    if interval.hi <= interval.lo {
        return Ok(());
    }
    for other in keys.tree_of(interval.lo)..keys.trees() {
        if interval.hi <= keys.range(other).lo {
            return Ok(());
        }
        let wanted = is_met_first(keys, intervals, n, tree, other);
        add(lists, other as usize, parcel, wanted)?;
    }
    Ok(())
}

// Adds the parcel of a vertex to the list of each other tree that holds a position round it.
fn send(
    lists: &mut Vec<Vec<Parcel>>,
    keys: &Keys,
    tree: u32,
    parcel: &Parcel,
) -> Result<(), AllocError>
    requires key { IsKeyOf (cuts_of keys.now) parcel.now.key }
    requires lists { length lists.old.items ≡ (cuts_of keys.now).trees }
    ensures { OnOk result
        (HasSent (cuts_of keys.now) tree parcel.now (map items_of lists.old.items)
        (map items_of lists.new.items)) }
{
    let intervals = intervals(keys, parcel.key);
    for n in 0..8 {
        send_round(lists, keys, tree, parcel, &intervals, n)?;
    }
    Ok(())
}

// Sends one vertex of a store to the trees that share it. The record of any other vertex is not read.
fn send_at(
    lists: &mut Vec<Vec<Parcel>>,
    keys: &Keys,
    store: &TreeStore,
    k: u64,
) -> Result<(), AllocError>
    requires place { k < length store.now.lanes.input }
    requires store { IsTreeOf (cuts_of keys.now) store.now }
    requires lists { length lists.old.items ≡ (cuts_of keys.now).trees }
    ensures { OnOk result
        (IsSomeAnd (slice_get store.now.lanes.input k)
        (λ v. HasSent (cuts_of keys.now) store.now.tree (parcel_of v)
        (map items_of lists.old.items) (map items_of lists.new.items))) }
{
    let tree = store.tree();
    let vertex = store.key_at(k);
    if !is_shared(keys, vertex, tree) {
        return Ok(());
    }
    let parcel = store.parcel_at(k);
    send(lists, keys, tree, &parcel)
}

/// The parcels of a store's vertices for each other tree that holds a position round them, in the order of the stream.
/// May want memory alone.
pub fn collect(alloc: Global, store: &TreeStore, keys: &Keys) -> Result<Outbox, AllocError>
    requires { IsTreeOf (cuts_of keys.now) store.now }
    ensures { IfOk result (λ outbox. IsCollected (cuts_of keys.now) store.now outbox) }
{
    let mut parcels = empty_lists(alloc, keys.trees())?;
    for k in 0..store.input_count() {
        send_at(&mut parcels, keys, store, k)?;
    }
    Ok(Outbox {
        sender: store.tree(),
        parcels,
    })
}
