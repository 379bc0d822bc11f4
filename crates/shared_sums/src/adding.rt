//! How the owner of a shared cell takes the mean of its total as its new value.
ghost use Rattle.peano_keys.specs.declared.cell.CellKey.{CellKey};
ghost use Rattle.std.specs.Prelude.{◌≡◌, ◌≢◌, ℕ, ◌<◌, ◌≤◌, true, All, IsOk, IfOk, OnOk, OnErr, IsTrue, IsSome, length, slice_index_or};
ghost use Rattle.peano_keys.specs.Cell.{IsCell};
ghost use Rattle.peano_keys.specs.Vertex.{IsVertex};
ghost use Rattle.curve_cuts.specs.Cuts.{Owns};
ghost use Rattle.curve_cuts.specs.Keys.{cuts_of};
ghost use Rattle.sweep_visits.specs.Plan.{SweepPlan};
ghost use Rattle.tree_automaton.specs.AtRest.{HasLists};
ghost use Rattle.boundary_streams.specs.Trees.{IsKeyOf, IsTreeOf};
ghost use Rattle.peano_keys.specs.Field.{state_like};
ghost use Rattle.shared_sums.specs.Totals.{partial_of, ArePartials, MeansAreWords};
ghost use Rattle.shared_sums.specs.Adding.{IsOwnShared, TakesMeans, CanAdd, partials_in};
ghost use Rattle.shared_sums.specs.Records.{number_in, AreMeansOf, IsOwnMeans, means_of, AreOwnMeans, cell_of, means_at, changed_slot, IsSlotBy, IsPlaceBy, IsStoreBy};

use crate::totals::mean;
use curve_cuts::Keys;
use peano_keys::{CellKey, Dim, State, VertexKey, adjacent, corner_count};
use peano_records::{Partials, Slot};
use std::alloc::{AllocError, Global};
use tree_automaton::TreeStore;

/// A shared cell and the means of its components.
#[derive(Clone, Copy, Debug, PartialEq, Eq)]
pub struct Means {
    pub key: CellKey,
    pub values: [i64; 4],
}

// The means of a cell.
fn means_for(keys: &Keys, all: &[Partials], key: CellKey) -> Means
    requires level { key.level ≤ keys.now.depth }
    requires trees { length all.now ≡ (cuts_of keys.now).trees }
    requires partials { ArePartials keys.now.depth keys.now.dim all.now }
    requires fit { MeansAreWords keys.now.depth keys.now.dim all.now key }
    ensures key { result.key ≡ key }
    ensures values { AreMeansOf (cuts_of keys.now) all.now key result.values }
{
    let dim = keys.dim();
    let depth = keys.depth();
    let _trees = keys.trees();
    Means {
        key,
        values: [
            mean(dim, depth, all, key, 0),
            mean(dim, depth, all, key, 1),
            mean(dim, depth, all, key, 2),
            mean(dim, depth, all, key, 3),
        ],
    }
}

// The means of a cell in a list.
fn means_of(list: &[Means], key: CellKey) -> Option<Means>
    ensures { result ≡ means_of key list.now }
{
    for means in list {
        if means.key == key {
            return Some(*means);
        }
    }
    None
}

// Whether a list has means of no cell of a level.
fn lacks_level(list: &[Means], level: u32) -> bool
    ensures { result ≡ true → All (λ m. m.key.level ≢ level) list.now }
{
    for means in list {
        if means.key.level == level {
            return false;
        }
    }
    true
}

// A state with as many values as another, given by means.
pub(crate) fn state_like(state: State, values: [i64; 4]) -> State
    ensures { result ≡ state_like state (number_in values) }
{
    match state {
        State::Single(_) => State::Single(values[0]),
        State::Pair(_, _) => State::Pair(values[0], values[1]),
        State::Triple(_, _, _) => State::Triple(values[0], values[1], values[2]),
        State::Quadruple(_, _, _, _) => {
            State::Quadruple(values[0], values[1], values[2], values[3])
        }
    }
}

// The means for slot `n` of a vertex, none where its cell has none in the list.
fn means_at(list: &[Means], dim: Dim, vertex: VertexKey, n: u32) -> Option<Means>
    requires { IsVertex dim vertex }
    ensures { result ≡ means_at list.now (cell_of dim vertex n) }
{
    if n >= corner_count(dim) {
        return None;
    }
    match adjacent(dim, vertex, n) {
        Some(cell) => means_of(list, cell),
        None => None,
    }
}

// Changes one slot, where its cell has means in the list.
fn add_slot(store: &mut TreeStore, k: u64, n: u32, dim: Dim, vertex: VertexKey, list: &[Means])
    requires live { store.old.live ≡ true }
    requires place { k < length store.old.lanes.input }
    requires slot { n < 8 }
    requires vertex { IsVertex dim vertex }
    ensures { IsSlotBy (changed_slot dim list.now vertex) k n store.old store.new }
{
    let slot = store.slot_at(k, n);
    match means_at(list, dim, vertex, n) {
        Some(means) => store.set_slot(
            k,
            n,
            Slot {
                next: state_like(slot.next, means.values),
                ..slot
            },
        ),
        None => (),
    }
}

// Changes the record of a vertex: its slots of cells that have means in the list. A record of a level that has none is not
// looked at further.
fn add_record(store: &mut TreeStore, k: u64, dim: Dim, list: &[Means])
    requires live { store.old.live ≡ true }
    requires place { k < length store.old.lanes.input }
    requires vertices { All (λ v. IsVertex dim v.key) store.old.lanes.input }
    ensures { IsPlaceBy dim list.now k store.old store.new }
{
    let vertex = store.key_at(k);
    if lacks_level(list, vertex.level) {
        return;
    }
    for n in 0..8u32 {
        add_slot(store, k, n, dim, vertex, list);
    }
}

// Changes all records; without means none is read.
fn add_all(store: &mut TreeStore, dim: Dim, list: &[Means])
    requires live { store.old.live ≡ true }
    requires vertices { All (λ v. IsVertex dim v.key) store.old.lanes.input }
    ensures { IsStoreBy dim list.now store.old store.new }
{
    if list.is_empty() {
        return;
    }
    for k in 0..store.input_count() {
        add_record(store, k, dim, list);
    }
}

// Adds the means of a shared cell to a list, where the tree owns the cell.
fn note(
    list: &mut Vec<Means>,
    keys: &Keys,
    all: &[Partials],
    tree: u32,
    key: CellKey,
) -> Result<(), AllocError>
    requires tree { tree < (cuts_of keys.now).trees }
    requires cell { IsCell keys.now.dim key }
    requires level { key.level ≤ keys.now.depth }
    requires sums { CanAdd (cuts_of keys.now) all.now tree }
    requires partial { IsSome (partial_of key (partials_in all.now tree)) }
    requires sound { All (IsOwnMeans (cuts_of keys.now) all.now tree) list.old.items }
    ensures sound { OnOk result (All (IsOwnMeans (cuts_of keys.now) all.now tree) list.new.items) }
    ensures kept { OnOk result ((c : CellKey) → IsSome (means_of c list.old.items)
        → IsSome (means_of c list.new.items)) }
    ensures has { OnOk result (Owns (cuts_of keys.now) tree key
        → IsSome (means_of key list.new.items)) }
    ensures memory { ¬ Owns (cuts_of keys.now) tree key → IsOk result }
{
    if !keys.owns(key, tree) {
        return Ok(());
    }
    list.push(means_for(keys, all, key))?;
    Ok(())
}

// The means of the shared cells that a tree owns.
fn own_means(
    alloc: Global,
    keys: &Keys,
    all: &[Partials],
    tree: u32,
) -> Result<Vec<Means>, AllocError>
    requires tree { tree < (cuts_of keys.now).trees }
    requires sums { CanAdd (cuts_of keys.now) all.now tree }
    ensures means { IfOk result (λ list. AreOwnMeans (cuts_of keys.now) all.now tree list.items) }
    ensures memory { ((c : CellKey) → ¬ IsOwnShared (cuts_of keys.now) all.now tree c)
        → IsOk result }
{
    let own = all[tree as usize].as_slice();
    let mut list = Vec::new(alloc);
    for partial in own {
        note(&mut list, keys, all, tree, partial.key)?;
    }
    Ok(list)
}

/// Gives each shared cell that the tree of a store owns the mean of its total over the partials of all trees as its next
/// state, in each slot of the cell. May want memory alone, and takes all of it first.
pub fn add_sums(
    alloc: Global,
    store: &mut TreeStore,
    keys: &Keys,
    all: &[Partials],
) -> Result<(), AllocError>
    requires store { IsTreeOf (cuts_of keys.now) store.old }
    requires sums { CanAdd (cuts_of keys.now) all.now store.old.tree }
    // Every slot of the store afterwards.
    ensures ok { OnOk result (TakesMeans (cuts_of keys.now) all.now store.old store.new) }
    // A refusal changes nothing, and there is none where the tree owns no shared cell.
    ensures err { OnErr result (store.new ≡ store.old) }
    ensures memory { ((c : CellKey) → ¬ IsOwnShared (cuts_of keys.now) all.now store.old.tree c)
        → IsOk result }
    // What a sweep reads stays, so the store is as ready for the next sweep as before.
    ensures lists { (p : SweepPlan) (number : ℕ) → HasLists p number store.old
        → HasLists p number store.new }
    ensures tree { IsTreeOf (cuts_of keys.now) store.new }
{
    let list = own_means(alloc, keys, all, store.tree())?;
    add_all(store, keys.dim(), &list);
    Ok(())
}
