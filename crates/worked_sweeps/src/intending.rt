//! Writes into the slots of a tree what the exchanges before an adaptation bring: each cell's status in the grid, and the
//! intent by which the next grid is made.
ghost use Rattle.std.specs.Prelude.{◌≡◌, ◌<◌, ℕ, IsTrue, All, length, true};
ghost use Rattle.peano_keys.specs.Dim.{corners};
ghost use Rattle.curve_cuts.specs.Keys.{cuts_of};
ghost use Rattle.peano_records.specs.declared.stored.Stored.{Stored};
ghost use Rattle.peano_records.specs.AtRest.{HoldsIntent, IsBeforeAdapting, intent_between, status_of};
ghost use Rattle.sweep_visits.specs.Plan.{SweepPlan};
ghost use Rattle.tree_automaton.specs.AtRest.{HasLists};
ghost use Rattle.worked_sweeps.specs.Trees.{IsTreeBefore, IsTreeOver};
ghost use Rattle.worked_sweeps.specs.Told.{IsPositionTold, IsTold, vertex_at};

use curve_cuts::Keys;
use peano_keys::{CellKey, Dim, VertexKey, adjacent, is_vertex};
use peano_records::{Intent, Slot, Status};
use spacetree::Grid;
use std::process::Abort;
use tree_automaton::TreeStore;

// The status of a cell.
fn status(refined: bool) -> Status
    ensures { result ≡ status_of refined }
{
    if refined {
        Status::Refined
    } else {
        Status::Leaf
    }
}

// The intent of a cell, by whether it is refined in a grid and in the next one.
fn intent(refined: bool, next: bool) -> Intent
    ensures { result ≡ intent_between refined next }
{
    match (refined, next) {
        (false, true) => Intent::Split,
        (true, false) => Intent::Merge,
        (true, true) | (false, false) => Intent::Stay,
    }
}

// Whether a status is this one.
fn is_status(found: Status, want: Status) -> bool
    ensures { IsTrue result → found ≡ want }
{
    found == want
}

// Whether an intent is this one.
fn is_intent(found: Intent, want: Intent) -> bool
    ensures { IsTrue result → found ≡ want }
{
    found == want
}

// How many positions a vertex has.
fn position_count(dim: Dim) -> u32
    ensures { result ≡ corners dim }
{
    match dim {
        Dim::Two => 4,
        Dim::Three => 8,
    }
}

// A slot of a vertex with its cell's status and intent.
fn told(rt: &impl Abort, grid: &Grid, next: &Grid, vertex: VertexKey, n: u32, slot: Slot) -> Slot {
    let dim = grid.dim();
    if n >= position_count(dim) {
        return slot;
    }
    assert!(rt; is_vertex(dim, &vertex));
    match adjacent(dim, vertex, n) {
        Some(cell) => {
            let refined = grid.is_refined(&cell);
            Slot {
                status: status(refined),
                intent: intent(refined, next.is_refined(&cell)),
                ..slot
            }
        }
        None => slot,
    }
}

// Whether a slot tells the grid and intends the next one of its cell.
fn is_cell_told(grid: &Grid, next: &Grid, cell: CellKey, slot: Slot) -> bool
    ensures { IsTrue result → HoldsIntent grid.now next.now cell slot }
{
    let refined = grid.is_refined(&cell);
    if !is_status(slot.status, status(refined)) {
        return false;
    }
    is_intent(slot.intent, intent(refined, next.is_refined(&cell)))
}

// Whether a slot of a position says what it should, where its cell is none outside the domain.
fn is_position_told(grid: &Grid, next: &Grid, position: Option<CellKey>, slot: Slot) -> bool
    ensures { IsTrue result → IsPositionTold grid.now next.now position slot }
{
    match position {
        Some(cell) => is_cell_told(grid, next, cell, slot),
        None => {
            if !is_status(slot.status, Status::Outside) {
                return false;
            }
            is_intent(slot.intent, Intent::Stay)
        }
    }
}

// Whether slot number `n` of a vertex does.
fn is_told(grid: &Grid, next: &Grid, vertex: VertexKey, n: u32, slot: Slot) -> bool
    ensures { IsTrue result → IsTold grid.now next.now vertex n slot }
{
    let dim = grid.dim();
    if n >= position_count(dim) {
        return is_intent(slot.intent, Intent::Stay);
    }
    if !is_vertex(dim, &vertex) {
        return false;
    }
    is_position_told(grid, next, adjacent(dim, vertex, n), slot)
}

// Whether all slots of a vertex do.
fn is_before(store: &TreeStore, grid: &Grid, next: &Grid, k: u64) -> bool
    requires live { store.now.live ≡ true }
    requires place { k < length store.now.lanes.input }
    ensures { IsTrue result → (d : Stored)
        → IsBeforeAdapting grid.now next.now (vertex_at store.now k d) }
{
    let vertex = store.key_at(k);
    for n in 0..8 {
        if !is_told(grid, next, vertex, n, store.slot_at(k, n)) {
            return false;
        }
    }
    true
}

// Whether all vertices of a store do.
fn are_before(store: &TreeStore, grid: &Grid, next: &Grid) -> bool
    requires { store.now.live ≡ true }
    ensures { IsTrue result → All (IsBeforeAdapting grid.now next.now) store.now.lanes.input }
{
    for k in 0..store.input_count() {
        if !is_before(store, grid, next, k) {
            return false;
        }
    }
    true
}

// Writes one slot.
fn write_slot(rt: &impl Abort, store: &mut TreeStore, grid: &Grid, next: &Grid, k: u64, n: u32)
    ensures { (p : SweepPlan) (number : ℕ) → HasLists p number store.old
        → HasLists p number store.new }
{
    assert!(rt; store.is_live());
    assert!(rt; k < store.input_count());
    assert!(rt; n < 8);
    let slot = told(rt, grid, next, store.key_at(k), n, store.slot_at(k, n));
    store.set_slot(k, n, slot);
}

// Writes the slots of a vertex.
fn write_vertex(rt: &impl Abort, store: &mut TreeStore, grid: &Grid, next: &Grid, k: u64)
    ensures { (p : SweepPlan) (number : ℕ) → HasLists p number store.old
        → HasLists p number store.new }
{
    for n in 0..8 {
        write_slot(rt, store, grid, next, k, n);
    }
}

// Writes the slots of all vertices.
fn write_all(rt: &impl Abort, store: &mut TreeStore, grid: &Grid, next: &Grid)
    ensures { (p : SweepPlan) (number : ℕ) → HasLists p number store.old
        → HasLists p number store.new }
{
    for k in 0..store.input_count() {
        write_vertex(rt, store, grid, next, k);
    }
}

// Makes a tree ready to be adapted.
pub(crate) fn intend(rt: &impl Abort, store: &mut TreeStore, keys: &Keys, grid: &Grid, next: &Grid)
    requires { IsTreeOver (cuts_of keys.now) grid.now store.old }
    ensures { IsTreeBefore (cuts_of keys.now) grid.now next.now store.new }
{
    write_all(rt, store, grid, next);
    assert!(rt; store.is_live());
    assert!(rt; are_before(store, grid, next));
}
