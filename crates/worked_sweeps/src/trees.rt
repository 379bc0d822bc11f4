//! Trees over small grids: their keys, their raised stores, and what their slots say.
ghost use Rattle.std.specs.Prelude.{◌≡◌, ◌<◌, IfOk};
ghost use Rattle.peano_keys.specs.Grid.{IsGrid};
ghost use Rattle.spacetree.specs.Fields.{IsFieldOn};
ghost use Rattle.curve_cuts.specs.Cuts.{IsCutGrid, range_of};
ghost use Rattle.curve_cuts.specs.Keys.{cuts_of};
ghost use Rattle.tree_automaton.specs.AtRest.{StandsFor};
ghost use Rattle.worked_sweeps.specs.Trees.{IsTreeOver};

use crate::grids::leaves_of;
use adapt_sweep::raise_tree;
use curve_cuts::{Keys, is_tiling};
use peano_keys::{CellKey, Dim, VertexKey, adjacent, is_cell, is_vertex};
use peano_records::{Slot, Status};
use spacetree::{Field, Grid};
use std::alloc::{AllocError, Global};
use std::process::Abort;
use tree_automaton::TreeStore;
use vertex_stacks::{SweepNote, Tale};

// The keys of so many trees, with equal shares of some leaves.
fn keys_over(
    rt: &impl Abort,
    alloc: Global,
    dim: Dim,
    leaves: &[CellKey],
    trees: u32,
) -> Result<Keys, AllocError> {
    assert!(rt; 1 <= trees && trees <= 64);
    if is_tiling(dim, 2, leaves) {
        Keys::equal(alloc, dim, 2, leaves, trees)
    } else {
        panic!(rt; "these leaves leave gaps")
    }
}

// The keys of so many trees over a grid.
pub(crate) fn keys_of(
    rt: &impl Abort,
    alloc: Global,
    grid: &Grid,
    trees: u32,
) -> Result<Keys, AllocError> {
    let leaves = leaves_of(rt, alloc, grid)?;
    keys_over(rt, alloc, grid.dim(), &leaves, trees)
}

// Keys are for a grid.
pub(crate) fn expect_cut(rt: &impl Abort, grid: &Grid, keys: &Keys)
    requires { IsGrid 2 grid.now }
    ensures cut { IsCutGrid (cuts_of keys.now) grid.now }
    ensures depth { keys.now.depth ≡ 2 }
{
    assert!(rt; keys.depth() == 2);
    assert!(rt; keys.dim() == grid.dim());
    assert!(rt; keys.trees() >= 1);
}

// A store that was refused memory in a sweep is not live, and its tale is as before.
pub(crate) fn expect_refused(rt: &impl Abort, store: &TreeStore, before: &Tale) {
    assert!(rt; !store.is_live());
    assert_eq!(rt; store.tale(), *before);
}

// Raises one of the trees.
pub(crate) fn raise(
    rt: &impl Abort,
    alloc: Global,
    grid: &Grid,
    field: &Field,
    keys: &Keys,
    tree: u32,
) -> Result<(TreeStore, SweepNote), AllocError>
    requires grid { IsGrid 2 grid.now }
    requires field { IsFieldOn 1 grid.now field.now }
    ensures over { IfOk result (λ raised. IsTreeOver (cuts_of keys.now) grid.now raised.0) }
    ensures alone { IfOk result
        (λ raised. (cuts_of keys.now).trees ≡ 1
        → StandsFor 2
        (range_of (cuts_of keys.now) tree) tree raised.0.dir grid.now field.now raised.0) }
{
    expect_cut(rt, grid, keys);
    expect_tree(rt, keys, tree);
    let mut store = TreeStore::new(alloc, grid.dim(), 2, keys.range(tree), tree);
    let before = store.tale();
    match raise_tree(&mut store, grid, field, keys, 0) {
        Ok(note) => Ok((store, note)),
        Err(refused) => {
            expect_refused(rt, &store, &before);
            Err(refused)
        }
    }
}

// What a store and the note of its last sweep count: what was taken, put and pushed; the leaves that the tree owns, the
// cells that it holds and the vertices that it has.
pub(crate) fn counts(store: &TreeStore, note: &SweepNote) -> [u64; 6] {
    [
        note.taken(),
        note.put(),
        note.pushed(),
        store.owned_leaves(),
        store.cell_count(),
        store.stored_count(),
    ]
}

// The cell whose slot a vertex has, none outside the domain.
fn cell_at(rt: &impl Abort, dim: Dim, vertex: VertexKey, n: u32) -> Option<CellKey> {
    assert!(rt; is_vertex(dim, &vertex));
    let count = match dim {
        Dim::Two => 4,
        Dim::Three => 8,
    };
    if n >= count {
        return None;
    }
    adjacent(dim, vertex, n)
}

// Whether a tree owns a cell.
fn is_own(rt: &impl Abort, keys: &Keys, cell: CellKey, tree: u32) -> bool {
    assert!(rt; is_cell(keys.dim(), &cell));
    assert!(rt; cell.level <= keys.depth());
    assert!(rt; tree < keys.trees());
    keys.owns(cell, tree)
}

// Whether a slot has the status of a cell of a grid, and where that is a leaf its value.
fn says(grid: &Grid, field: &Field, cell: CellKey, slot: Slot) -> bool {
    match field.get(&cell) {
        Some(value) => slot.status == Status::Leaf && slot.value == value,
        None => slot.status == Status::Refined && grid.is_refined(&cell),
    }
}

// Whether a slot of a vertex is wrong: its cell is none of the grid, or it is the tree's own and the slot says other than
// it should.
fn is_wrong(
    rt: &impl Abort,
    store: &TreeStore,
    keys: &Keys,
    grid: &Grid,
    field: &Field,
    k: u64,
    n: u32,
) -> bool {
    assert!(rt; store.is_live());
    assert!(rt; k < store.input_count());
    assert!(rt; n < 8);
    match cell_at(rt, grid.dim(), store.key_at(k), n) {
        Some(cell) => {
            !grid.is_cell(&cell)
                || is_own(rt, keys, cell, store.tree())
                    && !says(grid, field, cell, store.slot_at(k, n))
        }
        None => false,
    }
}

// How many slots of a store are wrong.
pub(crate) fn wrong_slots(
    rt: &impl Abort,
    store: &TreeStore,
    keys: &Keys,
    grid: &Grid,
    field: &Field,
) -> u64 {
    let mut count: u64 = 0;
    for k in 0..store.input_count() {
        for n in 0..8 {
            if is_wrong(rt, store, keys, grid, field, k, n) {
                count = count.saturating_add(1);
            }
        }
    }
    count
}

// One of the trees has this number.
fn expect_tree(rt: &impl Abort, keys: &Keys, tree: u32)
    ensures { tree < (cuts_of keys.now).trees }
{
    assert!(rt; tree < keys.trees());
}
