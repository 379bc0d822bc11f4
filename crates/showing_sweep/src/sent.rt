//! To how many other trees the vertices of a store belong too.
ghost use Rattle.std.specs.Prelude.{◌≡◌, ◌<◌, ◌≤◌, ◌↔◌, IsTrue, true, All, map};
ghost use Rattle.peano_keys.specs.Dim.{corners};
ghost use Rattle.peano_keys.specs.Vertex.{IsVertex};
ghost use Rattle.curve_cuts.specs.Cuts.{HasCorner};
ghost use Rattle.curve_cuts.specs.Keys.{cuts_of};
ghost use Rattle.tree_automaton.specs.Sweeps.{key_of};
ghost use Rattle.showing_sweep.specs.Counts.{NoneTwice, AreSoMany, Counts};
ghost use Rattle.showing_sweep.specs.Sent.{HoldsRound, IsOther, IsPairOf, IsVertexOf};

use curve_cuts::Keys;
use peano_keys::{Dim, VertexKey, adjacent};
use tree_automaton::TreeStore;

// How many positions a vertex has.
fn positions(dim: Dim) -> u32
    ensures { result ≡ corners dim }
{
    match dim {
        Dim::Two => 4,
        Dim::Three => 8,
    }
}

// Whether a tree holds the cell at a position of a vertex.
fn holds_round(keys: &Keys, tree: u32, vertex: VertexKey, n: u32) -> bool
    requires vertex { IsVertexOf (cuts_of keys.now) vertex }
    requires position { n < corners keys.now.dim }
    requires tree { tree < (cuts_of keys.now).trees }
    ensures { IsTrue result ↔ HoldsRound (cuts_of keys.now) tree vertex n }
{
    match adjacent(keys.dim(), vertex, n) {
        Some(cell) => keys.held(cell, tree),
        None => false,
    }
}

// Whether a tree holds a position of a vertex.
fn has_corner(keys: &Keys, tree: u32, vertex: VertexKey) -> bool
    requires vertex { IsVertexOf (cuts_of keys.now) vertex }
    requires tree { tree < (cuts_of keys.now).trees }
    ensures { IsTrue result ↔ HasCorner (cuts_of keys.now) tree vertex }
{
    for n in 0..positions(keys.dim()) {
        if holds_round(keys, tree, vertex, n) {
            return true;
        }
    }
    false
}

// Whether another tree holds a position of a vertex.
fn is_other(keys: &Keys, tree: u32, vertex: VertexKey, other: u32) -> bool
    requires vertex { IsVertexOf (cuts_of keys.now) vertex }
    requires other { other < (cuts_of keys.now).trees }
    ensures { IsTrue result ↔ IsOther (cuts_of keys.now) tree vertex other }
{
    other != tree && has_corner(keys, other, vertex)
}

// How many other trees hold a position of a vertex.
fn others(keys: &Keys, tree: u32, vertex: VertexKey) -> u64
    requires vertex { IsVertexOf (cuts_of keys.now) vertex }
    requires tree { tree < (cuts_of keys.now).trees }
    ensures { AreSoMany (IsOther (cuts_of keys.now) tree vertex) result }
{
    if !keys.is_shared(vertex, tree) {
        return 0;
    }
    let mut count = 0;
    for other in 0..keys.trees() {
        if is_other(keys, tree, vertex, other) {
            count += 1;
        }
    }
    count
}

// How many pairs there are of a vertex that lies in a store and another tree that holds a position of it.
pub(crate) fn sent_from(store: &TreeStore, keys: &Keys) -> u64
    requires live { store.now.live ≡ true }
    requires tree { store.now.tree < (cuts_of keys.now).trees }
    requires vertices { All (λ s. IsVertexOf (cuts_of keys.now) s.key) store.now.lanes.input }
    ensures { NoneTwice (map key_of store.now.lanes.input)
        → Counts
        (IsPairOf (cuts_of keys.now) store.now.tree (map key_of store.now.lanes.input)) result }
{
    let tree = store.tree();
    let mut sent: u64 = 0;
    for k in 0..store.input_count() {
        sent = sent.saturating_add(others(keys, tree, store.key_at(k)));
    }
    sent
}
