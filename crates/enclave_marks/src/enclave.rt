//! The test of an owned leaf, corner by corner.
ghost use Rattle.std.specs.Prelude.{◌≡◌, ◌<◌, ◌≤◌, ◌↔◌, ℕ, IsTrue, IsFalse, false, Some};
ghost use Rattle.peano_keys.specs.Dim.{corners};
ghost use Rattle.peano_keys.specs.Cell.{IsCell};
ghost use Rattle.peano_keys.specs.Vertex.{IsVertex, corner_of};
ghost use Rattle.peano_keys.specs.Grid.{Spacetree};
ghost use Rattle.peano_records.specs.Tells.{corner_at};
ghost use Rattle.hanging_nodes.specs.Views.{Shows};
ghost use Rattle.curve_cuts.specs.Cuts.{IsShared};
ghost use Rattle.curve_cuts.specs.Keys.{cuts_of};
ghost use Rattle.curve_cuts.specs.Enclave.{OwnsLeaf, IsEnclave, IsSkeleton};
ghost use Rattle.enclave_marks.specs.Corners.{TellsRefined, ShowsBorder};

use curve_cuts::Keys;
use peano_keys::{Dim, VertexKey, adjacent, corner, corner_count};
use peano_records::{CellView, Corner, Stored};

// Corner number `n` of a view.
fn corner_in(view: &CellView, n: u32) -> &Corner
    requires { n < 8 }
    ensures { result.now ≡ corner_at view.now n }
{
    &view.corners[n as usize]
}

// Whether a record tells of a refined cell at position `k` of its vertex.
fn is_refined_at(dim: Dim, vertex: VertexKey, stored: &Stored, k: u32) -> bool
    requires vertex { IsVertex dim vertex }
    requires position { k < corners dim }
    ensures { IsTrue result ↔ TellsRefined dim vertex stored.now k }
{
    stored.tells(k, false) && adjacent(dim, vertex, k).is_some()
}

// Whether a record tells of a refined cell round its vertex.
fn has_refined(dim: Dim, vertex: VertexKey, stored: &Stored) -> bool
    requires { IsVertex dim vertex }
    ensures { IsTrue result ↔ ((k : ℕ) × (k < corners dim) × TellsRefined dim vertex stored.now k) }
{
    for k in 0..corner_count(dim) {
        if is_refined_at(dim, vertex, stored, k) {
            return true;
        }
    }
    false
}

// Whether a corner shows a border: it hangs, another tree holds a position round it, or a refined cell is beside it. Where
// the corner is known to be the tree's alone, it is not asked for.
fn shows_border(keys: &Keys, tree: u32, vertex: VertexKey, corner: &Corner, alone: bool) -> bool
    requires alone { IsTrue alone → ¬ IsShared (cuts_of keys.now) tree vertex }
    requires vertex { IsVertex keys.now.dim vertex }
    requires level { vertex.level ≤ keys.now.depth }
    requires tree { tree < (cuts_of keys.now).trees }
    ensures { IsTrue result ↔ ShowsBorder (cuts_of keys.now) tree vertex corner.now }
{
    match corner {
        Corner::Vertex(stored) => {
            (!alone && keys.is_shared(vertex, tree)) || has_refined(keys.dim(), vertex, stored)
        }
        _ => true,
    }
}

/// Whether a leaf that the tree owns is an enclave: none of its corners hangs, no other tree holds a position round one
/// of them, and no refined cell of the leaf's level is beside one. Else it is a skeleton leaf.
pub fn is_enclave(view: &CellView, keys: &Keys, tree: u32) -> bool
    requires cell { IsCell keys.now.dim view.now.key }
    requires level { view.now.key.level ≤ keys.now.depth }
    requires tree { tree < (cuts_of keys.now).trees }
    ensures enclave { (g : Spacetree) → g.dim ≡ keys.now.dim
        → Shows keys.now.dim (Some g) g false view.now
        → OwnsLeaf (cuts_of keys.now) g tree view.now.key
        → IsTrue result ↔ IsEnclave (cuts_of keys.now) g tree view.now.key }
    ensures skeleton { (g : Spacetree) → g.dim ≡ keys.now.dim
        → Shows keys.now.dim (Some g) g false view.now
        → OwnsLeaf (cuts_of keys.now) g tree view.now.key
        → IsFalse result ↔ IsSkeleton (cuts_of keys.now) g tree view.now.key }
{
    let dim = keys.dim();
    let alone = keys.has_round(view.key, tree);
    for n in 0..corner_count(dim) {
        if shows_border(
            keys,
            tree,
            corner(dim, view.key, n),
            corner_in(view, n),
            alone,
        ) {
            return false;
        }
    }
    true
}
