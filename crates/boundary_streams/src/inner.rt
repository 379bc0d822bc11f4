//! Whether another tree has a vertex, with a quick test for most vertices that no other tree has: they lie inside a coarser
//! cell that is whole in the tree's range.
ghost use Rattle.std.specs.Prelude.{◌<◌, ◌≤◌, ◌↔◌, IsTrue, IfSome};
ghost use Rattle.peano_keys.specs.Cell.{IsCell};
ghost use Rattle.peano_keys.specs.Vertex.{IsVertex};
ghost use Rattle.curve_cuts.specs.Cuts.{AreCuts, IsShared};
ghost use Rattle.curve_cuts.specs.Round.{Surrounds};
ghost use Rattle.curve_cuts.specs.Keys.{cuts_of};
ghost use Rattle.boundary_streams.specs.Trees.{IsKeyOf};
ghost use Rattle.boundary_streams.specs.Sendings.{IsThirdInside, IsInside};

use curve_cuts::Keys;
use peano_keys::{CellKey, Dim, VertexKey};

// Whether the third coordinate of a vertex is no border of cells two levels above; a plane has no such borders.
fn is_third_inside(dim: Dim, third: u32) -> bool
    ensures { IsTrue result → IsThirdInside dim third }
{
    match dim {
        Dim::Two => true,
        Dim::Three => third % 9 != 0,
    }
}

// Whether a vertex lies inside a cell two levels above.
fn is_inside(dim: Dim, vertex: VertexKey) -> bool
    ensures { IsTrue result → IsInside dim vertex }
{
    vertex.level >= 2
        && vertex.v[0] % 9 != 0
        && vertex.v[1] % 9 != 0
        && is_third_inside(dim, vertex.v[2])
}

// The cell two levels above a vertex inside which the vertex lies, none where such cells meet at it.
fn cell_inside(dim: Dim, vertex: VertexKey) -> Option<CellKey>
    requires { IsVertex dim vertex }
    ensures cell { IfSome result (λ c. IsCell dim c) }
    ensures level { IfSome result (λ c. c.level ≤ vertex.level) }
    ensures round { IfSome result (λ c. Surrounds dim c vertex) }
{
    if !is_inside(dim, vertex) {
        return None;
    }
    Some(CellKey {
        level: vertex.level - 2,
        x: [vertex.v[0] / 9, vertex.v[1] / 9, vertex.v[2] / 9],
    })
}

// Whether a cell that holds all cells round a vertex is whole in a tree's range. Then no other tree has the vertex. It
// asks for one interval, and says no of some vertices that no other tree has.
fn is_inner(keys: &Keys, vertex: VertexKey, tree: u32) -> bool
    requires key { IsKeyOf (cuts_of keys.now) vertex }
    requires tree { tree < (cuts_of keys.now).trees }
    requires cuts { AreCuts (cuts_of keys.now) }
    ensures { IsTrue result → ¬ IsShared (cuts_of keys.now) tree vertex }
{
    match cell_inside(keys.dim(), vertex) {
        Some(cell) => keys.is_whole(cell, tree),
        None => false,
    }
}

/// Whether another tree has a vertex.
pub(crate) fn is_shared(keys: &Keys, vertex: VertexKey, tree: u32) -> bool
    requires key { IsKeyOf (cuts_of keys.now) vertex }
    requires tree { tree < (cuts_of keys.now).trees }
    ensures { IsTrue result ↔ IsShared (cuts_of keys.now) tree vertex }
{
    if keys.trees() == 1 {
        return false;
    }
    if is_inner(keys, vertex, tree) {
        return false;
    }
    keys.is_shared(vertex, tree)
}
