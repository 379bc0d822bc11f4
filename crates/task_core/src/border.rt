//! The leaves of a tree at a border.
ghost use Rattle.std.specs.Prelude.{◌≡◌, ◌<◌, ◌≤◌, ◌↔◌, IsTrue, true, not};
ghost use Rattle.peano_keys.specs.Dim.{corners};
ghost use Rattle.peano_keys.specs.Cell.{IsCell};
ghost use Rattle.peano_keys.specs.Vertex.{IsVertex};
ghost use Rattle.peano_keys.specs.Grid.{has_cell, IsGridCorner};
ghost use Rattle.curve_cuts.specs.Cuts.{IsCutGrid};
ghost use Rattle.curve_cuts.specs.Keys.{cuts_of};
ghost use Rattle.curve_cuts.specs.Enclave.{IsAtBorder, HasBorder};
ghost use Rattle.task_core.specs.Tours.{IsBroken};

use curve_cuts::Keys;
use peano_keys::{CellKey, Dim, VertexKey, adjacent, corner, corner_count};
use spacetree::Grid;

// Whether a cell of the domain is none of the grid.
fn is_missing(grid: &Grid, cell: &CellKey) -> bool
    requires { IsCell grid.now.dim cell.now }
    ensures { result ≡ not (has_cell grid.now cell.now) }
{
    !grid.is_cell(cell)
}

// Whether a position round a vertex shows a border: the grid has no cell there, or a refined one.
fn is_broken(grid: &Grid, vertex: VertexKey, n: u32) -> bool
    requires vertex { IsVertex grid.now.dim vertex }
    requires position { n < corners grid.now.dim }
    ensures { IsTrue result ↔ IsBroken grid.now vertex n }
{
    match adjacent(grid.dim(), vertex, n) {
        Some(cell) => is_missing(grid, &cell) || grid.is_refined(&cell),
        None => false,
    }
}

// Whether a corner of a cell of the grid is at a border.
fn is_at_border(grid: &Grid, keys: &Keys, tree: u32, vertex: VertexKey) -> bool
    requires grid { IsCutGrid (cuts_of keys.now) grid.now }
    requires tree { tree < (cuts_of keys.now).trees }
    requires vertex { IsVertex grid.now.dim vertex }
    requires level { vertex.level ≤ keys.now.depth }
    requires corner { IsGridCorner grid.now vertex }
    ensures { IsTrue result ↔ IsAtBorder (cuts_of keys.now) grid.now tree vertex }
{
    if keys.is_shared(vertex, tree) {
        return true;
    }
    for n in 0..corner_count(grid.dim()) {
        if is_broken(grid, vertex, n) {
            return true;
        }
    }
    false
}

// Whether a corner of a cell of the grid is at a border: a leaf that the tree owns is then skeleton, and else an enclave.
pub(crate) fn has_border(grid: &Grid, keys: &Keys, tree: u32, cell: CellKey) -> bool
    requires grid { IsCutGrid (cuts_of keys.now) grid.now }
    requires tree { tree < (cuts_of keys.now).trees }
    requires cell { IsCell grid.now.dim cell }
    requires level { cell.level ≤ keys.now.depth }
    requires there { has_cell grid.now cell ≡ true }
    ensures { IsTrue result ↔ HasBorder (cuts_of keys.now) grid.now tree cell }
{
    let dim = grid.dim();
    for n in 0..corner_count(dim) {
        if is_at_border(grid, keys, tree, corner(dim, cell, n)) {
            return true;
        }
    }
    false
}
