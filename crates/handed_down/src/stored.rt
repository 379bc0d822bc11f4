//! Which vertices of a cell's children are stored: told once, and read by each child.
ghost use Rattle.std.specs.Prelude.{◌≡◌, ◌↔◌, ℕ, ◌<◌, ◌≤◌, Bool, IsTrue, Option, length};
ghost use Rattle.peano_keys.specs.declared.cell.CellKey.{CellKey};
ghost use Rattle.peano_keys.specs.declared.dim.Dim.{Dim};
ghost use Rattle.peano_keys.specs.Dim.{corners};
ghost use Rattle.peano_keys.specs.Cell.{IsCell, parent_of};
ghost use Rattle.peano_keys.specs.Vertex.{IsVertex, corner_of};
ghost use Rattle.peano_keys.specs.Grid.{Spacetree};
ghost use Rattle.hanging_nodes.specs.Above.{HoldsVertex};
ghost use Rattle.hanging_nodes.specs.Views.{AreGrids, Shows, IsStoredIn};
ghost use Rattle.handed_down.specs.Stored.{count_below, vertex_below, TellsBelow, told_of, TellsAll};

use hanging_nodes::stored_here;
use peano_keys::{CellKey, Dim, VertexKey};
use peano_records::CellView;

/// Which vertices of a cell's children are stored in the old grid and in the new one, by their numbers: axis 0 is fastest,
/// with four on each axis. In a plane the first 16 places are in use.
#[derive(Clone, Copy, Debug)]
pub struct ChildVertices {
    pub old_grid: [bool; 64],
    pub new_grid: [bool; 64],
}

// How many vertices the children of a cell have.
fn count(dim: Dim) -> u32
    ensures value { result ≡ count_below dim }
    ensures most { result ≤ 64 }
{
    match dim {
        Dim::Two => 16,
        Dim::Three => 64,
    }
}

// Vertex number `j` of a cell's children.
#[tactic(auto, using(peano_keys::proofs::Powers::pow3_by_12))]
fn below(dim: Dim, cell: CellKey, j: u32) -> VertexKey
    requires cell { IsCell dim cell }
    requires room { cell.level < 12 }
    requires vertex { j < count_below dim }
    ensures value { result ≡ vertex_below cell j }
    ensures vertex { IsVertex dim result }
    ensures inside { HoldsVertex cell result }
{
    let [x0, x1, x2] = cell.x;
    VertexKey {
        level: cell.level + 1,
        v: [3 * x0 + j % 4, 3 * x1 + j / 4 % 4, 3 * x2 + j / 16],
    }
}

// Whether vertex number `i` is stored, where it is told of those before it: between the planes of the cell one stands for
// two, as the same cells decide on both.
fn is_stored(dim: Dim, parent: &CellView, after: bool, told: &[bool; 64], i: u32) -> bool
    requires cell { IsCell dim parent.now.key }
    requires room { parent.now.key.level < 12 }
    requires vertex { i < count_below dim }
    requires below { i < 64 }
    requires shape { length told.now ≡ 64 }
    ensures { (depth : ℕ) (old : Option Spacetree) (new : Spacetree)
        → AreGrids depth dim old new after → Shows dim old new after parent.now
        → TellsBelow after old new parent.now.key told.now i
        → IsTrue result ↔ IsStoredIn after old new (vertex_below parent.now.key i) }
{
    if i % 4 == 2 {
        return told[i as usize - 1];
    }
    if i / 4 % 4 == 2 {
        return told[i as usize - 4];
    }
    if i / 16 == 2 {
        return told[i as usize - 16];
    }
    stored_here(dim, parent, &below(dim, parent.key, i), after)
}

/// Of each vertex of a cell's children, by its number, whether it is stored in the old grid, or with `after` in the new
/// one, where the cell's view shows both.
pub fn stored_below(dim: Dim, parent: &CellView, after: bool) -> [bool; 64]
    requires cell { IsCell dim parent.now.key }
    requires room { parent.now.key.level < 12 }
    ensures shape { length result ≡ 64 }
    ensures told { (depth : ℕ) (old : Option Spacetree) (new : Spacetree)
        → AreGrids depth dim old new after → Shows dim old new after parent.now
        → TellsBelow after old new parent.now.key result (count_below dim) }
{
    let mut told = [false; 64];
    for i in 0..count(dim) {
        let stored = is_stored(dim, parent, after, &told, i);
        told[i as usize] = stored;
    }
    told
}

// The number of corner `n` of a cell among the vertices of its parent's children.
fn number(dim: Dim, cell: CellKey, n: u32) -> u32
    requires cell { IsCell dim cell }
    requires below_root { 1 ≤ cell.level }
    requires corner { n < corners dim }
    ensures below { result < count_below dim }
    ensures place { result < 64 }
    ensures vertex { vertex_below (parent_of cell) result ≡ corner_of cell n }
{
    let first = cell.x[0] % 3 + n % 2;
    let second = cell.x[1] % 3 + n / 2 % 2;
    let third = cell.x[2] % 3 + n / 4;
    first + 4 * second + 16 * third
}

/// Whether corner `n` of a cell is stored in the old grid, or with `after` in the new one, by what was told of its parent.
pub fn is_corner_stored(dim: Dim, told: &ChildVertices, after: bool, cell: CellKey, n: u32) -> bool
    requires cell { IsCell dim cell }
    requires below_root { 1 ≤ cell.level }
    requires corner { n < corners dim }
    requires shape { length (told_of told.now after) ≡ 64 }
    ensures { (old : Option Spacetree) (new : Spacetree)
        → TellsAll dim after old new (parent_of cell) told.now
        → IsTrue result ↔ IsStoredIn after old new (corner_of cell n) }
{
    let place = number(dim, cell, n) as usize;
    if after {
        told.new_grid[place]
    } else {
        told.old_grid[place]
    }
}
