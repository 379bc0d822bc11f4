//! Storedness from above.
ghost use Rattle.std.specs.Prelude.{◌≡◌, ◌<◌, ◌≤◌, ◌+◌, ◌↔◌, ℕ, IsTrue, Option, IfSome, true};
ghost use Rattle.peano_keys.specs.Dim.{corners};
ghost use Rattle.peano_keys.specs.Cell.{IsCell};
ghost use Rattle.peano_keys.specs.Vertex.{IsVertex, corner_of, adjacent_of, number_of};
ghost use Rattle.peano_keys.specs.Grid.{Spacetree};
ghost use Rattle.peano_records.specs.Slots.{slot_at};
ghost use Rattle.peano_records.specs.Tells.{slot_tells};
ghost use Rattle.hanging_nodes.specs.Above.{HoldsVertex, plane_above, corner_above, IsDecider, AllAllow};
ghost use Rattle.hanging_nodes.specs.Views.{AreGrids, Shows, IsStoredIn};

use crate::corner_in::corner_in;
use peano_keys::{CellKey, Dim, VertexKey, adjacent, corner, corner_count};
use peano_records::{CellView, Corner, Stored};

// The bit of the corner that decides, on one axis.
fn bit_above(x: u32, v: u32) -> u32
    requires { x < 600000 }
    ensures value { x + result ≡ plane_above x v }
    ensures bit { result ≤ 1 }
{
    if v == 3 * x {
        0
    } else if v == 3 * x + 3 || x % 3 == 0 {
        1
    } else {
        0
    }
}

// A corner's number by its bits.
fn number(dim: Dim, first: u32, second: u32, third: u32) -> u32
    requires first { first ≤ 1 }
    requires second { second ≤ 1 }
    requires third { third ≤ 1 }
    ensures value { result ≡ number_of dim first second third }
    ensures corner { result < corners dim }
{
    match dim {
        Dim::Two => first + 2 * second,
        Dim::Three => first + 2 * second + 4 * third,
    }
}

// The number of the corner that decides.
#[tactic(auto, using(peano_keys::proofs::Powers::pow3_by_12))]
fn number_above(dim: Dim, cell: CellKey, fine: &VertexKey) -> u32
    requires cell { IsCell dim cell }
    requires vertex { IsVertex dim fine.now }
    ensures number { result < corners dim }
    ensures corner { corner_of cell result ≡ corner_above cell fine.now }
{
    number(
        dim,
        bit_above(cell.x[0], fine.v[0]),
        bit_above(cell.x[1], fine.v[1]),
        bit_above(cell.x[2], fine.v[2]),
    )
}

// Whether the closed region of a cell holds a vertex of the next level.
#[tactic(auto, using(peano_keys::proofs::Powers::pow3_by_12))]
pub(crate) fn holds_vertex(dim: Dim, cell: CellKey, fine: &VertexKey) -> bool
    requires cell { IsCell dim cell }
    requires level { fine.now.level ≡ cell.level + 1 }
    ensures { IsTrue result ↔ HoldsVertex cell fine.now }
{
    3 * cell.x[0] <= fine.v[0]
        && fine.v[0] <= 3 * cell.x[0] + 3
        && 3 * cell.x[1] <= fine.v[1]
        && fine.v[1] <= 3 * cell.x[1] + 3
        && 3 * cell.x[2] <= fine.v[2]
        && fine.v[2] <= 3 * cell.x[2] + 3
}

// What is asked about: a vertex of a cell's children, and one of the two grids.
#[derive(Clone, Copy)]
struct Question {
    dim: Dim,
    cell: CellKey,
    fine: VertexKey,
    after: bool,
}

// Whether position `k` of the corner above allows that the vertex is stored: no cell that decides stands there, or one
// that is refined.
fn allows(question: Question, above: VertexKey, stored: &Stored, k: u32) -> bool
    requires cell { IsCell question.dim question.cell }
    requires above { above ≡ corner_above question.cell question.fine }
    requires vertex { IsVertex question.dim above }
    requires level { question.fine.level ≡ question.cell.level + 1 }
    requires position { k < corners question.dim }
    ensures { IsTrue result
        ↔ IfSome (adjacent_of question.dim (corner_above question.cell question.fine) k)
        (λ q. IsDecider question.dim question.cell question.fine q
        → slot_tells question.after (slot_at stored.now k) ≡ true) }
{
    if stored.tells(k, question.after) {
        return true;
    }
    match adjacent(question.dim, above, k) {
        None => true,
        Some(other) => !holds_vertex(question.dim, other, &question.fine),
    }
}

// Whether each position of the corner above allows it.
fn all_allow(question: Question, above: VertexKey, stored: &Stored) -> bool
    requires cell { IsCell question.dim question.cell }
    requires above { above ≡ corner_above question.cell question.fine }
    requires vertex { IsVertex question.dim above }
    requires level { question.fine.level ≡ question.cell.level + 1 }
    ensures { IsTrue result
        ↔ AllAllow question.dim question.cell question.fine stored.now question.after
        (corners question.dim) }
{
    for k in 0..corner_count(question.dim) {
        if !allows(question, above, stored, k) {
            return false;
        }
    }
    true
}

/// Whether a vertex of the children of a cell is stored in the old grid, or with `after` in the new one. The cell's
/// view shows both grids by the records at its corners; where there is no old grid, only the new one may be asked.
pub fn stored_here(dim: Dim, parent: &CellView, fine: &VertexKey, after: bool) -> bool
    requires cell { IsCell dim parent.now.key }
    requires vertex { IsVertex dim fine.now }
    requires inside { HoldsVertex parent.now.key fine.now }
    ensures { (depth : ℕ) (old : Option Spacetree) (new : Spacetree)
        → AreGrids depth dim old new after → Shows dim old new after parent.now
        → IsTrue result ↔ IsStoredIn after old new fine.now }
{
    let n = number_above(dim, parent.key, fine);
    let above = corner(dim, parent.key, n);
    let question = Question {
        dim,
        cell: parent.key,
        fine: *fine,
        after,
    };
    match corner_in(&parent.corners, n) {
        Corner::Vertex(stored) => all_allow(question, above, stored),
        _ => false,
    }
}
