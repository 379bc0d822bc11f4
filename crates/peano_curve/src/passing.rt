//! The next cell round a vertex, found from parities: the finest axis on which the curve still turns to it.
ghost use Rattle.std.specs.Prelude.{◌≡◌, ℕ, ◌+◌, ◌<◌, ◌≤◌, ◌↔◌, IsTrue, IfSome, MatchOption, slice_set};
ghost use Rattle.peano_keys.specs.Dim.{axes, third_extent};
ghost use Rattle.peano_keys.specs.Cell.{IsCell, at};
ghost use Rattle.peano_keys.specs.Vertex.{IsVertex, Touches};
ghost use Rattle.peano_curve.specs.Order.{rank_from};
ghost use Rattle.peano_curve.specs.Run.{Later, DifferOn};
ghost use Rattle.peano_curve.specs.Passing.{Among, IsBeside, AreBeside, TurnsOn, Crosses, NoneLaterRound, NextRound, SpanRound};

use crate::order::{Direction, turn};
use peano_keys::{CellKey, Dim, VertexKey, extent, parent};

fn is_later(dir: Direction, from: u32, to: u32) -> bool
    ensures { IsTrue result ↔ Later dir from to }
{
    match dir {
        Direction::Forward => from < to,
        Direction::Backward => to < from,
    }
}

// Whether, inside one parent, the curve comes to coordinate `to` after `from`, where the other coordinates have this sum.
fn crosses(dir: Direction, sum: u32, from: u32, to: u32) -> bool
    ensures { IsTrue result ↔ Crosses dir sum from to }
{
    from / 3 == to / 3 && is_later(dir, turn(sum, from % 3), turn(sum, to % 3))
}

// Of the cells whose coordinates are those of `cell` or of `other`, the axis on which the next after `cell` lies.
#[tactic(auto, using(peano_keys::proofs::Powers::pow3_by_12))]
fn passing_axis(dim: Dim, cell: CellKey, other: CellKey, dir: Direction) -> Option<u32>
    requires cell { IsCell dim cell }
    requires other { IsCell dim other }
    requires beside { AreBeside cell other }
    ensures turn { TurnsOn dir (rank_from dim cell.level) (at cell 0) (at cell 1) (at cell 2)
        (at other 0) (at other 1) (at other 2) result }
    ensures axis { IfSome result (λ i. i < axes dim) }
{
    if cell.level == 0 {
        return None;
    }
    let [x0, x1, x2] = cell.x;
    if crosses(dir, x0 + x1, x2, other.x[2]) {
        return Some(2);
    }
    if crosses(dir, x0 + x2 / 3, x1, other.x[1]) {
        return Some(1);
    }
    if crosses(dir, x1 / 3 + x2 / 3, x0, other.x[0]) {
        return Some(0);
    }
    passing_axis(dim, parent(cell), parent(other), dir)
}

// The coordinate on the other side of a plane, or the same one where that is outside.
fn across(plane: u32, x: u32, end: u32) -> u32
    requires inside { x < end }
    requires low { x ≤ plane }
    requires high { plane ≤ x + 1 }
    ensures beside { IsBeside x result }
    ensures inside { result < end }
    ensures low { result ≤ plane }
    ensures high { plane ≤ result + 1 }
    ensures both { (q : ℕ) → q < end → q ≤ plane → plane ≤ q + 1 → Among x result q }
{
    if x == plane {
        x.saturating_sub(1)
    } else {
        plane.min(end - 1)
    }
}

// How many coordinates axis 2 has where the others have `end`.
fn third_end(dim: Dim, end: u32) -> u32
    ensures { result ≡ third_extent dim end }
{
    match dim {
        Dim::Two => 1,
        Dim::Three => end,
    }
}

// The cell round the vertex on the other side of each plane, where that is inside.
#[tactic(auto, using(peano_keys::proofs::Powers::pow3_by_12))]
fn opposite(dim: Dim, vertex: VertexKey, cell: CellKey) -> CellKey
    requires cell { IsCell dim cell }
    requires touches { Touches cell vertex }
    ensures cell { IsCell dim result }
    ensures touches { Touches result vertex }
    ensures beside { AreBeside cell result }
    ensures all { SpanRound dim vertex cell result }
{
    let end = extent(cell.level);
    let third = third_end(dim, end);
    CellKey {
        level: cell.level,
        x: [
            across(vertex.v[0], cell.x[0], end),
            across(vertex.v[1], cell.x[1], end),
            across(vertex.v[2], cell.x[2], third),
        ],
    }
}

/// The next cell of all round a vertex along a direction, and the axis on which it differs.
pub(crate) fn next_round(
    dim: Dim,
    vertex: VertexKey,
    cell: CellKey,
    dir: Direction,
) -> Option<(CellKey, u32)>
    requires cell { IsCell dim cell }
    requires touches { Touches cell vertex }
    ensures next { MatchOption result (NoneLaterRound dir dim vertex cell)
        (λ p. NextRound dir dim vertex cell p.0) }
    ensures axis { IfSome result (λ p. DifferOn dim p.1 cell p.0) }
{
    let other = opposite(dim, vertex, cell);
    let axis = passing_axis(dim, cell, other, dir)?;
    let mut x = cell.x;
    x[axis as usize] = other.x[axis as usize];
    let next = CellKey {
        level: cell.level,
        x,
    };
    Some((next, axis))
}
