//! What a cell knows of the cells round it, and hands down to its children.
ghost use Rattle.std.specs.Prelude.{◌≡◌, ℕ, ◌<◌, ◌≤◌, ◌↔◌, IsTrue, true, MatchOption};
ghost use Rattle.peano_keys.specs.declared.cell.CellKey.{CellKey};
ghost use Rattle.peano_keys.specs.declared.dim.Dim.{Dim};
ghost use Rattle.peano_keys.specs.Dim.{third_extent};
ghost use Rattle.peano_keys.specs.Cell.{IsCell};
ghost use Rattle.peano_curve.specs.declared.range.Range.{Range};
ghost use Rattle.peano_curve.specs.Order.{interval_of};
ghost use Rattle.handed_down.specs.Across.{HasAll, HasAllRound, HasBeside, StandsBeside};

use crate::ages::{faces_below, root_faces};
use crate::faces::Faces;
use peano_curve::{Direction, Range, interval};
use peano_keys::{CellKey, Dim, extent, parent};

/// What a cell knows of the cells of its level round it: how the curve crosses its faces, and whether the range is known to
/// have the whole intervals of the cell and of all cells that touch it. Far from a cut the second is handed down; near one it
/// is false, or looked at anew.
#[derive(Clone, Copy, Debug, PartialEq, Eq)]
pub struct Surroundings {
    pub faces: Faces,
    pub whole: bool,
}

// Whether a range has all of another one.
fn has_all(range: &Range, other: &Range) -> bool
    ensures { IsTrue result ↔ HasAll range.now other.now }
{
    range.lo <= other.lo && other.hi <= range.hi
}

// How many coordinates axis 2 has where the others have `end`.
fn third_end(dim: Dim, end: u32) -> u32
    ensures { result ≡ third_extent dim end }
{
    match dim {
        Dim::Two => 1,
        Dim::Three => end,
    }
}

// The cell at place `j` of 27 beside a cell, if one of the domain is there.
#[tactic(auto, using(peano_keys::proofs::Powers::pow3_by_12))]
fn beside(dim: Dim, cell: CellKey, j: u32) -> Option<CellKey>
    requires cell { IsCell dim cell }
    requires place { j < 27 }
    ensures { MatchOption result ((q : CellKey) → IsCell dim q
        → ¬ StandsBeside cell j q) (λ q. IsCell dim q × StandsBeside cell j q) }
{
    let end = extent(cell.level);
    let third = third_end(dim, end);
    // each coordinate of the place, moved up by one
    let x0 = cell.x[0] + j % 3;
    let x1 = cell.x[1] + j / 3 % 3;
    let x2 = cell.x[2] + j / 9;
    if x0 == 0 || x0 > end || x1 == 0 || x1 > end || x2 == 0 || x2 > third {
        None
    } else {
        Some(CellKey {
            level: cell.level,
            x: [x0 - 1, x1 - 1, x2 - 1],
        })
    }
}

// Whether a range has the interval of the cell at place `j` beside a cell, if one is there.
fn has_beside(dim: Dim, depth: u32, range: &Range, cell: CellKey, j: u32) -> bool
    requires cell { IsCell dim cell }
    requires above { cell.level ≤ depth }
    requires depth { depth ≤ 12 }
    requires place { j < 27 }
    ensures { IsTrue result ↔ HasBeside dim depth range.now cell j }
{
    match beside(dim, cell, j) {
        Some(other) => has_all(range, &interval(dim, other, depth)),
        None => true,
    }
}

/// Whether a range has the whole intervals of a cell and of each cell of its level that touches it. It looks at up to nine
/// intervals in a plane and 27 in space.
pub fn has_all_round(dim: Dim, depth: u32, range: &Range, cell: CellKey) -> bool
    requires cell { IsCell dim cell }
    requires above { cell.level ≤ depth }
    requires depth { depth ≤ 12 }
    ensures { IsTrue result ↔ HasAllRound dim depth range.now cell }
{
    for j in 0..27 {
        if !has_beside(dim, depth, range, cell, j) {
            return false;
        }
    }
    true
}

impl Surroundings {
    ghost use Rattle.std.specs.Prelude.{◌≡◌, ℕ, ◌≤◌};
    ghost use Rattle.peano_keys.specs.Cell.{IsCell, root, parent_of};
    ghost use Rattle.peano_curve.specs.declared.order.Direction.{Direction};
    ghost use Rattle.peano_curve.specs.declared.range.Range.{Range};
    ghost use Rattle.handed_down.specs.Across.{Surround};

    /// Those of the root: walls, and whether the range has the whole curve.
    pub fn of_root(dim: Dim, depth: u32, range: &Range) -> Surroundings
        requires depth { depth ≤ 12 }
        ensures { (dir : Direction) → Surround dir dim range.now depth root result }
    {
        Surroundings {
            faces: root_faces(),
            whole: has_all(range, &interval(dim, peano_keys::root(), depth)),
        }
    }

    /// Those of a cell, from its parent's: what a range has all round a cell it has round its children.
    pub fn below(&self, dim: Dim, dir: Direction, cell: CellKey) -> Surroundings
        requires cell { IsCell dim cell }
        requires below_root { 1 ≤ cell.level }
        ensures { (range : Range) (depth : ℕ) → cell.level ≤ depth
            → Surround dir dim range depth (parent_of cell) self.now
            → Surround dir dim range depth cell result }
    {
        Surroundings {
            faces: faces_below(dim, dir, &self.faces, cell),
            whole: self.whole,
        }
    }

    /// Those of any cell, from the root down.
    pub fn of_cell(
        dim: Dim,
        dir: Direction,
        depth: u32,
        range: &Range,
        cell: CellKey,
    ) -> Surroundings
        requires cell { IsCell dim cell }
        requires above { cell.level ≤ depth }
        requires depth { depth ≤ 12 }
        ensures { Surround dir dim range.now depth cell result }
    {
        if cell.level == 0 {
            return Surroundings::of_root(dim, depth, range);
        }
        let above = Surroundings::of_cell(dim, dir, depth, range, parent(cell));
        above.below(dim, dir, cell)
    }

    /// The same of a cell, looked at anew where it is not known that the range has all round it.
    pub fn looked_at(&self, dim: Dim, depth: u32, range: &Range, cell: CellKey) -> Surroundings
        requires cell { IsCell dim cell }
        requires above { cell.level ≤ depth }
        requires depth { depth ≤ 12 }
        ensures same { (dir : Direction) → Surround dir dim range.now depth cell self.now
            → Surround dir dim range.now depth cell result }
        ensures whole { self.now.whole ≡ true → result.whole ≡ true }
        ensures looked { HasAllRound dim depth range.now cell → result.whole ≡ true }
    {
        Surroundings {
            faces: self.faces,
            whole: self.whole || has_all_round(dim, depth, range, cell),
        }
    }
}
