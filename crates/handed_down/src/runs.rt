//! The run of a corner in a range, from the surroundings of its cell.
ghost use Rattle.std.specs.Prelude.{◌≡◌, ℕ, ◌<◌, ◌≤◌, MatchOption, Option};
ghost use Rattle.peano_keys.specs.Dim.{corners};
ghost use Rattle.peano_keys.specs.Cell.{IsCell};
ghost use Rattle.peano_keys.specs.Vertex.{corner_of};
ghost use Rattle.peano_curve.specs.declared.order.Direction.{Direction};
ghost use Rattle.peano_curve.specs.Run.{InRun, IsLast, IsFirst};
ghost use Rattle.peano_curve.specs.Passing.{NoneLaterRound};
ghost use Rattle.handed_down.specs.Across.{NextAcross, FollowsAcross, PrecedesAcross, Surround};

use crate::ages::{next_axis, previous_axis};
use crate::surroundings::Surroundings;
use peano_curve::{Direction, Range, interval};
use peano_keys::{CellKey, Dim, Face, neighbour};

// Of the axis on which the next of all cells round corner `n` lies, whether the range holds that cell: one interval, and
// no order.
fn held_across(
    dim: Dim,
    depth: u32,
    range: &Range,
    cell: CellKey,
    n: u32,
    next: Option<u32>,
) -> Option<u32>
    requires run { InRun dim (corner_of cell n) range.now depth cell }
    requires above { cell.level ≤ depth }
    requires depth { depth ≤ 12 }
    requires corner { n < 8 }
    requires next { (dir : Direction)
        × MatchOption next (NoneLaterRound dir dim (corner_of cell n) cell)
        (λ i. NextAcross dir dim cell n i) }
    ensures { (dir : Direction)
        → MatchOption next (NoneLaterRound dir dim (corner_of cell n) cell)
        (λ i. NextAcross dir dim cell n i)
        → MatchOption result (IsLast dir dim (corner_of cell n) range.now depth cell)
        (λ i. FollowsAcross dir dim range.now depth cell n i) }
{
    let axis = next?;
    let face = Face {
        axis,
        high: (n >> axis) % 2 == 1,
    };
    let other = neighbour(dim, cell, face)?;
    if interval(dim, other, depth).meets(range) {
        Some(axis)
    } else {
        None
    }
}

/// In the run of corner `n` of a held cell: the axis of the face across which the next cell lies, none at the run's end.
/// Far from a cut no interval is looked at, near one a single one.
pub fn next_of_run(
    around: &Surroundings,
    dim: Dim,
    dir: Direction,
    depth: u32,
    range: &Range,
    cell: CellKey,
    n: u32,
) -> Option<u32>
    requires corner { n < corners dim }
    requires run { InRun dim (corner_of cell n) range.now depth cell }
    requires above { cell.level ≤ depth }
    requires depth { depth ≤ 12 }
    requires around { Surround dir dim range.now depth cell around.now }
    ensures { MatchOption result (IsLast dir dim (corner_of cell n) range.now depth cell)
        (λ i. FollowsAcross dir dim range.now depth cell n i) }
{
    let next = next_axis(&around.faces, n);
    if around.whole {
        next
    } else {
        held_across(dim, depth, range, cell, n, next)
    }
}

/// In the run of corner `n` of a held cell: the axis of the face across which the previous cell lies, none at the run's
/// begin.
pub fn previous_of_run(
    around: &Surroundings,
    dim: Dim,
    dir: Direction,
    depth: u32,
    range: &Range,
    cell: CellKey,
    n: u32,
) -> Option<u32>
    requires corner { n < corners dim }
    requires run { InRun dim (corner_of cell n) range.now depth cell }
    requires above { cell.level ≤ depth }
    requires depth { depth ≤ 12 }
    requires around { Surround dir dim range.now depth cell around.now }
    ensures { MatchOption result (IsFirst dir dim (corner_of cell n) range.now depth cell)
        (λ i. PrecedesAcross dir dim range.now depth cell n i) }
{
    let previous = previous_axis(&around.faces, n);
    if around.whole {
        previous
    } else {
        held_across(dim, depth, range, cell, n, previous)
    }
}
