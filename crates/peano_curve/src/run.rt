//! The run of cells round a vertex, and the lanes by which a vertex passes between them.
ghost use Rattle.std.specs.Prelude.{◌≡◌, ◌<◌, ◌≤◌, MatchOption, IfSome};
ghost use Rattle.peano_curve.specs.Run.{lane_from, InRun, Follows, IsLast, IsFirst, DifferOn};

use crate::order::{Direction, interval};
use crate::passing::next_round;
use crate::range::Range;
use peano_keys::{CellKey, Dim, VertexKey};

/// The lane by which a vertex passes between two cells that differ on an axis, in either direction.
pub fn lane_of(vertex: &VertexKey, axis: u32) -> u32
    requires { axis < 3 }
    ensures value { result ≡ lane_from vertex.now axis }
    ensures lane { result < 6 }
{
    2 * axis + vertex.v[axis as usize] % 2
}

/// The cell after this one in the run of a vertex, and the axis on which the two differ, by one; none at the run's end.
/// The run has the cells round the vertex that the range holds, in the order of the direction.
pub fn after(
    dim: Dim,
    vertex: VertexKey,
    cell: CellKey,
    range: &Range,
    depth: u32,
    dir: Direction,
) -> Option<(CellKey, u32)>
    requires run { InRun dim vertex range.now depth cell }
    requires above { cell.level ≤ depth }
    requires depth { depth ≤ 12 }
    ensures next { MatchOption result (IsLast dir dim vertex range.now depth cell)
        (λ p. Follows dir dim vertex range.now depth cell p.0) }
    ensures axis { IfSome result (λ p. DifferOn dim p.1 cell p.0) }
{
    let (next, axis) = next_round(dim, vertex, cell, dir)?;
    if interval(dim, next, depth).meets(range) {
        Some((next, axis))
    } else {
        None
    }
}

/// The cell before this one in the run of a vertex, and the axis on which the two differ, by one; none at the run's begin.
pub fn before(
    dim: Dim,
    vertex: VertexKey,
    cell: CellKey,
    range: &Range,
    depth: u32,
    dir: Direction,
) -> Option<(CellKey, u32)>
    requires run { InRun dim vertex range.now depth cell }
    requires above { cell.level ≤ depth }
    requires depth { depth ≤ 12 }
    ensures previous { MatchOption result (IsFirst dir dim vertex range.now depth cell)
        (λ p. Follows dir dim vertex range.now depth p.0 cell) }
    ensures axis { IfSome result (λ p. DifferOn dim p.1 cell p.0) }
{
    let back = match dir {
        Direction::Forward => Direction::Backward,
        Direction::Backward => Direction::Forward,
    };
    after(dim, vertex, cell, range, depth, back)
}
