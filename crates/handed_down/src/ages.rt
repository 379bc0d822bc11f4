//! Faces, handed down.
ghost use Rattle.std.specs.Prelude.{◌≡◌, ℕ, ◌+◌, ◌-◌, ◌/◌, ◌%◌, ◌<◌, ◌≤◌, ◌↔◌, IsTrue, MatchOption};
ghost use Rattle.peano_keys.specs.declared.cell.CellKey.{CellKey};
ghost use Rattle.peano_keys.specs.declared.dim.Dim.{Dim};
ghost use Rattle.peano_keys.specs.Dim.{corners};
ghost use Rattle.peano_keys.specs.Cell.{IsCell, at, parent_of, root};
ghost use Rattle.peano_keys.specs.Vertex.{corner_of};
ghost use Rattle.peano_curve.specs.declared.order.Direction.{Direction};
ghost use Rattle.peano_curve.specs.Passing.{NoneLaterRound};
ghost use Rattle.sweep_visits.specs.Runs.{turned_round};
ghost use Rattle.handed_down.specs.Ages.{crossing_of, faces_of, IsYoungest, Rises};
ghost use Rattle.handed_down.specs.Across.{NextAcross};

use crate::faces::{Crossing, Faces};
use peano_curve::Direction;
use peano_keys::{CellKey, Dim};

/// The faces of the root: all lie on the domain's boundary.
pub fn root_faces() -> Faces
    ensures { (dir : Direction) (dim : Dim) → result ≡ faces_of dir dim root }
{
    Faces {
        low: [Crossing::Wall; 3],
        high: [Crossing::Wall; 3],
    }
}

// Whether the curve goes up on an axis inside a cell, where the other coordinates have this sum.
fn rises(dir: Direction, sum: u32) -> bool
    ensures { IsTrue result ↔ Rises dir sum }
{
    match dir {
        Direction::Forward => sum % 2 == 0,
        Direction::Backward => sum % 2 == 1,
    }
}

// The low face of a cell on an axis: its parent's where the cell begins there, else that to the sibling below.
fn low_below(dir: Direction, level: u32, sum: u32, x: u32, above: Crossing) -> Crossing
    requires below_root { 1 ≤ level }
    ensures { (p q : ℕ) → p + q ≡ sum
        → above ≡ crossing_of dir (level - 1) (p / 3) (q / 3) (x / 3) (x / 3 - 1)
        → result ≡ crossing_of dir level p q x (x - 1) }
{
    if x % 3 == 0 {
        above
    } else if rises(dir, sum) {
        Crossing::In(level)
    } else {
        Crossing::Out(level)
    }
}

// The high face of a cell on an axis: its parent's where the cell ends there, else that to the sibling above.
fn high_below(dir: Direction, level: u32, sum: u32, x: u32, above: Crossing) -> Crossing
    requires below_root { 1 ≤ level }
    ensures { (p q : ℕ) → p + q ≡ sum
        → above ≡ crossing_of dir (level - 1) (p / 3) (q / 3) (x / 3) (x / 3 + 1)
        → result ≡ crossing_of dir level p q x (x + 1) }
{
    if x % 3 == 2 {
        above
    } else if rises(dir, sum) {
        Crossing::Out(level)
    } else {
        Crossing::In(level)
    }
}

/// The faces of a cell along a direction from those of its parent: order across a face of the parent is that of the parent
/// and its neighbour, and between siblings it is that of their places.
#[tactic(auto, using(peano_keys::proofs::Powers::pow3_by_12))]
pub fn faces_below(dim: Dim, dir: Direction, above: &Faces, cell: CellKey) -> Faces
    requires cell { IsCell dim cell }
    requires below_root { 1 ≤ cell.level }
    ensures { above.now ≡ faces_of dir dim (parent_of cell) → result ≡ faces_of dir dim cell }
{
    let [x0, x1, x2] = cell.x;
    let level = cell.level;
    let first = x1 / 3 + x2 / 3;
    let second = x0 + x2 / 3;
    let third = x0 + x1;
    match dim {
        Dim::Two => Faces {
            low: [
                low_below(dir, level, first, x0, above.low[0]),
                low_below(dir, level, second, x1, above.low[1]),
                Crossing::Wall,
            ],
            high: [
                high_below(dir, level, first, x0, above.high[0]),
                high_below(dir, level, second, x1, above.high[1]),
                Crossing::Wall,
            ],
        },
        Dim::Three => Faces {
            low: [
                low_below(dir, level, first, x0, above.low[0]),
                low_below(dir, level, second, x1, above.low[1]),
                low_below(dir, level, third, x2, above.low[2]),
            ],
            high: [
                high_below(dir, level, first, x0, above.high[0]),
                high_below(dir, level, second, x1, above.high[1]),
                high_below(dir, level, third, x2, above.high[2]),
            ],
        },
    }
}

// The axis of the youngest of three planes, the greatest axis among equals; none where all ages are 0.
fn youngest(first: u32, second: u32, third: u32) -> Option<u32>
    ensures { IsYoungest first second third result }
{
    if first == 0 && second == 0 && third == 0 {
        None
    } else if third >= first && third >= second {
        Some(2)
    } else if second >= first {
        Some(1)
    } else {
        Some(0)
    }
}

/// Round corner `n` of a cell, from its faces along a direction: the axis of the face across which the next cell lies,
/// none where no cell round the corner comes later. Of the faces by which the curve goes out it is that of the youngest
/// plane, and of the greatest axis among equals.
pub fn next_axis(faces: &Faces, n: u32) -> Option<u32>
    requires { n < 8 }
    ensures { (dir : Direction) (dim : Dim) (c : CellKey) → IsCell dim c → n < corners dim
        → faces.now ≡ faces_of dir dim c
        → MatchOption result (NoneLaterRound dir dim (corner_of c n) c)
        (λ i. NextAcross dir dim c n i) }
{
    youngest(
        faces.age_out(n, 0),
        faces.age_out(n, 1),
        faces.age_out(n, 2),
    )
}

/// Round corner `n` of a cell, from its faces along a direction: the axis of the face across which the previous cell lies,
/// which is the next one the other way; none where no cell round the corner comes earlier.
pub fn previous_axis(faces: &Faces, n: u32) -> Option<u32>
    requires { n < 8 }
    ensures { (dir : Direction) (dim : Dim) (c : CellKey) → IsCell dim c → n < corners dim
        → faces.now ≡ faces_of dir dim c
        → MatchOption result (NoneLaterRound (turned_round dir) dim (corner_of c n) c)
        (λ i. NextAcross (turned_round dir) dim c n i) }
{
    youngest(faces.age_in(n, 0), faces.age_in(n, 1), faces.age_in(n, 2))
}
