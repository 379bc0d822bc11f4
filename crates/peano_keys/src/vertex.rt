//! Vertices by level and coordinates.
ghost use Rattle.std.specs.Prelude.{◌≡◌, ◌+◌, ◌^◌, ◌<◌, ◌≤◌, ◌↔◌, IsTrue, IfSome};
ghost use Rattle.peano_keys.specs.Dim.{axes, corners};
ghost use Rattle.peano_keys.specs.Cell.{IsCell};
ghost use Rattle.peano_keys.specs.Vertex.{IsVertex, Touches, corner_of, adjacent_of, moved, number_of, inner_bit, home_of, anchor_of, anchor_bit, slot_from};

use crate::cell::{CellKey, Face};
use crate::dim::Dim;
use crate::power::extent;

/// A vertex: its level and its coordinates, 0 to `3^level` on each axis in use, 0 on an unused one.
#[derive(Clone, Copy, Debug, PartialEq, Eq, PartialOrd, Ord, Hash)]
pub struct VertexKey {
    pub level: u32,
    pub v: [u32; 3],
}

/// Whether a key is a vertex of the domain, of a level up to 12.
pub fn is_vertex(dim: Dim, key: &VertexKey) -> bool
    ensures { IsTrue result ↔ IsVertex dim key.now }
{
    if key.level > 12 {
        return false;
    }
    let end = extent(key.level);
    let third_end = match dim {
        Dim::Two => 0,
        Dim::Three => end,
    };
    key.v[0] <= end && key.v[1] <= end && key.v[2] <= third_end
}

/// Corner number `n` of a cell: bit `i` of `n` is 1 where the corner lies on the high side of axis `i`.
#[tactic(auto, using(crate::proofs::Powers::pow3_by_12))]
pub fn corner(dim: Dim, key: CellKey, n: u32) -> VertexKey
    requires cell { IsCell dim key }
    requires corner { n < corners dim }
    ensures value { result ≡ corner_of key n }
    ensures vertex { IsVertex dim result }
    ensures touches { Touches key result }
{
    VertexKey {
        level: key.level,
        v: [key.x[0] + n % 2, key.x[1] + n / 2 % 2, key.x[2] + n / 4 % 2],
    }
}

// A coordinate moved by a bit and back by one, where that is inside.
fn shifted(x: u32, bit: u32, extent: u32) -> Option<u32>
    requires { x + bit < 2 ^ 32 }
    ensures { result ≡ moved x bit extent }
{
    if 1 <= x + bit && x + bit <= extent {
        Some(x + bit - 1)
    } else {
        None
    }
}

/// Adjacent position number `n` of a vertex, none where it lies outside the domain.
#[tactic(auto, using(crate::proofs::Powers::pow3_by_12))]
pub fn adjacent(dim: Dim, key: VertexKey, n: u32) -> Option<CellKey>
    requires vertex { IsVertex dim key }
    requires position { n < corners dim }
    ensures value { result ≡ adjacent_of dim key n }
    ensures cell { IfSome result (λ c. IsCell dim c) }
    ensures touches { IfSome result (λ c. Touches c key) }
{
    let end = extent(key.level);
    let first = shifted(key.v[0], n % 2, end)?;
    let second = shifted(key.v[1], n / 2 % 2, end)?;
    let third = match dim {
        Dim::Two => 0,
        Dim::Three => shifted(key.v[2], n / 4 % 2, end)?,
    };
    Some(CellKey {
        level: key.level,
        x: [first, second, third],
    })
}

// A corner's number by its bits.
fn number(dim: Dim, first: u32, second: u32, third: u32) -> u32
    requires first { first ≤ 1 }
    requires second { second ≤ 1 }
    requires third { third ≤ 1 }
    ensures value { result ≡ number_of dim first second third }
    ensures corner { result < corners dim }
{
    match dim {
        Dim::Two => first + 2 * second,
        Dim::Three => first + 2 * second + 4 * third,
    }
}

// The bit towards the inside of the parent.
fn inside(x: u32) -> u32
    ensures value { result ≡ inner_bit x }
    ensures bit { result ≤ 1 }
{
    if x % 3 == 0 { 1 } else { 0 }
}

// The bit of an anchor on an axis, which is the face's own or another.
fn anchored(own: bool, high: bool, x: u32) -> u32
    ensures value { result ≡ anchor_bit own high x }
    ensures bit { result ≤ 1 }
{
    if !own {
        inside(x)
    } else if high {
        1
    } else {
        0
    }
}

/// The home corner of a cell: on each axis the side that lies inside its parent, the low one of the middle child.
pub fn home_corner(dim: Dim, key: CellKey) -> u32
    requires { IsCell dim key }
    ensures value { result ≡ home_of dim key }
    ensures corner { result < corners dim }
{
    number(dim, inside(key.x[0]), inside(key.x[1]), inside(key.x[2]))
}

/// The anchor of a cell across a face: the corner on that face that stands for the cell and for the neighbour there.
pub fn anchor_corner(dim: Dim, key: CellKey, face: Face) -> u32
    requires cell { IsCell dim key }
    requires axis { face.axis < axes dim }
    ensures value { result ≡ anchor_of dim key face }
    ensures corner { result < corners dim }
{
    number(
        dim,
        anchored(face.axis == 0, face.high, key.x[0]),
        anchored(face.axis == 1, face.high, key.x[1]),
        anchored(face.axis == 2, face.high, key.x[2]),
    )
}

/// The slot in which a cell stands at its corner number `corner`: that of the opposite bits.
pub fn slot_of(dim: Dim, corner: u32) -> u32
    requires { corner < corners dim }
    ensures value { result ≡ slot_from dim corner }
    ensures slot { result < corners dim }
{
    match dim {
        Dim::Two => 3 - corner,
        Dim::Three => 7 - corner,
    }
}
