//! Sides from above.
ghost use Rattle.std.specs.Prelude.{◌≡◌, ◌<◌, ◌≤◌, true};
ghost use Rattle.peano_keys.specs.Dim.{axes, corners};
ghost use Rattle.peano_keys.specs.Cell.{IsCell, parent_of};
ghost use Rattle.peano_keys.specs.Vertex.{anchor_of, slot_from};
ghost use Rattle.peano_keys.specs.Laws.{opposite};
ghost use Rattle.peano_keys.specs.Grid.{Spacetree, is_refined};
ghost use Rattle.peano_keys.specs.Field.{States, side_of, sides_on, sides_of};
ghost use Rattle.hanging_nodes.specs.Sides.{AreCornersOf, KnowsSides, coarsened};

use crate::corner_in::corner_in;
use peano_keys::{CellKey, Dim, Face, Side, Sides, anchor_corner, neighbour, slot_of};
use peano_records::{CellView, Corner};

// A side of the parent, as its child sees it.
fn coarse(side: &Side) -> Side
    ensures { result ≡ coarsened side.now }
{
    match side {
        Side::Edge => Side::Edge,
        Side::Same(value) | Side::Coarse(value) => Side::Coarse(*value),
    }
}

// The same face as the neighbour sees it.
fn turned_round(face: Face) -> Face
    ensures { result ≡ opposite face }
{
    Face {
        axis: face.axis,
        high: !face.high,
    }
}

// What a child sees across a face, from the parent's side there and the child's corners: where the anchor is stored
// the neighbour is a cell, and its slot there has its value. Each call has a face of its own, so much of it is known before.
#[inline(always)]
fn side_across(dim: Dim, child: CellKey, above: &Side, corners: &[Corner; 8], face: Face) -> Side
    requires cell { IsCell dim child }
    requires below { 1 ≤ child.level }
    requires axis { face.axis < axes dim }
    ensures { (t : Spacetree) (f : States) → t.dim ≡ dim → is_refined t (parent_of child) ≡ true
        → AreCornersOf t f child corners.now → above.now ≡ side_of t f (parent_of child) face
        → result ≡ side_of t f child face }
{
    let Some(other) = neighbour(dim, child, face) else {
        return Side::Edge;
    };
    let slot = slot_of(dim, anchor_corner(dim, other, turned_round(face)));
    match corner_in(corners, anchor_corner(dim, child, face)) {
        Corner::Vertex(stored) => Side::Same(stored.value(slot)),
        _ => coarse(above),
    }
}

// The low or the high sides of a child, written over what stands in their place.
fn write_sides(
    dim: Dim,
    child: CellKey,
    above: &[Side; 3],
    corners: &[Corner; 8],
    high: bool,
    sides: &mut [Side; 3],
)
    requires cell { IsCell dim child }
    requires below { 1 ≤ child.level }
    ensures { (t : Spacetree) (f : States) → t.dim ≡ dim → is_refined t (parent_of child) ≡ true
        → AreCornersOf t f child corners.now → above.now ≡ sides_on t f (parent_of child) high
        → sides.new ≡ sides_on t f child high }
{
    let first = side_across(dim, child, &above[0], corners, Face { axis: 0, high });
    let second = side_across(dim, child, &above[1], corners, Face { axis: 1, high });
    let third = match dim {
        Dim::Two => Side::Edge,
        Dim::Three => side_across(dim, child, &above[2], corners, Face { axis: 2, high }),
    };
    *sides = [first, second, third];
}

/// What a child sees across its faces, from its corners and from what its parent sees, written over what stands in its
/// place.
pub fn sides_into(
    dim: Dim,
    child: CellKey,
    parent: &CellView,
    corners: &[Corner; 8],
    sides: &mut Sides,
)
    requires cell { IsCell dim child }
    requires below_root { 1 ≤ child.level }
    ensures { (t : Spacetree) (f : States) → t.dim ≡ dim
        → KnowsSides t f child parent.now.sides corners.now → sides.new ≡ sides_of t f child }
{
    write_sides(
        dim,
        child,
        &parent.sides.low,
        corners,
        false,
        &mut sides.low,
    );
    write_sides(
        dim,
        child,
        &parent.sides.high,
        corners,
        true,
        &mut sides.high,
    );
}

/// What a child sees across its faces, from its corners and from what its parent sees.
pub fn sides_of(dim: Dim, child: CellKey, parent: &CellView, corners: &[Corner; 8]) -> Sides
    requires cell { IsCell dim child }
    requires below_root { 1 ≤ child.level }
    ensures { (t : Spacetree) (f : States) → t.dim ≡ dim
        → KnowsSides t f child parent.now.sides corners.now → result ≡ sides_of t f child }
{
    let mut sides = Sides {
        low: [Side::Edge; 3],
        high: [Side::Edge; 3],
    };
    sides_into(dim, child, parent, corners, &mut sides);
    sides
}
