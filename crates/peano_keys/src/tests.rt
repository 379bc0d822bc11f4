//! Worked values of keys.
ghost use Rattle.std.specs.Prelude.{◌≡◌};

use crate::{
    CellKey, Dim, Face, State, VertexKey, adjacent, anchor_corner, child, corner, home_corner,
    is_cell, is_vertex, neighbour, parent, pow3, slot_of,
};

fn cell(level: u32, x: [u32; 3]) -> CellKey
    ensures { result ≡ record { level = level; x = x } }
{
    CellKey { level, x }
}

fn vertex(level: u32, v: [u32; 3]) -> VertexKey
    ensures { result ≡ record { level = level; v = v } }
{
    VertexKey { level, v }
}

fn face(axis: u32, high: bool) -> Face
    ensures { result ≡ record { axis = axis; high = high } }
{
    Face { axis, high }
}

#[test]
fn keys_in_and_outside_the_domain(rt: HostRuntime) {
    for (dim, key, want) in [
        (Dim::Two, cell(0, [0, 0, 0]), true),
        (Dim::Two, cell(1, [2, 2, 0]), true),
        (Dim::Two, cell(1, [3, 0, 0]), false),
        (Dim::Two, cell(1, [0, 0, 1]), false),
        (Dim::Three, cell(1, [0, 0, 1]), true),
        (Dim::Three, cell(12, [531440, 531440, 531440]), true),
        (Dim::Three, cell(12, [531440, 531441, 0]), false),
        (Dim::Three, cell(13, [0, 0, 0]), false),
    ] {
        assert_eq!(rt; is_cell(dim, &key), want, "{key:?}");
    }
    for (dim, key, want) in [
        (Dim::Two, vertex(0, [1, 1, 0]), true),
        (Dim::Two, vertex(0, [1, 1, 1]), false),
        (Dim::Three, vertex(0, [1, 1, 1]), true),
        (Dim::Two, vertex(2, [9, 0, 0]), true),
        (Dim::Two, vertex(2, [10, 0, 0]), false),
        (Dim::Three, vertex(13, [0, 0, 0]), false),
    ] {
        assert_eq!(rt; is_vertex(dim, &key), want, "{key:?}");
    }
}

#[test]
fn parents_children_and_powers(rt: HostRuntime) {
    let inner = cell(1, [1, 2, 0]);
    assert!(rt; is_cell(Dim::Three, &inner));
    let below = child(inner, [2, 0, 1]);
    assert_eq!(rt; below, cell(2, [5, 6, 1]));
    assert_eq!(rt; parent(below), inner);
    for (n, want) in [
        (0, 1),
        (1, 3),
        (12, 531441),
        (36, 150094635296999121),
        (40, 12157665459056928801),
    ] {
        assert_eq!(rt; pow3(n), want, "3^{n}");
    }
}

#[test]
fn corners_and_slots(rt: HostRuntime) {
    let one = cell(1, [1, 1, 0]);
    assert!(rt; is_cell(Dim::Two, &one));
    for (n, v, slot) in [
        (0, [1, 1, 0], 3),
        (1, [2, 1, 0], 2),
        (2, [1, 2, 0], 1),
        (3, [2, 2, 0], 0),
    ] {
        assert!(rt; n < 4);
        assert_eq!(rt; corner(Dim::Two, one, n), vertex(1, v), "corner {n}");
        assert_eq!(rt; slot_of(Dim::Two, n), slot, "slot of corner {n}");
    }
    let deep = cell(1, [1, 1, 1]);
    assert!(rt; is_cell(Dim::Three, &deep));
    assert_eq!(rt; corner(Dim::Three, deep, 6), vertex(1, [1, 2, 2]));
    assert_eq!(rt; slot_of(Dim::Three, 6), 1);
}

#[test]
fn cells_round_a_vertex(rt: HostRuntime) {
    let edge = vertex(1, [0, 1, 0]);
    assert!(rt; is_vertex(Dim::Two, &edge));
    for (n, want) in [
        (0, None),
        (1, Some(cell(1, [0, 0, 0]))),
        (2, None),
        (3, Some(cell(1, [0, 1, 0]))),
    ] {
        assert!(rt; n < 4);
        assert_eq!(rt; adjacent(Dim::Two, edge, n), want, "position {n}");
    }
    let far = vertex(1, [3, 3, 1]);
    assert!(rt; is_vertex(Dim::Three, &far));
    assert_eq!(rt; adjacent(Dim::Three, far, 0), Some(cell(1, [2, 2, 0])));
    assert_eq!(rt; adjacent(Dim::Three, far, 4), Some(cell(1, [2, 2, 1])));
    assert_eq!(rt; adjacent(Dim::Three, far, 7), None);
}

#[test]
fn neighbours_at_edges(rt: HostRuntime) {
    for (dim, x, side, want) in [
        (Dim::Two, [0, 1, 0], face(0, false), None),
        (Dim::Two, [0, 1, 0], face(0, true), Some(cell(1, [1, 1, 0]))),
        (Dim::Two, [2, 1, 0], face(0, true), None),
        (Dim::Two, [2, 0, 0], face(1, false), None),
        (Dim::Two, [2, 0, 0], face(1, true), Some(cell(1, [2, 1, 0]))),
        (Dim::Three, [1, 1, 2], face(2, true), None),
        (
            Dim::Three,
            [1, 1, 2],
            face(2, false),
            Some(cell(1, [1, 1, 1])),
        ),
    ] {
        let key = cell(1, x);
        let axes = match dim {
            Dim::Two => 2,
            Dim::Three => 3,
        };
        assert!(rt; is_cell(dim, &key));
        assert!(rt; side.axis < axes);
        assert_eq!(rt; neighbour(dim, key, side), want, "{key:?} {side:?}");
    }
}

#[test]
fn home_corners_and_anchors(rt: HostRuntime) {
    for (dim, x, home) in [
        (Dim::Two, [0, 2, 0], 1),
        (Dim::Two, [0, 0, 0], 3),
        (Dim::Two, [1, 1, 0], 0),
        (Dim::Three, [0, 2, 0], 5),
        (Dim::Three, [2, 2, 2], 0),
    ] {
        let key = cell(1, x);
        assert!(rt; is_cell(dim, &key));
        assert_eq!(rt; home_corner(dim, key), home, "{key:?}");
    }
    for (dim, x, side, anchor) in [
        (Dim::Two, [0, 1, 0], face(0, true), 1),
        (Dim::Two, [1, 1, 0], face(0, false), 0),
        (Dim::Three, [0, 1, 0], face(0, true), 5),
        (Dim::Three, [1, 1, 0], face(0, false), 4),
    ] {
        let key = cell(1, x);
        assert!(rt; is_cell(dim, &key));
        assert!(rt; side.axis < 2);
        assert_eq!(rt; anchor_corner(dim, key, side), anchor, "{key:?} {side:?}");
    }
}

#[test]
fn states_of_one_to_four_values(rt: HostRuntime) {
    assert_eq!(rt; State::of(&[]), None);
    assert_eq!(rt; State::of(&[7]), Some(State::one(7)));
    assert_eq!(rt; State::of(&[7, -8]), Some(State::two(7, -8)));
    assert_eq!(rt; State::of(&[1, 2, 3, 4, 5]), None);
    let four = State::of(&[1, 2, 3, -4]);
    assert_eq!(rt; four, Some(State::Quadruple(1, 2, 3, -4)));
    assert_eq!(rt; State::two(7, -8).count(), 2);
}
