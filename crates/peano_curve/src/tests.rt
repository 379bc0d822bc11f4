//! Worked values of the curve.
ghost use Rattle.std.specs.Prelude.{◌≡◌, ◌+◌, ◌≤◌, ◌↔◌, IsTrue};
ghost use Rattle.peano_keys.specs.Vertex.{Touches};
ghost use Rattle.peano_curve.specs.Run.{InRun};

use crate::laws::mirror;
use crate::{
    Direction, Range, after, before, centre, compare, first_child, interval, lane_of, next_child,
};
use peano_keys::{CellKey, Dim, Face, VertexKey, child, is_cell, neighbour};
use std::cmp::Ordering;
use std::process::Abort;

fn cell(level: u32, x: [u32; 3]) -> CellKey
    ensures { result ≡ record { level = level; x = x } }
{
    CellKey { level, x }
}

// The children of a cell along a direction, by their digits.
fn expect_order(rt: &impl Abort, dim: Dim, parent: CellKey, dir: Direction, want: &[[u32; 3]]) {
    assert!(rt; is_cell(dim, &parent));
    assert!(rt; parent.level < 12);
    let mut next = Some(first_child(dim, parent, dir));
    for digits in want {
        let found = next.expect(rt, "a child is missing");
        assert_eq!(rt; found.level, parent.level + 1);
        for axis in 0..3 {
            assert!(rt; digits[axis] < 3);
            assert!(rt; parent.x[axis] < 1000000);
            assert_eq!(rt;
                found.x[axis],
                3 * parent.x[axis] + digits[axis],
                "{parent:?} {want:?}"
            );
        }
        assert!(rt; is_cell(dim, &found));
        next = next_child(dim, found, dir);
    }
    assert_eq!(rt; next, None, "one child too many");
}

// The digits of nine children, by axis.
fn in_plane(first: [u32; 9], second: [u32; 9]) -> [[u32; 3]; 9] {
    let mut digits = [[0; 3]; 9];
    for n in 0..9 {
        digits[n] = [first[n], second[n], 0];
    }
    digits
}

#[test]
fn orders_of_children_in_a_plane(rt: HostRuntime) {
    let [up, down] = [[0, 0, 0, 1, 1, 1, 2, 2, 2], [2, 2, 2, 1, 1, 1, 0, 0, 0]];
    let [there, back] = [[0, 1, 2, 2, 1, 0, 0, 1, 2], [2, 1, 0, 0, 1, 2, 2, 1, 0]];
    let rows = [
        in_plane(up, there),
        in_plane(down, there),
        in_plane(up, back),
        in_plane(down, back),
    ];
    for (x, row) in [
        ([0, 0, 0], 0),
        ([2, 4, 0], 0),
        ([4, 1, 0], 1),
        ([1, 2, 0], 2),
        ([5, 7, 0], 3),
    ] {
        assert!(rt; row < 4);
        let mut back = rows[row];
        back.reverse();
        expect_order(&rt, Dim::Two, cell(2, x), Direction::Forward, &rows[row]);
        expect_order(&rt, Dim::Two, cell(2, x), Direction::Backward, &back);
    }
}

#[test]
fn order_of_children_in_space(rt: HostRuntime) {
    let row = [
        [0, 0, 0],
        [0, 0, 1],
        [0, 0, 2],
        [0, 1, 2],
        [0, 1, 1],
        [0, 1, 0],
        [0, 2, 0],
        [0, 2, 1],
        [0, 2, 2],
        [1, 2, 2],
        [1, 2, 1],
        [1, 2, 0],
        [1, 1, 0],
        [1, 1, 1],
        [1, 1, 2],
        [1, 0, 2],
        [1, 0, 1],
        [1, 0, 0],
        [2, 0, 0],
        [2, 0, 1],
        [2, 0, 2],
        [2, 1, 2],
        [2, 1, 1],
        [2, 1, 0],
        [2, 2, 0],
        [2, 2, 1],
        [2, 2, 2],
    ];
    let mut back = row;
    back.reverse();
    for parent in [cell(0, [0, 0, 0]), cell(2, [4, 0, 8])] {
        expect_order(&rt, Dim::Three, parent, Direction::Forward, &row);
        expect_order(&rt, Dim::Three, parent, Direction::Backward, &back);
    }
}

#[test]
fn intervals_and_centres(rt: HostRuntime) {
    for (dim, key, depth, lo, hi, middle) in [
        (Dim::Two, cell(1, [1, 1, 0]), 2, 36, 45, 40),
        (Dim::Two, cell(0, [0, 0, 0]), 2, 0, 81, 40),
        (Dim::Two, cell(2, [4, 4, 0]), 2, 40, 41, 40),
        (Dim::Two, cell(1, [1, 0, 0]), 2, 45, 54, 49),
        (Dim::Three, cell(1, [0, 0, 1]), 2, 27, 54, 40),
        (
            Dim::Three,
            cell(1, [2, 2, 2]),
            12,
            26 * 5559060566555523,
            150094635296999121,
            26 * 5559060566555523 + 2779530283277761,
        ),
    ] {
        assert!(rt; is_cell(dim, &key));
        assert!(rt; key.level <= depth && depth <= 12);
        assert_eq!(rt; interval(dim, key, depth), Range { lo, hi }, "{key:?}");
        assert_eq!(rt; centre(dim, key, depth), middle, "{key:?}");
    }
}

#[test]
fn ancestors_first_then_by_intervals(rt: HostRuntime) {
    for (a, b, want) in [
        (cell(0, [0, 0, 0]), cell(2, [0, 0, 0]), Ordering::Less),
        (cell(2, [4, 4, 0]), cell(1, [1, 1, 0]), Ordering::Greater),
        (cell(1, [1, 1, 0]), cell(1, [1, 1, 0]), Ordering::Equal),
        (cell(1, [1, 2, 0]), cell(1, [1, 1, 0]), Ordering::Less),
        (cell(2, [3, 0, 0]), cell(1, [0, 2, 0]), Ordering::Greater),
        (cell(2, [0, 8, 0]), cell(1, [1, 2, 0]), Ordering::Less),
    ] {
        assert!(rt; is_cell(Dim::Two, &a) && is_cell(Dim::Two, &b));
        assert_eq!(rt; compare(Dim::Two, &a, &b), want, "{a:?} {b:?}");
    }
}

// Visits the children of a cell along a direction; the last cell that was visited before, and how many were.
fn visit(
    rt: &impl Abort,
    dim: Dim,
    parent: CellKey,
    dir: Direction,
    last: Option<CellKey>,
    mut count: u64,
) -> (Option<CellKey>, u64) {
    let all: u64 = match dim {
        Dim::Two => 81,
        Dim::Three => 729,
    };
    assert!(rt; is_cell(dim, &parent));
    assert!(rt; parent.level == 1);
    let mut last = last;
    let mut next = Some(first_child(dim, parent, dir));
    for _ in 0..27 {
        let Some(found) = next else {
            break;
        };
        assert!(rt; is_cell(dim, &found));
        assert_eq!(rt; found.level, 2);
        assert!(rt; count < all);
        let position = match dir {
            Direction::Forward => count,
            Direction::Backward => all - 1 - count,
        };
        assert_eq!(rt;
            interval(dim, found, 2),
            Range {
                lo: position,
                hi: position + 1
            }
        );
        assert_eq!(rt; centre(dim, found, 2), position);
        if let Some(before) = last {
            let apart = before.x[0]
                .abs_diff(found.x[0])
                .max(before.x[1].abs_diff(found.x[1]))
                .max(before.x[2].abs_diff(found.x[2]));
            assert_eq!(rt; apart, 1, "{before:?} {found:?}");
        }
        last = Some(found);
        count += 1;
        next = next_child(dim, found, dir);
    }
    assert_eq!(rt; next, None);
    (last, count)
}

#[test]
fn whole_curve_of_depth_2(rt: HostRuntime) {
    for (dim, all) in [(Dim::Two, 81), (Dim::Three, 729)] {
        for dir in [Direction::Forward, Direction::Backward] {
            let root = cell(0, [0, 0, 0]);
            assert!(rt; is_cell(dim, &root));
            let mut last = None;
            let mut count = 0;
            let mut next = Some(first_child(dim, root, dir));
            for _ in 0..27 {
                let Some(found) = next else {
                    break;
                };
                (last, count) = visit(&rt, dim, found, dir, last, count);
                assert!(rt; is_cell(dim, &found));
                assert!(rt; found.level == 1);
                next = next_child(dim, found, dir);
            }
            assert_eq!(rt; next, None);
            assert_eq!(rt; count, all);
        }
    }
}

// Whether a cell is in the run of a vertex, for a depth of 2.
fn is_in_run(dim: Dim, vertex: &VertexKey, from: &CellKey, range: &Range) -> bool
    ensures run { IsTrue result → InRun dim vertex.now range.now 2 from.now }
    ensures level { IsTrue result → from.now.level ≤ 2 }
{
    if !is_cell(dim, from) || from.level != vertex.level || from.level > 2 {
        return false;
    }
    if !touches(from, vertex) {
        return false;
    }
    interval(dim, *from, 2).meets(range)
}

fn touches(from: &CellKey, vertex: &VertexKey) -> bool
    ensures { IsTrue result → from.now.level ≡ vertex.now.level → Touches from.now vertex.now }
{
    is_near(from.x[0], vertex.v[0])
        && is_near(from.x[1], vertex.v[1])
        && is_near(from.x[2], vertex.v[2])
}

fn is_near(x: u32, plane: u32) -> bool
    ensures { IsTrue result ↔ ((x ≤ plane) × (plane ≤ x + 1)) }
{
    x <= plane && plane - x <= 1
}

// The cells before and after another one in the forward run of a vertex.
fn expect_passing(
    rt: &impl Abort,
    dim: Dim,
    vertex: VertexKey,
    from: CellKey,
    range: Range,
    earlier: Option<(CellKey, u32)>,
    later: Option<(CellKey, u32)>,
) {
    assert!(rt; is_in_run(dim, &vertex, &from, &range));
    assert_eq!(rt;
        before(dim, vertex, from, &range, 2, Direction::Forward),
        earlier
    );
    assert_eq!(rt;
        after(dim, vertex, from, &range, 2, Direction::Forward),
        later
    );
    assert_eq!(rt;
        before(dim, vertex, from, &range, 2, Direction::Backward),
        later
    );
    assert_eq!(rt;
        after(dim, vertex, from, &range, 2, Direction::Backward),
        earlier
    );
}

#[test]
fn run_in_a_plane(rt: HostRuntime) {
    let middle = VertexKey {
        level: 1,
        v: [1, 1, 0],
    };
    let [a, b, c, d] = [
        cell(1, [0, 0, 0]),
        cell(1, [0, 1, 0]),
        cell(1, [1, 1, 0]),
        cell(1, [1, 0, 0]),
    ];
    let whole = Range { lo: 0, hi: 81 };
    let some = Range { lo: 10, hi: 45 };
    let edge = VertexKey {
        level: 1,
        v: [0, 1, 0],
    };
    for (vertex, from, range, earlier, later) in [
        (middle, a, whole, None, Some((b, 1))),
        (middle, b, whole, Some((a, 1)), Some((c, 0))),
        (middle, c, whole, Some((b, 0)), Some((d, 1))),
        (middle, d, whole, Some((c, 1)), None),
        (middle, b, some, None, Some((c, 0))),
        (middle, c, some, Some((b, 0)), None),
        (edge, a, whole, None, Some((b, 1))),
    ] {
        expect_passing(&rt, Dim::Two, vertex, from, range, earlier, later);
    }
}

#[test]
fn run_in_space(rt: HostRuntime) {
    let whole = Range { lo: 0, hi: 729 };
    let vertex = VertexKey {
        level: 1,
        v: [1, 1, 1],
    };
    for (from, earlier, later) in [
        ([0, 0, 0], None, Some(([0, 0, 1], 2))),
        ([0, 0, 1], Some(([0, 0, 0], 2)), Some(([0, 1, 1], 1))),
        ([0, 1, 1], Some(([0, 0, 1], 1)), Some(([0, 1, 0], 2))),
        ([0, 1, 0], Some(([0, 1, 1], 2)), Some(([1, 1, 0], 0))),
        ([1, 0, 0], Some(([1, 0, 1], 2)), None),
    ] {
        let earlier = earlier.map(|(x, axis)| (cell(1, x), axis));
        let later = later.map(|(x, axis)| (cell(1, x), axis));
        expect_passing(
            &rt,
            Dim::Three,
            vertex,
            cell(1, from),
            whole,
            earlier,
            later,
        );
    }
}

#[test]
fn mirror_images_come_in_reverse(rt: HostRuntime) {
    let root_child = cell(1, [0, 1, 0]);
    let face = Face {
        axis: 0,
        high: true,
    };
    assert!(rt; is_cell(Dim::Two, &root_child));
    let [a, b] = [cell(2, [2, 3, 0]), cell(2, [2, 4, 0])];
    assert!(rt; is_cell(Dim::Two, &a) && is_cell(Dim::Two, &b));
    let [x, y] = [cell(2, [3, 3, 0]), cell(2, [3, 4, 0])];
    assert!(rt; is_cell(Dim::Two, &x) && is_cell(Dim::Two, &y));
    assert_eq!(rt; neighbour(Dim::Two, a, face), Some(x));
    assert_eq!(rt; neighbour(Dim::Two, b, face), Some(y));
    let order = compare(Dim::Two, &a, &b);
    assert_eq!(rt; compare(Dim::Two, &x, &y), order.reverse());
    assert_eq!(rt; mirror(Dim::Two, root_child, face, a, b), order);
}

#[test]
fn lanes_and_ranges(rt: HostRuntime) {
    let vertex = VertexKey {
        level: 2,
        v: [4, 7, 9],
    };
    for (axis, lane) in [(0, 0), (1, 3), (2, 5)] {
        assert!(rt; axis < 3);
        assert_eq!(rt; lane_of(&vertex, axis), lane, "axis {axis}");
    }
    let range = Range { lo: 3, hi: 6 };
    for (other, want) in [
        (Range { lo: 0, hi: 3 }, false),
        (Range { lo: 0, hi: 4 }, true),
        (Range { lo: 5, hi: 9 }, true),
        (Range { lo: 6, hi: 9 }, false),
        (Range { lo: 4, hi: 4 }, false),
    ] {
        assert_eq!(rt; range.meets(&other), want, "{other:?}");
    }
    for (position, want) in [(2, false), (3, true), (5, true), (6, false)] {
        assert_eq!(rt; range.holds(position), want, "position {position}");
    }
}
