//! Worked runs and worked vertices, by hand from the drawn curve.
ghost use Rattle.std.specs.Prelude.{◌≡◌, ◌<◌, ◌≤◌, IsTrue};
ghost use Rattle.peano_keys.specs.Vertex.{corner_of};
ghost use Rattle.peano_curve.specs.Run.{InRun};
ghost use Rattle.peano_keys.specs.declared.dim.Dim.TheVariants as Dim;
ghost use Rattle.peano_keys.specs.Cell.{IsCell};

use crate::{
    ChildVertices, Surroundings, is_corner_stored, next_of_run, previous_of_run, stored_below,
};
use peano_curve::{Direction, Range, interval};
use peano_keys::{CellKey, Dim, Mark, Side, Sides, State, adjacent, corner, is_cell};
use peano_records::{CellView, Corner, Intent, Slot, Status, Stored};
use std::process::Abort;

// What is asked of a corner of a cell, and what is wanted: the axes to the next and from the previous cell of its run.
#[derive(Clone, Copy)]
struct Row {
    name: &'static str,
    dim: Dim,
    dir: Direction,
    range: Range,
    level: u32,
    x: [u32; 3],
    n: u32,
    next: Option<u32>,
    previous: Option<u32>,
}

const NINE: Range = Range { lo: 0, hi: 9 };

const FOUR: Range = Range { lo: 0, hi: 4 };

const ALL_OF_SPACE: Range = Range { lo: 0, hi: 27 };

// A row of the plane in the forward direction: its name, the range, the cell, the corner, and the two axes.
type InPlane = (&'static str, Range, [u32; 3], u32, Option<u32>, Option<u32>);

// The nine children of the root in a plane are visited in columns: up, down, up.
const RUNS_IN_PLANE: [InPlane; 8] = [
    ("the first of four", NINE, [0, 0, 0], 3, Some(1), None),
    ("the second of four", NINE, [0, 1, 0], 1, Some(0), Some(1)),
    ("the third of four", NINE, [1, 1, 0], 0, Some(1), Some(0)),
    ("the last of four", NINE, [1, 0, 0], 2, None, Some(1)),
    ("at the domain's corner", NINE, [0, 0, 0], 0, None, None),
    ("at the domain's edge", NINE, [0, 2, 0], 3, Some(0), None),
    ("before the cut", FOUR, [0, 1, 0], 1, None, Some(1)),
    ("across the cut", FOUR, [0, 1, 0], 3, Some(1), None),
];

const OTHER_RUNS: [Row; 3] = [
    Row {
        name: "the second of four, backward",
        dim: Dim::Two,
        dir: Direction::Backward,
        range: NINE,
        level: 1,
        x: [1, 1, 0],
        n: 0,
        next: Some(0),
        previous: Some(1),
    },
    Row {
        name: "the first of eight in space",
        dim: Dim::Three,
        dir: Direction::Forward,
        range: ALL_OF_SPACE,
        level: 1,
        x: [0, 0, 0],
        n: 7,
        next: Some(2),
        previous: None,
    },
    Row {
        name: "the second of eight in space",
        dim: Dim::Three,
        dir: Direction::Forward,
        range: ALL_OF_SPACE,
        level: 1,
        x: [0, 0, 1],
        n: 3,
        next: Some(1),
        previous: Some(2),
    },
];

fn in_plane(row: &InPlane) -> Row {
    let (name, range, x, n, next, previous) = *row;
    Row {
        name,
        dim: Dim::Two,
        dir: Direction::Forward,
        range,
        level: 1,
        x,
        n,
        next,
        previous,
    }
}

// Whether the range holds a cell, which is then in the runs of its corners.
fn is_in_run(asked: &Row, cell: CellKey) -> bool
    requires cell { IsCell asked.now.dim cell }
    requires level { cell.level ≤ 1 }
    ensures { IsTrue result → InRun asked.now.dim (corner_of cell asked.now.n) asked.now.range 1 cell }
{
    interval(asked.dim, cell, 1).meets(&asked.range)
}

fn check_run<R: Abort>(rt: &R, asked: &Row) {
    let Row {
        name,
        dim,
        dir,
        n,
        ..
    } = *asked;
    let cell = CellKey {
        level: asked.level,
        x: asked.x,
    };
    assert!(rt; is_cell(dim, &cell));
    assert!(rt; asked.level == 1);
    assert!(rt; n < 4 || (n < 8 && matches!(dim, Dim::Three)));
    assert!(rt; is_in_run(asked, cell));
    let around = Surroundings::of_cell(dim, dir, 1, &asked.range, cell);
    let next = next_of_run(&around, dim, dir, 1, &asked.range, cell, n);
    assert_eq!(rt; next, asked.next, "{name}: next");
    let previous = previous_of_run(&around, dim, dir, 1, &asked.range, cell, n);
    assert_eq!(rt; previous, asked.previous, "{name}: previous");
}

#[test]
fn runs_of_corners(rt: HostRuntime) {
    for row in &RUNS_IN_PLANE {
        check_run(&rt, &in_plane(row));
    }
    for asked in &OTHER_RUNS {
        check_run(&rt, asked);
    }
}

// In a plane the root and the cell (0, 0) of level 1 are refined.
fn slot_in(cell: CellKey) -> Slot {
    let [a, b, _] = cell.x;
    let refined = cell.level == 0 || (cell.level == 1 && a == 0 && b == 0);
    Slot {
        status: if refined {
            Status::Refined
        } else {
            Status::Leaf
        },
        value: State::one(0),
        next: State::one(0),
        mark: Mark::Keep,
        intent: Intent::Stay,
    }
}

// Corner `n` of a cell, with a record.
fn place(cell: CellKey, n: u32) -> Corner
    requires cell { IsCell Dim.Two cell }
    requires place { n < 4 }
{
    let key = corner(Dim::Two, cell, n);
    let mut stored = Stored::new(Dim::Two, key);
    for k in 0..4 {
        if let Some(other) = adjacent(Dim::Two, key, k) {
            stored.set(k, slot_in(other));
        }
    }
    Corner::Vertex(stored)
}

fn view(key: CellKey) -> CellView
    requires { IsCell Dim.Two key }
    ensures { result.key ≡ key }
{
    CellView {
        key,
        was: Some(true),
        will: Some(true),
        corners: [
            place(key, 0),
            place(key, 1),
            place(key, 2),
            place(key, 3),
            Corner::Beyond,
            Corner::Beyond,
            Corner::Beyond,
            Corner::Beyond,
        ],
        sides: Sides {
            low: [Side::Edge; 3],
            high: [Side::Edge; 3],
        },
        carried: State::one(0),
        task: 0,
    }
}

#[test]
fn vertices_of_children(rt: HostRuntime) {
    // A refined cell, one of its children, and which corners of the child are stored. A vertex beside a leaf is not.
    for (name, level, x, child, want) in [
        (
            "below the root all",
            0,
            [0, 0, 0],
            [1, 2, 0],
            [true, true, true, true],
        ),
        (
            "away from the leaves all",
            1,
            [0, 0, 0],
            [1, 1, 0],
            [true, true, true, true],
        ),
        (
            "beside one leaf",
            1,
            [0, 0, 0],
            [2, 0, 0],
            [true, false, true, false],
        ),
        (
            "beside another leaf",
            1,
            [0, 0, 0],
            [1, 2, 0],
            [true, true, false, false],
        ),
        (
            "between leaves",
            1,
            [0, 0, 0],
            [2, 2, 0],
            [true, false, false, false],
        ),
    ] {
        let key = CellKey { level, x };
        assert!(rt; is_cell(Dim::Two, &key));
        assert!(rt; level < 12);
        let child = CellKey {
            level: level + 1,
            x: child,
        };
        assert!(rt; is_cell(Dim::Two, &child));
        let parent = view(key);
        let told = ChildVertices {
            old_grid: stored_below(Dim::Two, &parent, false),
            new_grid: stored_below(Dim::Two, &parent, true),
        };
        for n in 0..4 {
            let before = is_corner_stored(Dim::Two, &told, false, child, n);
            let after = is_corner_stored(Dim::Two, &told, true, child, n);
            assert_eq!(rt; before, want[n as usize], "{name}: corner {n}");
            assert_eq!(rt; after, want[n as usize], "{name}: corner {n}");
        }
    }
}
