//! Worked views: which vertices they tell to be stored, and what children see through them.
ghost use Rattle.std.specs.Prelude.{◌≡◌, ◌<◌, ◌≤◌};
ghost use Rattle.peano_keys.specs.Cell.{IsCell};
ghost use Rattle.peano_keys.specs.Vertex.{IsVertex};

use crate::above::holds_vertex;
use crate::{sides_of, stored_here};
use peano_keys::{
    CellKey, Dim, Mark, Side, Sides, State, VertexKey, adjacent, corner, corner_count, is_cell,
    is_vertex,
};
use peano_records::{CellView, Corner, Intent, Slot, Status, Stored};
use std::process::Abort;

// The grids of the tests, as the slots of their cells tell them.
#[derive(Clone, Copy, Debug)]
enum Scene {
    // In a plane: the root, the cell (0, 0) of level 1 and the cell (2, 0) of level 2 are refined.
    ThreeLevels,
    // In a plane: of the level 1 the centre is refined and merges, and the cell (0, 1) is a leaf and splits.
    Step,
    // In space: the root alone is refined.
    Space,
}

// A slot that is to stay, with the cell's own numbers as its value.
fn slot(cell: CellKey, status: Status) -> Slot {
    let [a, b, c] = cell.x;
    let place = 100 * i64::from(a) + 10 * i64::from(b) + i64::from(c);
    Slot {
        status,
        value: State::two(place, i64::from(cell.level)),
        next: State::one(0),
        mark: Mark::Keep,
        intent: Intent::Stay,
    }
}

// What the slot of a cell says.
fn slot_in(scene: Scene, cell: CellKey) -> Slot {
    let [a, b, _] = cell.x;
    match (scene, cell.level, a, b) {
        (_, 0, _, _) => slot(cell, Status::Refined),
        (Scene::ThreeLevels, 1, 0, 0) => slot(cell, Status::Refined),
        (Scene::ThreeLevels, 2, 2, 0) => slot(cell, Status::Refined),
        (Scene::Step, 1, 1, 1) => Slot {
            intent: Intent::Merge,
            ..slot(cell, Status::Refined)
        },
        (Scene::Step, 1, 0, 1) => Slot {
            intent: Intent::Split,
            ..slot(cell, Status::Leaf)
        },
        // A visitor may have written this of a leaf; it stands inside the domain all the same.
        (Scene::Step, 1, 0, 0) => slot(cell, Status::Outside),
        _ => slot(cell, Status::Leaf),
    }
}

fn record_of(dim: Dim, key: VertexKey, scene: Scene) -> Stored
    requires { IsVertex dim key }
{
    let mut stored = Stored::new(dim, key);
    for k in 0..corner_count(dim) {
        if let Some(cell) = adjacent(dim, key, k) {
            stored.set(k, slot_in(scene, cell));
        }
    }
    stored
}

// Corner `n` of a cell.
fn place(dim: Dim, cell: CellKey, scene: Scene, hanging: [bool; 8], n: u32) -> Corner
    requires cell { IsCell dim cell }
    requires place { n < 8 }
{
    if n >= corner_count(dim) {
        return Corner::Beyond;
    }
    let key = corner(dim, cell, n);
    if hanging[n as usize] {
        Corner::Hanging(key)
    } else {
        Corner::Vertex(record_of(dim, key, scene))
    }
}

fn places(dim: Dim, cell: CellKey, scene: Scene, hanging: [bool; 8]) -> [Corner; 8]
    requires { IsCell dim cell }
{
    [
        place(dim, cell, scene, hanging, 0),
        place(dim, cell, scene, hanging, 1),
        place(dim, cell, scene, hanging, 2),
        place(dim, cell, scene, hanging, 3),
        place(dim, cell, scene, hanging, 4),
        place(dim, cell, scene, hanging, 5),
        place(dim, cell, scene, hanging, 6),
        place(dim, cell, scene, hanging, 7),
    ]
}

fn view(dim: Dim, key: CellKey, scene: Scene, hanging: [bool; 8], sides: Sides) -> CellView
    requires { IsCell dim key }
    ensures { result.key ≡ key }
{
    CellView {
        key,
        was: Some(true),
        will: Some(true),
        corners: places(dim, key, scene, hanging),
        sides,
        carried: State::one(0),
        task: 0,
    }
}

fn edges() -> Sides {
    Sides {
        low: [Side::Edge; 3],
        high: [Side::Edge; 3],
    }
}

const NONE_HANGS: [bool; 8] = [false; 8];

const HIGH_FIRST_HANGS: [bool; 8] = [false, true, false, true, false, false, false, false];

fn cell(level: u32, x: [u32; 3]) -> CellKey {
    CellKey { level, x }
}

// Vertices of a cell's children, and whether the cell's view tells each to be stored before and after.
fn expect_stored(
    rt: &impl Abort,
    scene: Scene,
    key: CellKey,
    hanging: [bool; 8],
    rows: &[([u32; 3], bool, bool)],
) {
    assert!(rt; is_cell(Dim::Two, &key));
    assert!(rt; key.level < 12);
    let parent = view(Dim::Two, key, scene, hanging, edges());
    for (v, before, after) in rows {
        let fine = VertexKey {
            level: key.level + 1,
            v: *v,
        };
        assert!(rt; is_vertex(Dim::Two, &fine));
        assert!(rt; holds_vertex(Dim::Two, key, &fine));
        let told = [
            stored_here(Dim::Two, &parent, &fine, false),
            stored_here(Dim::Two, &parent, &fine, true),
        ];
        assert_eq!(rt; told, [*before, *after], "{key:?} {v:?}");
    }
}

#[test]
fn stored_vertices_of_three_levels(rt: HostRuntime) {
    // a refined root: all vertices of level 1
    let rows = [
        ([0, 0, 0], true, true),
        ([3, 3, 0], true, true),
        ([1, 2, 0], true, true),
    ];
    expect_stored(
        &rt,
        Scene::ThreeLevels,
        cell(0, [0, 0, 0]),
        NONE_HANGS,
        &rows,
    );
    // at the domain's corner, with leaves on two sides
    let rows = [
        ([0, 2, 0], true, true),
        ([2, 2, 0], true, true),
        ([3, 1, 0], false, false),
        ([3, 3, 0], false, false),
    ];
    expect_stored(
        &rt,
        Scene::ThreeLevels,
        cell(1, [0, 0, 0]),
        NONE_HANGS,
        &rows,
    );
    // two corners hang
    let rows = [
        ([7, 1, 0], true, true),
        ([8, 0, 0], true, true),
        ([6, 1, 0], false, false),
        ([7, 3, 0], false, false),
        ([9, 1, 0], false, false),
    ];
    expect_stored(
        &rt,
        Scene::ThreeLevels,
        cell(2, [2, 0, 0]),
        HIGH_FIRST_HANGS,
        &rows,
    );
}

#[test]
fn stored_vertices_before_and_after_a_step(rt: HostRuntime) {
    // the centre merges: its inner vertices go, and those on its faces were never stored
    let rows = [
        ([4, 4, 0], true, false),
        ([5, 4, 0], true, false),
        ([3, 4, 0], false, false),
        ([6, 6, 0], false, false),
    ];
    expect_stored(&rt, Scene::Step, cell(1, [1, 1, 0]), NONE_HANGS, &rows);
    // a leaf beside it splits: its inner vertices come, and those on the domain's edge
    let rows = [
        ([1, 4, 0], false, true),
        ([0, 5, 0], false, true),
        ([0, 3, 0], false, false),
        ([3, 4, 0], false, false),
    ];
    expect_stored(&rt, Scene::Step, cell(1, [0, 1, 0]), NONE_HANGS, &rows);
}

// The sides that a child sees through a view of its parent with these sides.
fn expect_sides(
    rt: &impl Abort,
    scene: Scene,
    (parent, above): (CellKey, Sides),
    child: CellKey,
    hanging: [bool; 8],
    want: Sides,
) {
    let dim = match scene {
        Scene::Space => Dim::Three,
        Scene::ThreeLevels | Scene::Step => Dim::Two,
    };
    assert!(rt; is_cell(dim, &child));
    assert!(rt; child.level >= 1);
    assert!(rt; is_cell(dim, &parent));
    let parent = view(dim, parent, scene, NONE_HANGS, above);
    let corners = places(dim, child, scene, hanging);
    assert_eq!(rt; sides_of(dim, child, &parent, &corners), want, "{child:?}");
}

// On the high side of axis 0 of the second and the third cell stands one leaf of level 1.
#[test]
fn sides_of_three_levels(rt: HostRuntime) {
    let outer = Side::Same(State::two(70, 1));
    let coarse = Side::Coarse(State::two(70, 1));
    let first = Sides {
        low: [Side::Edge; 3],
        high: [outer, Side::Same(State::two(80, 1)), Side::Edge],
    };
    let second = Sides {
        low: [Side::Same(State::two(100, 2)), Side::Edge, Side::Edge],
        high: [coarse, Side::Same(State::two(210, 2)), Side::Edge],
    };
    let third = Sides {
        low: [
            Side::Same(State::two(710, 3)),
            Side::Same(State::two(800, 3)),
            Side::Edge,
        ],
        high: [coarse, Side::Same(State::two(820, 3)), Side::Edge],
    };
    let [low, middle, deep] = [cell(1, [0, 0, 0]), cell(2, [2, 0, 0]), cell(3, [8, 1, 0])];
    let scene = Scene::ThreeLevels;
    expect_sides(&rt, scene, (low, first), middle, HIGH_FIRST_HANGS, second);
    expect_sides(&rt, scene, (middle, second), deep, HIGH_FIRST_HANGS, third);
}

#[test]
fn sides_in_space(rt: HostRuntime) {
    let want = Sides {
        low: [
            Side::Edge,
            Side::Same(State::two(2, 1)),
            Side::Same(State::two(11, 1)),
        ],
        high: [
            Side::Same(State::two(112, 1)),
            Side::Same(State::two(22, 1)),
            Side::Edge,
        ],
    };
    let root = (cell(0, [0, 0, 0]), edges());
    expect_sides(
        &rt,
        Scene::Space,
        root,
        cell(1, [0, 1, 2]),
        NONE_HANGS,
        want,
    );
}
