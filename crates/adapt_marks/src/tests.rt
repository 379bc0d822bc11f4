//! Views of centre children and leaves, and what they decide.
ghost use Rattle.std.specs.Prelude.{◌≡◌, ◌<◌};
ghost use Rattle.peano_keys.specs.Cell.{IsCell};
ghost use Rattle.peano_keys.specs.Vertex.{IsVertex};
ghost use Rattle.peano_keys.specs.Dim.{corners};
ghost use Rattle.peano_keys.specs.declared.dim.Dim.TheVariants.{Three};
ghost use Rattle.adapt_marks.specs.Views.{dim_by, dim_shown};

use crate::{merges, splits};
use peano_keys::{
    CellKey, Dim, Mark, Side, Sides, State, VertexKey, adjacent, corner, corner_count, is_cell,
};
use peano_records::{CellView, Corner, Intent, Slot, Status, Stored};

// All cells are leaves that are marked to be coarsened, but for one.
#[derive(Clone, Copy)]
struct Odd {
    cell: CellKey,
    status: Status,
    mark: Mark,
}

fn slot_in(odd: Odd, cell: CellKey) -> Slot {
    let (status, mark) = if cell == odd.cell {
        (odd.status, odd.mark)
    } else {
        (Status::Leaf, Mark::Coarsen)
    };
    Slot {
        value: State::one(0),
        next: State::one(0),
        status,
        mark,
        intent: Intent::Stay,
    }
}

fn record_of(dim: Dim, key: VertexKey, odd: Odd) -> Stored
    requires { IsVertex dim key }
{
    let mut stored = Stored::new(dim, key);
    for k in 0..corner_count(dim) {
        if let Some(cell) = adjacent(dim, key, k) {
            stored.set(k, slot_in(odd, cell));
        }
    }
    stored
}

// Corner `n` of a cell, which is stored where its bit is set.
fn place(dim: Dim, key: CellKey, odd: Odd, stored: u32, n: u32) -> Corner
    requires cell { IsCell dim key }
    requires corner { n < corners dim }
    ensures { dim_by result ≡ Three }
{
    let vertex = corner(dim, key, n);
    if stored >> n & 1 == 1 {
        Corner::Vertex(record_of(dim, vertex, odd))
    } else {
        Corner::Hanging(vertex)
    }
}

fn view_of(dim: Dim, key: CellKey, odd: Odd, stored: u32) -> CellView
    requires { IsCell dim key }
    ensures key { result.key ≡ key }
    ensures dim { dim_shown result ≡ dim }
{
    let at = |n: u32| place(dim, key, odd, stored, n);
    let corners = match dim {
        Dim::Two => {
            let [a, b, c, d] = [at(0), at(1), at(2), at(3)];
            [
                a,
                b,
                c,
                d,
                Corner::Beyond,
                Corner::Beyond,
                Corner::Beyond,
                Corner::Beyond,
            ]
        }
        Dim::Three => [at(0), at(1), at(2), at(3), at(4), at(5), at(6), at(7)],
    };
    CellView {
        key,
        was: Some(false),
        will: Some(false),
        corners,
        sides: Sides {
            low: [Side::Edge; 3],
            high: [Side::Edge; 3],
        },
        carried: State::one(0),
        task: 0,
    }
}

fn cell(level: u32, x: [u32; 3]) -> CellKey
    ensures { result ≡ record { level = level; x = x } }
{
    CellKey { level, x }
}

#[test]
fn a_cell_merges_where_all_children_agree(rt: HostRuntime) {
    for (dim, centre, low, third) in [
        (Dim::Two, [4, 4, 0], [3, 3, 0], 1),
        (Dim::Three, [4, 1, 7], [3, 0, 6], 3),
    ] {
        let key = cell(2, centre);
        assert!(rt; is_cell(dim, &key));
        let elsewhere = Odd {
            cell: cell(2, [0, 0, 0]),
            status: Status::Leaf,
            mark: Mark::Keep,
        };
        assert!(rt; merges(&view_of(dim, key, elsewhere, 0xff)));
        assert!(rt; !merges(&view_of(dim, key, elsewhere, 0xfe)));
        for (a, b) in [
            (0, 0),
            (0, 1),
            (0, 2),
            (1, 0),
            (1, 1),
            (1, 2),
            (2, 0),
            (2, 1),
            (2, 2),
        ] {
            for c in 0..third {
                let [x, y, z] = low;
                let child = cell(2, [x + a, y + b, z + c]);
                for (status, mark) in [
                    (Status::Leaf, Mark::Keep),
                    (Status::Leaf, Mark::Refine),
                    (Status::Refined, Mark::Coarsen),
                ] {
                    let odd = Odd {
                        cell: child,
                        status,
                        mark,
                    };
                    assert!(rt; !merges(&view_of(dim, key, odd, 0xff)), "{child:?}");
                }
            }
        }
    }
}

#[test]
fn a_leaf_splits_by_its_home_corner(rt: HostRuntime) {
    // A leaf, which of its corners are stored, and the number of its home corner.
    for (dim, level, x, stored, home) in [
        (Dim::Two, 0, [0, 0, 0], 0b1111, 3),
        (Dim::Two, 1, [1, 1, 0], 0b1111, 0),
        (Dim::Two, 2, [3, 3, 0], 0b1000, 3),
        (Dim::Two, 2, [4, 5, 0], 0b0011, 0),
        (Dim::Two, 2, [5, 3, 0], 0b0100, 2),
        (Dim::Three, 2, [3, 4, 5], 0b0000_1010, 1),
        (Dim::Three, 2, [3, 3, 3], 0b1000_0000, 7),
    ] {
        let key = cell(level, x);
        for (status, mark, want) in [
            (Status::Leaf, Mark::Refine, true),
            (Status::Leaf, Mark::Keep, false),
            (Status::Leaf, Mark::Coarsen, false),
            (Status::Refined, Mark::Refine, false),
        ] {
            let odd = Odd {
                cell: key,
                status,
                mark,
            };
            assert!(rt; is_cell(dim, &key));
            assert_eq!(rt; splits(&view_of(dim, key, odd, stored)), want, "{key:?}");
            assert!(rt;
                !splits(&view_of(dim, key, odd, stored & !(1 << home))),
                "{key:?}"
            );
        }
    }
}
