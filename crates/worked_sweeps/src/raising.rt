//! Raising sweeps that run: what they move, and what the tree has afterwards.
use crate::grids::{field_of, opened};
use crate::trees::{counts, keys_of, raise, wrong_slots};
use curve_cuts::Keys;
use peano_curve::Direction;
use peano_keys::Dim;
use spacetree::{Field, Grid};
use std::alloc::{AllocError, Global};
use std::process::Abort;
use tree_automaton::TreeStore;

// The grid of a row: by its base, and whether its centre child is refined.
#[derive(Clone, Copy)]
struct Opening {
    dim: Dim,
    base: u32,
    centre: bool,
}

fn grid_of(dim: Dim, base: u32, centre: bool) -> Opening {
    Opening { dim, base, centre }
}

// A tree was raised and is at rest, to be read backward; each slot says what it should.
fn expect_raised(
    rt: &impl Abort,
    store: &TreeStore,
    keys: &Keys,
    grid: &Grid,
    field: &Field,
    name: &str,
) {
    assert_eq!(rt; wrong_slots(rt, store, keys, grid, field), 0, "{name}");
    assert_eq!(rt; store.tale().sweeps, [1, 0, 0, 0, 0, 0]);
    assert!(rt; store.is_live() && matches!(store.direction(), Direction::Backward));
}

// Raises a tree, and compares the vertices that were put and pushed, the leaves that the tree owns and the cells that it
// holds.
fn compare_raised(
    rt: &impl Abort,
    alloc: Global,
    name: &str,
    opening: Opening,
    (trees, tree): (u32, u32),
    [put, pushed, leaves, cells]: [u64; 4],
) -> Result<(), AllocError> {
    assert!(rt; opening.base <= 2);
    let Ok(grid) = opened(alloc, opening.dim, opening.base, opening.centre) else {
        return Err(AllocError);
    };
    let field = field_of(alloc, &grid)?;
    let keys = keys_of(rt, alloc, &grid, trees)?;
    let (store, note) = raise(rt, alloc, &grid, &field, &keys, tree)?;
    let want = [0, put, pushed, leaves, cells, put];
    assert_eq!(rt; counts(&store, &note), want, "{name}");
    expect_raised(rt, &store, &keys, &grid, &field, name);
    Ok(())
}

// Of the grid, how many trees there are, and which one is raised. A vertex is put where the grid stores it and the tree holds
// a cell round it, and pushed once less than there are such cells.
#[test]
fn raising_sweeps_in_a_plane(rt: HostRuntime) -> Result<(), AllocError> {
    let plane = grid_of(Dim::Two, 1, true);
    let table = [
        (
            "the root",
            grid_of(Dim::Two, 0, false),
            (1, 0),
            [4, 0, 1, 1],
        ),
        (
            "nine leaves",
            grid_of(Dim::Two, 1, false),
            (1, 0),
            [20, 20, 9, 10],
        ),
        (
            "81 leaves",
            grid_of(Dim::Two, 2, false),
            (1, 0),
            [120, 244, 81, 91],
        ),
        ("the refined centre", plane, (1, 0), [24, 32, 17, 19]),
        ("an empty range", plane, (18, 0), [0, 0, 0, 0]),
        ("the range of the first leaf", plane, (18, 1), [8, 0, 1, 2]),
        ("the range of the last leaf", plane, (18, 17), [8, 0, 1, 2]),
        (
            "a range that ends inside the centre",
            plane,
            (2, 0),
            [18, 12, 8, 10],
        ),
        ("a range that begins there", plane, (2, 1), [19, 15, 9, 11]),
        ("a range within the centre", plane, (3, 1), [12, 8, 6, 8]),
    ];
    for (name, opening, tree, want) in table {
        compare_raised(&rt, rt.alloc(), name, opening, tree, want)?;
    }
    Ok(())
}

#[test]
fn raising_sweeps_in_space(rt: HostRuntime) -> Result<(), AllocError> {
    let space = grid_of(Dim::Three, 1, true);
    let table = [
        (
            "an empty range of the root",
            grid_of(Dim::Three, 0, false),
            (2, 0),
            [0, 0, 0, 0],
        ),
        (
            "the root",
            grid_of(Dim::Three, 0, false),
            (2, 1),
            [8, 0, 1, 1],
        ),
        (
            "27 leaves",
            grid_of(Dim::Three, 1, false),
            (1, 0),
            [72, 152, 27, 28],
        ),
        ("the refined centre", space, (1, 0), [80, 208, 53, 55]),
        (
            "a range that ends inside the centre",
            space,
            (2, 0),
            [58, 90, 26, 28],
        ),
        ("a range that begins there", space, (2, 1), [59, 97, 27, 29]),
        ("a range within the centre", space, (3, 1), [24, 40, 18, 20]),
    ];
    for (name, opening, tree, want) in table {
        compare_raised(&rt, rt.alloc(), name, opening, tree, want)?;
    }
    Ok(())
}
