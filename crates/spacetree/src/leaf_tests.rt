//! Grids from the lists of their leaves, lists that are refused, and fields from their keys and states.
ghost use Rattle.std.specs.Prelude.{◌≡◌, ◌≤◌, length, IfOk};

use super::*;
use crate::build_tests::{are_zones, rectangle};
use crate::tests::{Square, cell, fill_of};
use peano_keys::{CellKey, Dim, State};
use std::alloc::{AllocError, Global};
use std::process::Abort;

// Builds a grid, and makes it again from the list of its leaves.
fn again(
    rt: &impl Abort,
    alloc: Global,
    (dim, depth, base): (Dim, u32, u32),
    zones: &[Zone],
    cells: u64,
) -> Result<(), AllocError> {
    assert!(rt; depth <= 12 && base <= depth);
    assert!(rt; are_zones(dim, depth, zones));
    let shape = Shape {
        dim,
        depth,
        base,
        zones: Listed::new(zones.to_vec(alloc)?),
    };
    let Ok(built) = Grid::build(alloc, &shape) else {
        panic!(rt; "not built");
    };
    let leaves = built.leaves(alloc)?;
    let Ok(grid) = Grid::of_leaves(alloc, dim, depth, leaves.as_slice()) else {
        panic!(rt; "refused");
    };
    assert_eq!(rt; grid.cell_count(), cells);
    Ok(())
}

#[test]
fn grids_again(rt: HostRuntime) -> Result<(), AllocError> {
    let centre = rectangle(1, [1, 1], [2, 2], 2);
    let deeper = rectangle(2, [3, 4], [4, 5], 3);
    let (plane, space) = (Dim::Two, Dim::Three);
    again(&rt, rt.alloc(), (plane, 0, 0), &[], 1)?;
    again(&rt, rt.alloc(), (plane, 2, 1), &[centre], 19)?;
    again(&rt, rt.alloc(), (plane, 3, 1), &[centre, deeper], 28)?;
    again(&rt, rt.alloc(), (space, 3, 0), &[], 1)?;
    again(&rt, rt.alloc(), (space, 1, 1), &[], 28)
}

// Whether a list is refused, in the plane.
fn is_refused(alloc: Global, depth: u32, leaves: &[CellKey]) -> bool
    requires { depth ≤ 12 }
{
    matches!(
        Grid::of_leaves(alloc, Dim::Two, depth, leaves),
        Err(LeavesFault::NotLeaves)
    )
}

// The nine cells of level 1 of the plane.
fn nine() -> [CellKey; 9] {
    [
        cell(1, 0, 0),
        cell(1, 0, 1),
        cell(1, 0, 2),
        cell(1, 1, 0),
        cell(1, 1, 1),
        cell(1, 1, 2),
        cell(1, 2, 0),
        cell(1, 2, 1),
        cell(1, 2, 2),
    ]
}

#[test]
fn lists_that_are_refused(rt: HostRuntime) {
    let root = cell(0, 0, 0);
    let nine = nine();
    let turned = [
        nine[0], nine[2], nine[1], nine[3], nine[4], nine[5], nine[6], nine[7], nine[8],
    ];
    let ten = [
        root, nine[0], nine[1], nine[2], nine[3], nine[4], nine[5], nine[6], nine[7], nine[8],
    ];
    assert!(rt; !is_refused(rt.alloc(), 1, &nine));
    assert!(rt; is_refused(rt.alloc(), 12, &[]), "no leaf");
    assert!(rt; is_refused(rt.alloc(), 1, &nine[1..]), "a gap at the start");
    assert!(rt; is_refused(rt.alloc(), 1, &nine[..8]), "a gap at the end");
    assert!(rt; is_refused(rt.alloc(), 1, &[root, root]), "a leaf twice");
    assert!(rt; is_refused(rt.alloc(), 1, &turned), "out of order");
    assert!(rt;
        is_refused(rt.alloc(), 1, &ten),
        "a cell beside its children"
    );
    assert!(rt; is_refused(rt.alloc(), 0, &nine), "too deep");
    assert!(rt; is_refused(rt.alloc(), 1, &[cell(0, 1, 0)]), "outside");
    assert!(rt; is_refused(rt.alloc(), 1, &[cell(13, 0, 0)]), "of no level");
}

// The states that a field has at some of its leaves.
fn states_at(
    rt: &impl Abort,
    alloc: Global,
    field: &Field,
    keys: &[CellKey],
) -> Result<Vec<State>, AllocError>
    ensures { IfOk result (λ states. length keys.now ≡ length states.items) }
{
    let mut states = Vec::new(alloc);
    for key in keys {
        let Some(state) = field.get(key) else {
            panic!(rt; "no state");
        };
        states.push(state)?;
    }
    Ok(states)
}

#[test]
fn fields_again(rt: HostRuntime) -> Result<(), AllocError> {
    let Ok(grid) = Grid::of_leaves(rt.alloc(), Dim::Two, 1, &nine()) else {
        panic!(rt; "refused");
    };
    let Some(fill) = fill_of(Square(1, 1, 2, 7)) else {
        panic!(rt; "outside");
    };
    let field = Field::opening(rt.alloc(), &grid, &[fill], 1)?;
    let keys = grid.leaves(rt.alloc())?;
    let states = states_at(&rt, rt.alloc(), &field, keys.as_slice())?;
    let again = Field::of_states(rt.alloc(), keys.as_slice(), states.as_slice())?;
    assert_eq!(rt; again.len(), 9);
    assert!(rt; again.get(&cell(1, 1, 1)) == Some(State::Single(7)));
    assert!(rt; again.get(&cell(1, 2, 2)) == Some(State::Single(0)));
    let nothing = Field::of_states(rt.alloc(), &[], &[])?;
    assert_eq!(rt; nothing.len(), 0);
    Ok(())
}
