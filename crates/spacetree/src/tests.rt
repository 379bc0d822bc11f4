//! Values that no clause says: counts, the order of leaves, worked fields, overflow.
ghost use Rattle.std.specs.Prelude.{◌≡◌, ◌≤◌, ◌+◌, ◌<◌, ◌^◌, IfOk, IfSome};
ghost use Rattle.peano_keys.specs.declared.dim.Dim.{Dim};
ghost use Rattle.peano_keys.specs.Grid.{IsGrid};
ghost use Rattle.spacetree.specs.Opening.{IsFill};
ghost use Rattle.volume_solver.specs.Ranges.{IsDivisor};

use super::*;
use peano_keys::{CellKey, Dim, State, pow3};
use std::alloc::Global;
use volume_solver::{Diffuse, EdgeRule};

// The uniform grid of a level in the plane.
fn uniform(alloc: Global, level: u32) -> Result<Grid, BuildFault>
    requires { level ≤ 5 }
    ensures grid { IfOk result (λ grid. IsGrid 12 grid) }
    ensures plane { IfOk result (λ grid. grid.dim ≡ Dim.Two) }
{
    let shape = Shape {
        dim: Dim::Two,
        depth: level,
        base: level,
        zones: Listed::new(Vec::new(alloc)),
    };
    Grid::build(alloc, &shape)
}

pub(crate) fn cell(level: u32, first: u32, second: u32) -> CellKey {
    CellKey {
        level,
        x: [first, second, 0],
    }
}

// A square of cells of a level that is filled with one value.
#[derive(Clone, Copy)]
pub(crate) struct Square(
    pub(crate) u32,
    pub(crate) u32,
    pub(crate) u32,
    pub(crate) i64,
);

// The fill of a square, where it lies in the domain.
pub(crate) fn fill_of(square: Square) -> Option<Fill>
    ensures { IfSome result (IsFill 1) }
{
    let Square(level, from, to, value) = square;
    if level > 12 || from > to || u64::from(to) > pow3(level) {
        return None;
    }
    Some(Fill {
        level,
        from: [from, from, 0],
        to: [to, to, 0],
        value: State::Single(value),
    })
}

#[test]
fn counts_cells_and_leaves(rt: HostRuntime) {
    let table: [(u64, u64); 6] = [
        (1, 1),
        (10, 9),
        (91, 81),
        (820, 729),
        (7381, 6561),
        (66430, 59049),
    ];
    for level in 0..6u32 {
        let (cells, leaves) = table[level as usize];
        let Ok(grid) = uniform(rt.alloc(), level) else {
            panic!(rt; "no memory");
        };
        assert_eq!(rt; grid.cell_count(), cells, "cells at {level}");
        assert_eq!(rt; grid.leaf_count(), leaves, "leaves at {level}");
        let Ok(list) = grid.leaves(rt.alloc()) else {
            panic!(rt; "no memory");
        };
        assert_eq!(rt; list.len() as u64, leaves, "listed at {level}");
    }
}

#[test]
fn leaves_come_in_key_order(rt: HostRuntime) {
    let Ok(grid) = uniform(rt.alloc(), 1) else {
        panic!(rt; "no memory");
    };
    let Ok(leaves) = grid.leaves(rt.alloc()) else {
        panic!(rt; "no memory");
    };
    let places: [(u32, u32); 9] = [
        (0, 0),
        (0, 1),
        (0, 2),
        (1, 0),
        (1, 1),
        (1, 2),
        (2, 0),
        (2, 1),
        (2, 2),
    ];
    assert_eq!(rt; leaves.len(), 9);
    for (i, (first, second)) in places.iter().enumerate() {
        let wanted = cell(1, *first, *second);
        assert!(rt; leaves.get(i) == Some(&wanted), "leaf {i}");
    }
    assert!(rt; grid.is_refined(&cell(0, 0, 0)));
    assert!(rt; grid.is_cell(&cell(0, 0, 0)) && grid.is_cell(&cell(1, 2, 0)));
    assert!(rt; !grid.is_cell(&cell(1, 3, 0)) && !grid.is_cell(&cell(2, 0, 0)));
    assert!(rt; grid.is_leaf(&cell(1, 1, 1)) && !grid.is_leaf(&cell(0, 0, 0)));
}

// The rows of the nine leaves of level 1 after so many steps.
fn nine_rows(alloc: Global, squares: [Square; 2], b: i64, steps: u32) -> Result<Vec<Row>, EvalFault>
    requires { IsDivisor b }
{
    let Ok(grid) = uniform(alloc, 1) else {
        return Err(EvalFault::NoMemory);
    };
    let (Some(first), Some(second)) = (fill_of(squares[0]), fill_of(squares[1])) else {
        return Err(EvalFault::NoMemory);
    };
    let field = Field::opening(alloc, &grid, &[first, second], 1)?;
    let solver = Diffuse::new(Dim::Two, 1, b, EdgeRule::Copy, None);
    let (_, after) = evaluate(alloc, &grid, &field, &solver, steps)?;
    Ok(after.rows(alloc)?)
}

#[test]
fn fields_open_and_diffuse(rt: HostRuntime) {
    let whole = Square(0, 0, 1, 7);
    let centre = Square(1, 1, 2, 100);
    let touching = Square(2, 3, 4, 9);
    let centred = Square(2, 4, 5, 5);
    let corner = Square(1, 2, 3, 3);
    let table: [([Square; 2], i64, u32, [i64; 9]); 7] = [
        ([centre, centre], 90, 0, [0, 0, 0, 0, 100, 0, 0, 0, 0]),
        ([centre, centre], 90, 1, [0, 10, 0, 10, 60, 10, 0, 10, 0]),
        ([centre, centre], 91, 1, [0, 9, 0, 9, 60, 9, 0, 9, 0]),
        ([whole, centre], 90, 0, [7, 7, 7, 7, 100, 7, 7, 7, 7]),
        ([centre, whole], 90, 0, [7, 7, 7, 7, 7, 7, 7, 7, 7]),
        ([centre, touching], 90, 0, [0, 0, 0, 0, 100, 0, 0, 0, 0]),
        ([centred, corner], 90, 0, [0, 0, 0, 0, 5, 0, 0, 0, 3]),
    ];
    for (squares, b, steps, wanted) in table {
        let Ok(rows) = nine_rows(rt.alloc(), squares, b, steps) else {
            panic!(rt; "refused at {b}");
        };
        assert_eq!(rt; rows.len(), 9);
        for (row, value) in rows.iter().zip(wanted.iter()) {
            assert!(rt;
                row.value == State::Single(*value),
                "{value} at {b} after {steps}"
            );
        }
    }
}

#[test]
fn overflow_names_the_least_leaf(rt: HostRuntime) {
    let squares = [
        Square(0, 0, 1, 9000000000000000000),
        Square(1, 1, 2, -9000000000000000000),
    ];
    let answer = nine_rows(rt.alloc(), squares, 1, 1);
    assert!(rt;
        matches!(answer, Err(EvalFault::Overflow { step: 1, key }) if key == cell(1, 0, 1))
    );
}

#[test]
fn a_field_is_read(rt: HostRuntime) {
    let Ok(grid) = uniform(rt.alloc(), 0) else {
        panic!(rt; "no memory");
    };
    let Some(fill) = fill_of(Square(0, 0, 1, 7)) else {
        panic!(rt; "outside");
    };
    let Ok(field) = Field::opening(rt.alloc(), &grid, &[fill], 1) else {
        panic!(rt; "no memory");
    };
    assert_eq!(rt; field.len(), 1);
    assert!(rt; field.get(&cell(0, 0, 0)) == Some(State::Single(7)));
    assert!(rt; field.get(&cell(1, 0, 0)).is_none());
    let Ok(pairs) = Field::opening(rt.alloc(), &grid, &[], 2) else {
        panic!(rt; "no memory");
    };
    assert!(rt; pairs.get(&cell(0, 0, 0)) == Some(State::Pair(0, 0)));
}
