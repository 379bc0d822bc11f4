//! Values of refined cells, worked by hand: weights across levels, numbers below zero, components apart, and merges.
ghost use Rattle.std.specs.Prelude.{◌≡◌, ◌≤◌};
ghost use Rattle.peano_keys.specs.Grid.{IsGrid};
ghost use Rattle.spacetree.specs.Opening.{IsFill};

use super::*;
use crate::build_tests::rectangle;
use crate::step_tests::{between, shaped, stepped};
use crate::tests::{Square, cell, fill_of};
use peano_keys::{CellKey, Dim, State};
use std::alloc::Global;
use volume_solver::{AnySolver, Diffuse, EdgeRule};

// The value of a cell in the field that three squares open, none also where the field could not be opened.
fn value_in(alloc: Global, grid: &Grid, squares: [Square; 3], key: &CellKey) -> Option<State>
    requires { IsGrid 12 grid.now }
{
    let first = fill_of(squares[0])?;
    let second = fill_of(squares[1])?;
    let third = fill_of(squares[2])?;
    let Ok(field) = Field::opening(alloc, grid, &[first, second, third], 1) else {
        return None;
    };
    field.value_of(grid, key)
}

#[test]
fn leaves_weigh_by_their_size(rt: HostRuntime) {
    let zones = [
        rectangle(1, [1, 1], [2, 2], 2),
        rectangle(2, [3, 3], [4, 4], 3),
        rectangle(2, [4, 4], [5, 5], 3),
    ];
    let Some(grid) = shaped(rt.alloc(), 3, 1, &zones) else {
        panic!(rt; "not built");
    };
    let table: [(i64, i64, [i64; 4]); 3] = [
        (8, 5, [0, 1, 0, 8]),
        (-8, -5, [-1, -2, -1, -8]),
        (-9, 0, [-1, -1, 0, -9]),
    ];
    let keys = [cell(0, 0, 0), cell(1, 1, 1), cell(2, 3, 3), cell(2, 5, 5)];
    for (wide, small, wanted) in table {
        let squares = [
            Square(2, 5, 6, wide),
            Square(3, 9, 10, small),
            Square(3, 12, 13, small),
        ];
        for (key, value) in keys.iter().zip(wanted.iter()) {
            assert!(rt;
                value_in(rt.alloc(), &grid, squares, key) == Some(State::Single(*value)),
                "{value} with {wide}"
            );
        }
        assert!(rt; value_in(rt.alloc(), &grid, squares, &cell(2, 0, 0)).is_none());
        assert!(rt; value_in(rt.alloc(), &grid, squares, &cell(1, 3, 0)).is_none());
    }
}

// A fill of the first cell of level 1 with two values.
fn pair() -> Fill
    ensures { IsFill 2 result }
{
    Fill {
        level: 1,
        from: [0, 0, 0],
        to: [1, 1, 0],
        value: State::Pair(5, -5),
    }
}

#[test]
fn components_are_rounded_apart(rt: HostRuntime) {
    let Some(grid) = shaped(rt.alloc(), 1, 1, &[]) else {
        panic!(rt; "not built");
    };
    let Ok(field) = Field::opening(rt.alloc(), &grid, &[pair()], 2) else {
        panic!(rt; "no memory");
    };
    assert!(rt; field.value_of(&grid, &cell(0, 0, 0)) == Some(State::Pair(0, -1)));
}

#[test]
fn a_merged_cell_takes_its_mean(rt: HostRuntime) {
    let watch = between(20, 1000, 2);
    let solver = AnySolver::Diffuse(Diffuse::new(Dim::Two, 0, 1, EdgeRule::Copy, watch));
    let Some(grid) = shaped(rt.alloc(), 2, 1, &[rectangle(1, [0, 1], [2, 2], 2)]) else {
        panic!(rt; "not built");
    };
    let table: [(i64, i64); 4] = [(19, 2), (-19, -3), (9, 1), (-9, -1)];
    for (value, mean) in table {
        let Ok((_cells, rows)) = stepped(rt.alloc(), &grid, Square(2, 3, 4, value), &solver, 1)
        else {
            panic!(rt; "refused");
        };
        assert_eq!(rt; rows.len(), 9, "leaves with {value}");
        let told = rows.iter().any(|row| row.key == cell(1, 1, 1)
            && row.value == State::Single(mean));
        assert!(rt; told, "the cell with {value}");
    }
}
