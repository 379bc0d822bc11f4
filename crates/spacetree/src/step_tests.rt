//! Steps of adapting solvers: worked fields after splits and merges, the largest grid that is served and the least that is not.
ghost use Rattle.std.specs.Prelude.{◌≡◌, ◌≤◌, IfSome};
ghost use Rattle.peano_keys.specs.Grid.{IsGrid};
ghost use Rattle.solver_api.specs.Marks.{depth_of};
ghost use Rattle.volume_solver.specs.Any.{parts_in, deepest_in};
ghost use Rattle.volume_solver.specs.Ranges.{IsCriterion};

use super::*;
use crate::build_tests::{are_zones, rectangle};
use crate::tests::{Square, cell, fill_of};
use peano_keys::{Dim, State};
use solver_api::Criterion;
use std::alloc::Global;
use volume_solver::{Advect, AnySolver, Diffuse, EdgeRule};

// The grid of the plane with some boxes refined further.
pub(crate) fn shaped(alloc: Global, depth: u32, base: u32, zones: &[Zone]) -> Option<Grid>
    ensures { IfSome result (λ grid. IsGrid 12 grid) }
{
    if depth > 12 || base > depth || !are_zones(Dim::Two, depth, zones) {
        return None;
    }
    let Ok(zones) = zones.to_vec(alloc) else {
        return None;
    };
    let shape = Shape {
        dim: Dim::Two,
        depth,
        base,
        zones: Listed::new(zones),
    };
    match Grid::build(alloc, &shape) {
        Ok(grid) => Some(grid),
        Err(_) => None,
    }
}

// How many cells there are after so many steps, and the rows.
pub(crate) fn stepped(
    alloc: Global,
    grid: &Grid,
    square: Square,
    solver: &AnySolver,
    steps: u32,
) -> Result<(u64, Vec<Row>), EvalFault>
    requires grid { IsGrid 12 grid.now }
    requires parts { parts_in solver.now ≡ 1 }
    requires deepest { deepest_in solver.now ≤ 12 }
{
    let Some(fill) = fill_of(square) else {
        return Err(EvalFault::NoMemory);
    };
    let field = Field::opening(alloc, grid, &[fill], 1)?;
    let (last, after) = evaluate(alloc, grid, &field, solver, steps)?;
    Ok((last.cell_count(), after.rows(alloc)?))
}

// A criterion on the one value of a state, none where it is out of range.
pub(crate) fn between(lo: i64, hi: i64, depth: u32) -> Option<Criterion>
    ensures criterion { IfSome result (IsCriterion 1) }
    ensures depth { depth_of result ≤ 12 }
{
    if lo < 0 || hi < 1 || lo > hi || depth > 12 {
        return None;
    }
    Some(Criterion {
        hi,
        lo,
        watch: 0,
        depth,
    })
}

#[test]
fn inflow_merges_and_splits_the_centre(rt: HostRuntime) {
    let inflow = EdgeRule::Fixed(State::Single(100));
    let watch = between(1, 50, 2);
    let solver = AnySolver::Advect(Advect::new(Dim::Two, [1, 0, 0], 3, inflow, watch));
    let Some(grid) = shaped(rt.alloc(), 2, 1, &[rectangle(1, [1, 1], [2, 2], 2)]) else {
        panic!(rt; "not built");
    };
    let empty = Square(0, 0, 1, 0);
    let counts: [(u32, usize); 3] = [(0, 17), (1, 9), (2, 57)];
    for (steps, leaves) in counts {
        let Ok((_cells, rows)) = stepped(rt.alloc(), &grid, empty, &solver, steps) else {
            panic!(rt; "refused");
        };
        assert_eq!(rt; rows.len(), leaves, "leaves after {steps}");
        for row in rows.iter() {
            let wanted = match steps {
                0 => 0,
                1 => { if row.key.x[0] == 0 { 100 } else { 0 } }
                _ => { if row.key.level == 2 { 100 } else { 0 } }
            };
            assert!(rt; row.value == State::Single(wanted), "a leaf after {steps}");
        }
    }
}

#[test]
fn a_child_that_is_kept_keeps_its_siblings(rt: HostRuntime) {
    let watch = between(5, 1000, 2);
    let solver = AnySolver::Diffuse(Diffuse::new(Dim::Two, 0, 1, EdgeRule::Copy, watch));
    let Some(grid) = shaped(rt.alloc(), 2, 1, &[rectangle(1, [0, 1], [2, 2], 2)]) else {
        panic!(rt; "not built");
    };
    let table: [(i64, usize, i64); 3] = [(7, 25, 7), (5, 25, 5), (4, 9, 0)];
    for (value, leaves, sum) in table {
        let Ok((_cells, rows)) = stepped(rt.alloc(), &grid, Square(2, 3, 4, value), &solver, 1)
        else {
            panic!(rt; "refused");
        };
        assert_eq!(rt; rows.len(), leaves, "leaves with {value}");
        let left = rows.iter().any(|row| row.key == cell(2, 3, 3)
            && row.value == State::Single(sum));
        assert_eq!(rt; left, leaves == 25, "the child with {value}");
    }
}

#[test]
fn two_refined_cells_diffuse(rt: HostRuntime) {
    let solver = AnySolver::Diffuse(Diffuse::new(Dim::Two, 1, 810, EdgeRule::Copy, None));
    let zones = [
        rectangle(1, [0, 0], [1, 1], 2),
        rectangle(1, [1, 1], [2, 2], 2),
    ];
    let Some(grid) = shaped(rt.alloc(), 2, 1, &zones) else {
        panic!(rt; "not built");
    };
    let Ok((_cells, rows)) = stepped(rt.alloc(), &grid, Square(2, 4, 5, 900), &solver, 2) else {
        panic!(rt; "refused");
    };
    let wanted: [i64; 25] = [
        2, 0, 2, 2, 0, 2, 0, 0, 0, 0, 0, 0, 0, 0, 0, 0, 18, 108, 18, 108, 360, 108, 18, 108, 18,
    ];
    assert_eq!(rt; rows.len(), 25);
    for (row, value) in rows.iter().zip(wanted.iter()) {
        assert!(rt; row.value == State::Single(*value), "{value}");
    }
}

#[test]
fn crowded_above_the_limit_alone(rt: HostRuntime) {
    let watch = between(0, 50, 6);
    let still = AnySolver::Diffuse(Diffuse::new(Dim::Two, 0, 1, EdgeRule::Copy, watch));
    let moving = AnySolver::Diffuse(Diffuse::new(Dim::Two, 1, 1, EdgeRule::Copy, watch));
    let wide = rectangle(5, [0, 0], [61, 243], 6);
    let high = 9000000000000000000;
    let Some(full) = shaped(
        rt.alloc(),
        6,
        5,
        &[wide, rectangle(5, [61, 0], [62, 13], 6)],
    ) else {
        panic!(rt; "not built");
    };
    let Ok((cells, rows)) = stepped(rt.alloc(), &full, Square(5, 200, 201, 50), &still, 1) else {
        panic!(rt; "refused");
    };
    assert_eq!(rt; cells, 199_999);
    assert_eq!(rt; rows.len(), 177_777);
    let Some(over) = shaped(
        rt.alloc(),
        6,
        5,
        &[wide, rectangle(5, [61, 0], [62, 14], 6)],
    ) else {
        panic!(rt; "not built");
    };
    let crowded = stepped(rt.alloc(), &over, Square(5, 200, 201, 50), &still, 1);
    assert!(rt;
        matches!(
            crowded,
            Err(EvalFault::Crowded {
                step: 1,
                cells: 200_008
            })
        )
    );
    let overflowing = stepped(rt.alloc(), &over, Square(5, 200, 201, high), &moving, 1);
    assert!(rt;
        matches!(overflowing, Err(EvalFault::Overflow { step: 1, key }) if key == cell(5, 199, 200))
    );
}
