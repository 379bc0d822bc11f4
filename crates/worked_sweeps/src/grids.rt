//! Small grids, their fields and leaves, and the grid that comes next.
ghost use Rattle.std.specs.Prelude.{◌≡◌, ◌≤◌, All, IfOk};
ghost use Rattle.peano_keys.specs.Grid.{IsGrid};
ghost use Rattle.volume_solver.specs.Ranges.{IsCriterion};
ghost use Rattle.spacetree.specs.Build.{IsZone};
ghost use Rattle.spacetree.specs.Fields.{IsFieldOn};
ghost use Rattle.worked_sweeps.specs.Trees.{LeadsTo};

use peano_curve::{Direction, first_child, next_child};
use peano_keys::{CellKey, Dim, State, is_cell, root};
use solver_api::Criterion;
use spacetree::{BuildFault, Field, Fill, Grid, Listed, Shape, Zone, evaluate};
use std::alloc::{AllocError, Global};
use std::process::Abort;
use volume_solver::{Diffuse, EdgeRule};

// The box of the root's centre child, where it is to be refined.
fn zones(alloc: Global, dim: Dim, centre: bool) -> Result<Listed<Zone>, AllocError>
    ensures { IfOk result (All (IsZone dim 2)) }
{
    if !centre {
        return Ok(Listed::new(Vec::new(alloc)));
    }
    let zone = Zone {
        level: 1,
        from: [1, 1, 1],
        to: [2, 2, 2],
        until: 2,
    };
    Ok(Listed::new(Vec::from_array(alloc, [zone])?))
}

// The grid of a base, with the root's centre child refined or not.
pub(crate) fn opened(alloc: Global, dim: Dim, base: u32, centre: bool) -> Result<Grid, BuildFault>
    requires { base ≤ 2 }
    ensures grid { IfOk result (IsGrid 2) }
    ensures served { IfOk result (IsGrid 12) }
    ensures dim { IfOk result (λ grid. grid.dim ≡ dim) }
{
    let Ok(zones) = zones(alloc, dim, centre) else {
        return Err(BuildFault::NoMemory);
    };
    let shape = Shape {
        dim,
        depth: 2,
        base,
        zones,
    };
    Grid::build(alloc, &shape)
}

// The field of a grid that is 100 in the root's first child, 7 in its centre child and 0 elsewhere.
pub(crate) fn field_of(alloc: Global, grid: &Grid) -> Result<Field, AllocError>
    requires { IsGrid 12 grid.now }
    ensures { IfOk result (IsFieldOn 1 grid.now) }
{
    let first = Fill {
        level: 1,
        from: [0, 0, 0],
        to: [1, 1, 1],
        value: State::one(100),
    };
    let centre = Fill {
        level: 1,
        from: [1, 1, 1],
        to: [2, 2, 2],
        value: State::one(7),
    };
    Field::opening(alloc, grid, &[first, centre], 1)
}

// Puts the children of a cell on a list, the first one along the curve last.
fn push_children(
    rt: &impl Abort,
    dim: Dim,
    parent: CellKey,
    open: &mut Vec<CellKey>,
) -> Result<(), AllocError> {
    assert!(rt; is_cell(dim, &parent) && parent.level < 12);
    let mut next = Some(first_child(dim, parent, Direction::Backward));
    for _ in 0..27 {
        let Some(child) = next else {
            break;
        };
        open.push(child)?;
        assert!(rt; is_cell(dim, &child) && child.level >= 1);
        next = next_child(dim, child, Direction::Backward);
    }
    Ok(())
}

// The leaves of a grid in the order of the curve.
pub(crate) fn leaves_of(
    rt: &impl Abort,
    alloc: Global,
    grid: &Grid,
) -> Result<Vec<CellKey>, AllocError> {
    let mut open = Vec::from_array(alloc, [root()])?;
    let mut leaves = Vec::new(alloc);
    for _ in 0..1_000 {
        let Some(next) = open.pop() else {
            break;
        };
        if grid.is_refined(&next) {
            push_children(rt, grid.dim(), next, &mut open)?;
        } else {
            leaves.push(next)?;
        }
    }
    Ok(leaves)
}

// What a step is to make of a grid that has the field above.
#[derive(Clone, Copy)]
pub(crate) enum Wish {
    // Nothing splits, and nothing merges.
    Stay,
    // The first child and its face neighbours split, and the centre child merges.
    Change,
    // Whatever can merge merges.
    Merge,
}

// Leaves split by differences of 50, and merge by differences below 10; or by such that do this always, or never.
fn criterion(wish: Wish) -> Criterion
    ensures criterion { IsCriterion 1 result }
    ensures depth { result.depth ≡ 2 }
{
    match wish {
        Wish::Stay => Criterion {
            hi: 1_000,
            lo: 0,
            watch: 0,
            depth: 2,
        },
        Wish::Change => Criterion {
            hi: 50,
            lo: 10,
            watch: 0,
            depth: 2,
        },
        Wish::Merge => Criterion {
            hi: 1_000,
            lo: 1_000,
            watch: 0,
            depth: 2,
        },
    }
}

// The grid that comes after a grid, and its field: values stay, and so a leaf has that of the cell it comes from.
pub(crate) fn next_of(
    alloc: Global,
    grid: &Grid,
    field: &Field,
    wish: Wish,
) -> Result<(Grid, Field), AllocError>
    requires grid { IsGrid 2 grid.now }
    requires served { IsGrid 12 grid.now }
    requires field { IsFieldOn 1 grid.now field.now }
    ensures leads { IfOk result (λ next. LeadsTo grid.now next.0) }
    ensures grid { IfOk result (λ next. IsGrid 2 next.0) }
    ensures served { IfOk result (λ next. IsGrid 12 next.0) }
    ensures field { IfOk result (λ next. IsFieldOn 1 next.0 next.1) }
{
    let still = Diffuse::new(grid.dim(), 0, 1, EdgeRule::Copy, Some(criterion(wish)));
    match evaluate(alloc, grid, field, &still, 1) {
        Ok(next) => Ok(next),
        Err(_) => Err(AllocError),
    }
}
