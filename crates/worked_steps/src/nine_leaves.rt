//! A core over the nine children of the root of the plane, with 100 in the centre.
ghost use Rattle.std.specs.Prelude.{IfOk};
ghost use Rattle.peano_keys.specs.Grid.{IsGrid};
ghost use Rattle.spacetree.specs.Opening.{IsFill};
ghost use Rattle.spacetree.specs.Fields.{IsFieldOn};

use curve_cuts::{Keys, is_tiling};
use peano_curve::Direction;
use peano_keys::{CellKey, Dim, State};
use result_table::Word;
use spacetree::{BuildFault, Field, Fill, Grid, Listed, Shape};
use std::alloc::{AllocError, Global};
use std::process::Abort;
use task_core::Core;
use volume_solver::{Diffuse, EdgeRule};

// The leaves along the curve.
const ALONG: [(u32, u32); 9] = [
    (0, 0),
    (0, 1),
    (0, 2),
    (1, 2),
    (1, 1),
    (1, 0),
    (2, 0),
    (2, 1),
    (2, 2),
];

fn leaf(place: (u32, u32)) -> CellKey {
    CellKey {
        level: 1,
        x: [place.0, place.1, 0],
    }
}

fn leaves(alloc: Global) -> Result<Vec<CellKey>, AllocError> {
    let mut leaves = Vec::new(alloc);
    for place in ALONG {
        leaves.push(leaf(place))?;
    }
    Ok(leaves)
}

// The keys of so many trees, with equal shares of the leaves.
fn keys_over(
    rt: &impl Abort,
    alloc: Global,
    leaves: &[CellKey],
    trees: u32,
) -> Result<Keys, AllocError> {
    assert!(rt; 1 <= trees);
    assert!(rt; trees <= 64);
    if is_tiling(Dim::Two, 1, leaves) {
        Keys::equal(alloc, Dim::Two, 1, leaves, trees)
    } else {
        panic!(rt; "these leaves leave gaps")
    }
}

fn nine_cells(alloc: Global) -> Result<Grid, BuildFault>
    ensures grid { IfOk result (IsGrid 1) }
    ensures served { IfOk result (IsGrid 12) }
{
    let shape = Shape {
        dim: Dim::Two,
        depth: 1,
        base: 1,
        zones: Listed::new(Vec::new(alloc)),
    };
    Grid::build(alloc, &shape)
}

fn pulse() -> Fill
    ensures { IsFill 1 result }
{
    Fill {
        level: 1,
        from: [1, 1, 0],
        to: [2, 2, 1],
        value: State::Single(100),
    }
}

// A core at the beginning of a step of diffusion.
fn begin(
    rt: &impl Abort,
    alloc: Global,
    grid: &Grid,
    field: &Field,
    keys: &Keys,
    dir: Direction,
) -> Result<Core<Diffuse>, AllocError>
    requires grid { IsGrid 1 grid.now }
    requires field { IsFieldOn 1 grid.now field.now }
{
    assert!(rt; keys.depth() == 1);
    assert!(rt; grid.dim() == keys.dim());
    let solver = Diffuse::new(Dim::Two, 1, 90, EdgeRule::Copy, None);
    Core::new(alloc, 1, grid, field, keys, solver, dir)
}

// A core of so many trees, whose first sweep goes along a direction.
pub(crate) fn core_of(
    rt: &impl Abort,
    alloc: Global,
    trees: u32,
    dir: Direction,
) -> Result<Core<Diffuse>, AllocError> {
    let Ok(grid) = nine_cells(alloc) else {
        return Err(AllocError);
    };
    let field = Field::opening(alloc, &grid, &[pulse()], 1)?;
    let leaves = leaves(alloc)?;
    let keys = keys_over(rt, alloc, leaves.as_slice(), trees)?;
    begin(rt, alloc, &grid, &field, &keys, dir)
}

// The answers of the leaves along the curve.
pub(crate) fn answers(
    alloc: Global,
    core: &Core<Diffuse>,
) -> Result<Vec<Option<State>>, AllocError> {
    let mut answers = Vec::new(alloc);
    for place in ALONG {
        answers.push(core.result(&leaf(place)))?;
    }
    Ok(answers)
}

// The words of the first ten tasks of a tree, none where it has not added one.
pub(crate) fn words(
    alloc: Global,
    core: &Core<Diffuse>,
    tree: u32,
) -> Result<Vec<Option<Word>>, AllocError> {
    let mut words = Vec::new(alloc);
    for task in 0..10 {
        words.push(core.word(tree, task))?;
    }
    Ok(words)
}
