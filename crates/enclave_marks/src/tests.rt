//! The enclave and skeleton leaves of worked grids.
ghost use Rattle.std.specs.Prelude.{◌≡◌};
ghost use Rattle.peano_keys.specs.Cell.{IsCell};
ghost use Rattle.peano_keys.specs.Vertex.{IsVertex};

use crate::is_enclave;
use curve_cuts::{Keys, is_tiling};
use peano_curve::{Direction, first_child, next_child};
use peano_keys::{
    CellKey, Dim, Mark, Side, Sides, State, VertexKey, adjacent, corner, corner_count, is_cell,
    parent,
};
use peano_records::{CellView, Corner, Intent, Slot, Status, Stored};
use std::alloc::{AllocError, Global};
use std::process::Abort;

fn cell(level: u32, x: [u32; 3]) -> CellKey
    ensures { result ≡ record { level = level; x = x } }
{
    CellKey { level, x }
}

// Puts the children of a cell on a list, the first one along the curve last.
fn push_children(
    rt: &impl Abort,
    dim: Dim,
    above: CellKey,
    open: &mut Vec<CellKey>,
) -> Result<(), AllocError> {
    assert!(rt; is_cell(dim, &above) && above.level < 12);
    let mut next = Some(first_child(dim, above, Direction::Backward));
    for _ in 0..27 {
        let Some(child) = next else {
            break;
        };
        open.push(child)?;
        assert!(rt; is_cell(dim, &child) && child.level >= 1);
        next = next_child(dim, child, Direction::Backward);
    }
    Ok(())
}

// The leaves of the grid in which these cells are refined, in the order of the curve.
fn leaves_of(
    rt: &impl Abort,
    alloc: Global,
    dim: Dim,
    refined: &[CellKey],
) -> Result<Vec<CellKey>, AllocError> {
    let mut open = vec![in alloc; cell(0, [0, 0, 0])]?;
    let mut leaves = Vec::new(alloc);
    for _ in 0..100_000 {
        let Some(next) = open.pop() else {
            break;
        };
        if refined.contains(&next) {
            push_children(rt, dim, next, &mut open)?;
        } else {
            leaves.push(next)?;
        }
    }
    Ok(leaves)
}

// The keys of so many trees over these leaves.
fn keys_over(
    rt: &impl Abort,
    alloc: Global,
    dim: Dim,
    depth: u32,
    leaves: &[CellKey],
    trees: u32,
) -> Result<Keys, AllocError> {
    assert!(rt; depth <= 12);
    assert!(rt; 1 <= trees);
    assert!(rt; trees <= 64);
    if is_tiling(dim, depth, leaves) {
        Keys::equal(alloc, dim, depth, leaves, trees)
    } else {
        panic!(rt; "these leaves are no tiling")
    }
}

// Whether a cell is one of the grid in which these cells are refined.
fn is_there(refined: &[CellKey], key: CellKey) -> bool
    requires { IsCell Dim.Three key }
{
    key.level == 0 || refined.contains(&parent(key))
}

// A record with the status of each cell round its vertex, none where one of them is no cell of the grid.
fn record_of(dim: Dim, key: VertexKey, refined: &[CellKey]) -> Option<Stored>
    requires { IsVertex dim key }
{
    let mut stored = Stored::new(dim, key);
    for k in 0..corner_count(dim) {
        if let Some(beside) = adjacent(dim, key, k) {
            if !is_there(refined, beside) {
                return None;
            }
            let status = if refined.contains(&beside) {
                Status::Refined
            } else {
                Status::Leaf
            };
            stored.set(
                k,
                Slot {
                    value: State::one(0),
                    next: State::one(0),
                    status,
                    mark: Mark::Keep,
                    intent: Intent::Stay,
                },
            );
        }
    }
    Some(stored)
}

// Corner `n` of a cell, as the grid has it.
fn place(dim: Dim, key: CellKey, refined: &[CellKey], n: u32) -> Corner
    requires { IsCell dim key }
{
    if n >= corner_count(dim) {
        return Corner::Beyond;
    }
    let vertex = corner(dim, key, n);
    match record_of(dim, vertex, refined) {
        Some(stored) => Corner::Vertex(stored),
        None => Corner::Hanging(vertex),
    }
}

fn view_of(dim: Dim, key: CellKey, refined: &[CellKey]) -> CellView
    requires { IsCell dim key }
    ensures { result.key ≡ key }
{
    let at = |n: u32| place(dim, key, refined, n);
    CellView {
        key,
        was: Some(false),
        will: Some(false),
        corners: [at(0), at(1), at(2), at(3), at(4), at(5), at(6), at(7)],
        sides: Sides {
            low: [Side::Edge; 3],
            high: [Side::Edge; 3],
        },
        carried: State::one(0),
        task: 0,
    }
}

// How many leaves that a tree owns are enclaves, and how many are not.
fn leaf_counts(
    rt: &impl Abort,
    keys: &Keys,
    refined: &[CellKey],
    leaves: &[CellKey],
    tree: u32,
) -> (u32, u32) {
    let [mut enclave, mut skeleton] = [0u32; 2];
    for leaf in leaves {
        assert!(rt; is_cell(keys.dim(), leaf) && leaf.level <= keys.depth());
        assert!(rt; tree < keys.trees() && enclave < 1000 && skeleton < 1000);
        if keys.owner(*leaf) == tree {
            if is_enclave(&view_of(keys.dim(), *leaf, refined), keys, tree) {
                enclave += 1;
            } else {
                skeleton += 1;
            }
        }
    }
    (enclave, skeleton)
}

// The counts of each tree of a grid, where the keys are those of an opening grid.
fn expect_under(
    rt: &impl Abort,
    alloc: Global,
    (dim, depth): (Dim, u32),
    opening: &[CellKey],
    refined: &[CellKey],
    want: &[(u32, u32)],
) -> Result<(), AllocError> {
    assert!(rt; want.len() <= 64);
    let first = leaves_of(rt, alloc, dim, opening)?;
    let keys = keys_over(rt, alloc, dim, depth, &first, want.len() as u32)?;
    let leaves = leaves_of(rt, alloc, dim, refined)?;
    for (tree, counts) in want.iter().enumerate() {
        assert_eq!(rt;
            leaf_counts(rt, &keys, refined, &leaves, tree as u32),
            *counts,
            "{dim:?} {refined:?} tree {tree} of {}",
            want.len()
        );
    }
    Ok(())
}

// The same of the grid that the keys are of, as a row: its dimension and depth, its refined cells, and the counts of each
// tree.
type Row<'a> = ((Dim, u32), &'a [CellKey], &'a [(u32, u32)]);

#[test]
fn counts_of_worked_grids(rt: HostRuntime) -> Result<(), AllocError> {
    let root = cell(0, [0, 0, 0]);
    let centre = cell(1, [1, 1, 0]);
    let low = cell(1, [0, 0, 0]);
    let deep = cell(2, [3, 4, 0]);
    let inner = cell(1, [1, 1, 1]);
    let table: [Row; 13] = [
        // one cell
        ((Dim::Two, 0), &[], &[(1, 0)]),
        ((Dim::Two, 0), &[], &[(0, 0), (0, 0), (1, 0)]),
        // nine leaves
        ((Dim::Two, 1), &[root], &[(9, 0)]),
        ((Dim::Two, 1), &[root], &[(0, 4), (1, 4)]),
        // the centre refined
        ((Dim::Two, 2), &[root, centre], &[(1, 16)]),
        ((Dim::Two, 2), &[root, centre], &[(0, 8), (0, 9)]),
        // two cells refined
        ((Dim::Two, 2), &[root, low, centre], &[(5, 20)]),
        ((Dim::Two, 2), &[root, low, centre], &[(4, 8), (1, 12)]),
        // three levels
        ((Dim::Two, 3), &[root, centre, deep], &[(1, 24)]),
        ((Dim::Two, 3), &[root, centre, deep], &[(0, 12), (0, 13)]),
        // space
        ((Dim::Three, 1), &[root], &[(27, 0)]),
        ((Dim::Three, 1), &[root], &[(0, 13), (1, 13)]),
        ((Dim::Three, 2), &[root, inner], &[(1, 52)]),
    ];
    for (shape, refined, want) in table {
        expect_under(&rt, rt.alloc(), shape, refined, refined, want)?;
    }
    Ok(())
}

#[test]
fn counts_after_steps(rt: HostRuntime) -> Result<(), AllocError> {
    let root = cell(0, [0, 0, 0]);
    let centre = cell(1, [1, 1, 0]);
    let shape = (Dim::Two, 2);
    let opening = [root, centre];
    // the centre merged again: the cut stands inside a leaf
    let want = [(0, 4), (0, 5)];
    expect_under(&rt, rt.alloc(), shape, &opening, &[root], &want)?;
    // and six of nine cells split after that
    let split = [
        root,
        cell(1, [0, 0, 0]),
        cell(1, [0, 1, 0]),
        cell(1, [0, 2, 0]),
        cell(1, [1, 0, 0]),
        centre,
        cell(1, [1, 2, 0]),
    ];
    let want = [(24, 16), (2, 15)];
    expect_under(&rt, rt.alloc(), shape, &opening, &split, &want)
}
