//! Worked cuts, and the keys of many grids against a plain reference.
ghost use Rattle.std.specs.Prelude.{◌≡◌};

use crate::{Keys, is_tiling};
use peano_curve::{Direction, Range, first_child, interval, next_child};
use peano_keys::{CellKey, Dim, VertexKey, adjacent, is_cell, is_vertex};
use std::alloc::{AllocError, Global};
use std::process::Abort;

fn cell(level: u32, x: [u32; 3]) -> CellKey
    ensures { result ≡ record { level = level; x = x } }
{
    CellKey { level, x }
}

// Puts the children of a cell on a list, the first one along the curve last.
fn push_children(
    rt: &impl Abort,
    dim: Dim,
    parent: CellKey,
    open: &mut Vec<CellKey>,
) -> Result<(), AllocError> {
    assert!(rt; is_cell(dim, &parent) && parent.level < 12);
    let mut next = Some(first_child(dim, parent, Direction::Backward));
    for _ in 0..27 {
        let Some(child) = next else {
            break;
        };
        open.push(child)?;
        assert!(rt; is_cell(dim, &child) && child.level >= 1);
        next = next_child(dim, child, Direction::Backward);
    }
    Ok(())
}

// The leaves of the grid in which these cells are refined, in the order of the curve.
fn leaves_of(
    rt: &impl Abort,
    alloc: Global,
    dim: Dim,
    refined: &[CellKey],
) -> Result<Vec<CellKey>, AllocError> {
    let mut open = vec![in alloc; cell(0, [0, 0, 0])]?;
    let mut leaves = Vec::new(alloc);
    for _ in 0..100_000 {
        let Some(next) = open.pop() else {
            break;
        };
        if refined.contains(&next) {
            push_children(rt, dim, next, &mut open)?;
        } else {
            leaves.push(next)?;
        }
    }
    Ok(leaves)
}

// The keys of so many trees over these leaves.
fn keys_over(
    rt: &impl Abort,
    alloc: Global,
    dim: Dim,
    depth: u32,
    leaves: &[CellKey],
    trees: u32,
) -> Result<Keys, AllocError> {
    assert!(rt; depth <= 12);
    assert!(rt; 1 <= trees);
    assert!(rt; trees <= 64);
    if is_tiling(dim, depth, leaves) {
        Keys::equal(alloc, dim, depth, leaves, trees)
    } else {
        panic!(rt; "these leaves are no tiling")
    }
}

// The keys of so many trees over the grid in which these cells are refined.
fn keys_of(
    rt: &impl Abort,
    alloc: Global,
    dim: Dim,
    depth: u32,
    refined: &[CellKey],
    trees: u32,
) -> Result<Keys, AllocError> {
    let leaves = leaves_of(rt, alloc, dim, refined)?;
    keys_over(rt, alloc, dim, depth, &leaves, trees)
}

// Where the ranges begin, and where the last one ends.
fn expect_cuts(
    rt: &impl Abort,
    alloc: Global,
    dim: Dim,
    depth: u32,
    refined: &[CellKey],
    want: &[u64],
) -> Result<(), AllocError> {
    assert!(rt; want.len() >= 2 && want.len() <= 65);
    let count = (want.len() - 1) as u32;
    let keys = keys_of(rt, alloc, dim, depth, refined, count)?;
    assert_eq!(rt; keys.trees(), count);
    assert_eq!(rt; keys.depth(), depth);
    assert_eq!(rt; keys.dim(), dim);
    for tree in 0..keys.trees() {
        assert!(rt; (tree as usize) + 1 < want.len());
        assert_eq!(rt;
            keys.range(tree),
            Range {
                lo: want[tree as usize],
                hi: want[tree as usize + 1],
            }
        );
    }
    Ok(())
}

#[test]
fn worked_cuts(rt: HostRuntime) -> Result<(), AllocError> {
    let alloc = rt.alloc();
    let root = cell(0, [0, 0, 0]);
    let centre = cell(1, [1, 1, 0]);
    let inner = cell(1, [1, 1, 1]);
    let low = cell(1, [0, 0, 0]);
    expect_cuts(&rt, alloc, Dim::Two, 1, &[root], &[0, 4, 9])?;
    expect_cuts(&rt, alloc, Dim::Two, 2, &[root, centre], &[0, 40, 81])?;
    expect_cuts(&rt, alloc, Dim::Two, 2, &[root, low, centre], &[0, 36, 81])?;
    expect_cuts(
        &rt,
        alloc,
        Dim::Two,
        2,
        &[root, low, centre],
        &[0, 8, 40, 81],
    )?;
    expect_cuts(&rt, alloc, Dim::Three, 1, &[root], &[0, 13, 27])?;
    expect_cuts(
        &rt,
        alloc,
        Dim::Three,
        2,
        &[root, inner],
        &[0, 355, 373, 729],
    )?;
    // more trees than leaves
    expect_cuts(&rt, alloc, Dim::Two, 0, &[], &[0, 0, 0, 1])?;
    expect_cuts(
        &rt,
        alloc,
        Dim::Two,
        1,
        &[root],
        &[
            0, 0, 0, 1, 1, 2, 2, 3, 3, 4, 4, 4, 5, 5, 6, 6, 7, 7, 8, 8, 9,
        ],
    )
}

#[test]
fn sixty_four_trees_over_one_cell(rt: HostRuntime) -> Result<(), AllocError> {
    let root = cell(0, [0, 0, 0]);
    let keys = keys_of(&rt, rt.alloc(), Dim::Three, 12, &[], 64)?;
    assert!(rt; is_cell(Dim::Three, &root) && keys.dim() == Dim::Three && keys.depth() == 12);
    assert_eq!(rt; keys.trees(), 64);
    assert_eq!(rt; keys.owner(root), 63);
    for tree in 0..64 {
        assert!(rt; tree < keys.trees());
        assert_eq!(rt; keys.held(root, tree), tree == 63);
    }
    Ok(())
}

#[test]
fn lists_that_are_no_tiling(rt: HostRuntime) -> Result<(), AllocError> {
    let root = cell(0, [0, 0, 0]);
    let first = cell(1, [0, 0, 0]);
    let leaves = leaves_of(&rt, rt.alloc(), Dim::Two, &[root])?;
    assert!(rt; leaves.len() == 9);
    assert!(rt; is_tiling(Dim::Two, 1, &leaves));
    assert!(rt; is_tiling(Dim::Two, 5, &leaves));
    assert!(rt; !is_tiling(Dim::Two, 0, &leaves));
    assert!(rt; !is_tiling(Dim::Three, 1, &leaves));
    assert!(rt; !is_tiling(Dim::Two, 1, &leaves[1..]));
    assert!(rt; !is_tiling(Dim::Two, 1, &leaves[..8]));
    assert!(rt; !is_tiling(Dim::Two, 1, &[first, first]));
    assert!(rt; !is_tiling(Dim::Two, 1, &[]));
    Ok(())
}

const POWERS: [u32; 4] = [1, 3, 9, 27];

// The tree of a position, found by asking one after another.
fn tree_at(keys: &Keys, position: u64) -> u32 {
    for tree in 0..keys.trees() {
        if keys.range(tree).holds(position) {
            return tree;
        }
    }
    keys.trees()
}

// The trees of all cells of the deepest level of a plane, row by row.
fn deepest_trees(rt: &impl Abort, alloc: Global, keys: &Keys) -> Result<Vec<u32>, AllocError> {
    let mut trees = Vec::new(alloc);
    let depth = keys.depth();
    assert!(rt; depth < 4 && keys.dim() == Dim::Two);
    let side = POWERS[depth as usize];
    for x in 0..side {
        for y in 0..side {
            let deepest = cell(depth, [x, y, 0]);
            assert!(rt; is_cell(Dim::Two, &deepest));
            let position = interval(Dim::Two, deepest, depth).lo;
            let tree = tree_at(keys, position);
            assert_eq!(rt; keys.tree_of(position), tree);
            trees.push(tree)?;
        }
    }
    Ok(trees)
}

// Which trees hold a cell that is so many cells of the deepest level wide, and which has the middle one of these.
fn plain_trees(
    rt: &impl Abort,
    trees: &[u32],
    side: usize,
    size: usize,
    x: [u32; 3],
) -> (u64, u32) {
    assert!(rt; side > 0 && size > 0);
    let mut holders: u64 = 0;
    let mut owner = 64;
    for (place, tree) in trees.iter().enumerate() {
        let [a, b] = [place / side, place % side];
        if a / size == x[0] as usize && b / size == x[1] as usize {
            assert!(rt; *tree < 64);
            holders |= 1u64 << *tree;
            if a % size == size / 2 && b % size == size / 2 {
                owner = *tree;
            }
        }
    }
    (holders, owner)
}

fn expect_cell(rt: &impl Abort, keys: &Keys, trees: &[u32], key: CellKey) {
    let depth = keys.depth();
    assert!(rt; is_cell(keys.dim(), &key) && key.level <= depth && depth < 4);
    let side = POWERS[depth as usize] as usize;
    let size = POWERS[(depth - key.level) as usize] as usize;
    let (holders, owner) = plain_trees(rt, trees, side, size, key.x);
    assert_eq!(rt; keys.owner(key), owner, "{key:?}");
    for tree in 0..keys.trees() {
        assert!(rt; tree < 64);
        let want = holders & (1u64 << tree) != 0;
        assert_eq!(rt; keys.held(key, tree), want, "{key:?} tree {tree}");
    }
}

fn expect_vertex(rt: &impl Abort, keys: &Keys, trees: &[u32], key: VertexKey) {
    let depth = keys.depth();
    assert!(rt; keys.dim() == Dim::Two);
    assert!(rt; is_vertex(Dim::Two, &key) && key.level <= depth && depth < 4);
    let side = POWERS[depth as usize] as usize;
    let size = POWERS[(depth - key.level) as usize] as usize;
    let mut holders: u64 = 0;
    for n in 0..4 {
        if let Some(beside) = adjacent(Dim::Two, key, n) {
            holders |= plain_trees(rt, trees, side, size, beside.x).0;
        }
    }
    for tree in 0..keys.trees() {
        assert!(rt; tree < 64);
        let want = (holders | 1u64 << tree) != 1u64 << tree;
        assert_eq!(rt; keys.is_shared(key, tree), want, "{key:?} tree {tree}");
    }
}

// All cells and vertices of the levels down to the depth.
fn expect_all(rt: &impl Abort, keys: &Keys, trees: &[u32]) {
    for (level, side) in [(0, 1), (1, 3), (2, 9), (3, 27)] {
        if level <= keys.depth() {
            for x in 0..side {
                for y in 0..side {
                    expect_cell(rt, keys, trees, cell(level, [x, y, 0]));
                }
            }
            for x in 0..side + 1 {
                for y in 0..side + 1 {
                    let v = [x, y, 0];
                    expect_vertex(rt, keys, trees, VertexKey { level, v });
                }
            }
        }
    }
}

// The next random number.
fn drawn(seed: u64) -> u64 {
    seed.wrapping_mul(6364136223846793005)
        .wrapping_add(1442695040888963407)
}

// The refined cells of a random grid of a plane.
fn random_grid(alloc: Global, depth: u32, seed: u64) -> Result<Vec<CellKey>, AllocError> {
    let mut refined = vec![in alloc; cell(0, [0, 0, 0])]?;
    let mut seed = seed;
    for (level, side) in [(1, 3), (2, 9)] {
        if level < depth {
            for x in 0..side {
                for y in 0..side {
                    seed = drawn(seed);
                    let above = cell(level - 1, [x / 3, y / 3, 0]);
                    if seed >> 63 == 1 && refined.contains(&above) {
                        refined.push(cell(level, [x, y, 0]))?;
                    }
                }
            }
        }
    }
    Ok(refined)
}

#[test]
fn random_grids_against_plain_trees(rt: HostRuntime) -> Result<(), AllocError> {
    let alloc = rt.alloc();
    for (depth, seed, count) in [
        (2, 1, 2),
        (2, 2, 5),
        (2, 3, 64),
        (3, 4, 1),
        (3, 5, 3),
        (3, 6, 40),
    ] {
        let refined = random_grid(alloc, depth, seed)?;
        let keys = keys_of(&rt, alloc, Dim::Two, depth, &refined, count)?;
        let trees = deepest_trees(&rt, alloc, &keys)?;
        expect_all(&rt, &keys, &trees);
    }
    Ok(())
}
