//! Adaptation sweeps that run: over a grid that stays, over one of which some cells split and another merges, and over one
//! of which cells only merge; the whole domain, and ranges that cut the centre cell.
ghost use Rattle.std.specs.Prelude.{◌≡◌, IfOk};
ghost use Rattle.peano_keys.specs.Grid.{IsGrid};
ghost use Rattle.curve_cuts.specs.Cuts.{IsCutGrid};
ghost use Rattle.curve_cuts.specs.Keys.{cuts_of};
ghost use Rattle.spacetree.specs.Fields.{IsFieldOn};
ghost use Rattle.worked_sweeps.specs.Trees.{IsTreeBefore, IsTreeOver, LeadsTo};

use crate::grids::{Wish, field_of, next_of, opened};
use crate::intending::intend;
use crate::trees::{counts, expect_cut, expect_refused, keys_of, raise, wrong_slots};
use adapt_sweep::{NewGrid, adapt_tree};
use curve_cuts::Keys;
use peano_keys::Dim;
use spacetree::{Field, Grid};
use std::alloc::{AllocError, Global};
use std::marker::Brand;
use std::process::Abort;
use tree_automaton::TreeStore;
use vertex_stacks::SweepNote;

// Leads a tree from a grid to the next one.
fn adapt<N: NewGrid>(
    store: &mut TreeStore,
    keys: &Keys,
    _grid: &Grid,
    next: &Grid,
) -> Result<SweepNote, AllocError>
    requires next { N.grid ≡ next.now }
    requires before { IsTreeBefore (cuts_of keys.now) _grid.now next.now store.old }
    requires cut { IsCutGrid (cuts_of keys.now) next.now }
    requires leads { LeadsTo _grid.now next.now }
    ensures { IfOk result (λ _. IsTreeOver (cuts_of keys.now) next.now store.new) }
{
    adapt_tree::<N>(store, keys, 1)
}

// The same: the next grid is told to contracts.
fn lead(
    store: &mut TreeStore,
    keys: &Keys,
    grid: &Grid,
    next: &Grid,
) -> Result<SweepNote, AllocError>
    requires before { IsTreeBefore (cuts_of keys.now) grid.now next.now store.old }
    requires cut { IsCutGrid (cuts_of keys.now) next.now }
    requires leads { LeadsTo grid.now next.now }
    ensures { IfOk result (λ _. IsTreeOver (cuts_of keys.now) next.now store.new) }
{
    adapt::<Brand>(store, keys, grid, next)
}

// Adapts a tree as is wished, and compares what moved and what the tree has then.
pub(crate) fn compare_step(
    rt: &impl Abort,
    alloc: Global,
    store: &mut TreeStore,
    keys: &Keys,
    grid: &Grid,
    field: &Field,
    wished: (&str, Wish, [u64; 5]),
) -> Result<(Grid, Field), AllocError>
    requires grid { IsGrid 2 grid.now }
    requires served { IsGrid 12 grid.now }
    requires field { IsFieldOn 1 grid.now field.now }
    requires tree { IsTreeOver (cuts_of keys.now) grid.now store.old }
    ensures grid { IfOk result (λ next. IsGrid 2 next.0) }
    ensures served { IfOk result (λ next. IsGrid 12 next.0) }
    ensures field { IfOk result (λ next. IsFieldOn 1 next.0 next.1) }
    ensures tree { IfOk result (λ next. IsTreeOver (cuts_of keys.now) next.0 store.new) }
{
    let (name, wish, want) = wished;
    let (next, after) = next_of(alloc, grid, field, wish)?;
    expect_cut(rt, &next, keys);
    intend(rt, store, keys, grid, &next);
    let before = store.tale();
    let note = match lead(store, keys, grid, &next) {
        Ok(note) => note,
        Err(refused) => {
            expect_refused(rt, store, &before);
            return Err(refused);
        }
    };
    let [taken, put, pushed, leaves, cells] = want;
    assert_eq!(rt;
        counts(store, &note),
        [taken, put, pushed, leaves, cells, put],
        "{name}"
    );
    assert_eq!(rt; wrong_slots(rt, store, keys, &next, &after), 0, "{name}");
    Ok((next, after))
}

// Adapts a tree so that cells split and one merges, and then so that those that split merge again.
fn compare_changes(
    rt: &impl Abort,
    alloc: Global,
    store: &mut TreeStore,
    keys: &Keys,
    grid: &Grid,
    field: &Field,
    wished: (&str, [[u64; 5]; 2]),
) -> Result<(), AllocError>
    requires grid { IsGrid 2 grid.now }
    requires served { IsGrid 12 grid.now }
    requires field { IsFieldOn 1 grid.now field.now }
    requires tree { IsTreeOver (cuts_of keys.now) grid.now store.old }
{
    let (name, want) = wished;
    let [change, merge] = want;
    let change = (name, Wish::Change, change);
    let (next, after) = compare_step(rt, alloc, store, keys, grid, field, change)?;
    let merge = (name, Wish::Merge, merge);
    compare_step(rt, alloc, store, keys, &next, &after, merge)?;
    Ok(())
}

// Adapts a tree three times, at first so that its grid stays.
fn compare_steps(
    rt: &impl Abort,
    alloc: Global,
    store: &mut TreeStore,
    keys: &Keys,
    grid: &Grid,
    field: &Field,
    wished: (&str, [[u64; 5]; 3]),
) -> Result<(), AllocError>
    requires grid { IsGrid 2 grid.now }
    requires served { IsGrid 12 grid.now }
    requires field { IsFieldOn 1 grid.now field.now }
    requires tree { IsTreeOver (cuts_of keys.now) grid.now store.old }
{
    let (name, want) = wished;
    let [stay, change, merge] = want;
    let stay = (name, Wish::Stay, stay);
    let (next, after) = compare_step(rt, alloc, store, keys, grid, field, stay)?;
    let changes = (name, [change, merge]);
    compare_changes(rt, alloc, store, keys, &next, &after, changes)
}

// A tree was raised once and adapted three times, and is at rest.
fn expect_adapted(rt: &impl Abort, store: &TreeStore) {
    assert_eq!(rt; store.tale().sweeps, [1, 0, 0, 0, 3, 0]);
    assert!(rt; store.is_live());
}

// Raises a tree over the grid with the refined centre, and adapts it three times.
fn compare_adapted(
    rt: &impl Abort,
    alloc: Global,
    name: &str,
    dim: Dim,
    (trees, tree): (u32, u32),
    want: [[u64; 5]; 3],
) -> Result<(), AllocError> {
    let Ok(grid) = opened(alloc, dim, 1, true) else {
        return Err(AllocError);
    };
    let field = field_of(alloc, &grid)?;
    let keys = keys_of(rt, alloc, &grid, trees)?;
    let (mut store, _) = raise(rt, alloc, &grid, &field, &keys, tree)?;
    compare_steps(rt, alloc, &mut store, &keys, &grid, &field, (name, want))?;
    expect_adapted(rt, &store);
    Ok(())
}

// What was taken, put and pushed, the leaves and the cells of the tree: of a grid that stays; where the first child and its
// face neighbours split, so that the vertices of their children are made, and the centre child merges, so that the vertices
// inside it are given up; and where those that split merge again. Counted by sets: a vertex is taken that the old grid
// stores, and put that the new one stores, where the tree holds a cell round it; it is pushed once less than there are such
// cells.
#[test]
fn trees_of_a_plane_are_adapted(rt: HostRuntime) -> Result<(), AllocError> {
    let table = [
        (
            "all of the plane",
            (1, 0),
            [
                [24, 24, 32, 17, 19],
                [24, 47, 90, 33, 37],
                [47, 20, 78, 9, 10],
            ],
        ),
        (
            "a range that ends inside the centre",
            (2, 0),
            [
                [18, 18, 12, 8, 10],
                [18, 36, 51, 20, 24],
                [36, 15, 48, 4, 6],
            ],
        ),
        (
            "a range that begins there",
            (2, 1),
            [
                [19, 19, 15, 9, 11],
                [19, 24, 31, 13, 15],
                [24, 15, 25, 5, 6],
            ],
        ),
        (
            "a range within the centre",
            (3, 1),
            [[12, 12, 8, 6, 8], [12, 8, 8, 1, 2], [8, 8, 0, 1, 2]],
        ),
    ];
    for (name, tree, want) in table {
        compare_adapted(&rt, rt.alloc(), name, Dim::Two, tree, want)?;
    }
    Ok(())
}

#[test]
fn trees_of_space_are_adapted(rt: HostRuntime) -> Result<(), AllocError> {
    let table = [
        (
            "all of space",
            (1, 0),
            [
                [80, 80, 208, 53, 55],
                [80, 180, 675, 131, 136],
                [180, 72, 619, 27, 28],
            ],
        ),
        (
            "a range that ends inside the centre",
            (2, 0),
            [
                [58, 58, 90, 26, 28],
                [58, 141, 450, 91, 96],
                [141, 51, 429, 13, 15],
            ],
        ),
        (
            "a range that begins there",
            (2, 1),
            [
                [59, 59, 97, 27, 29],
                [59, 78, 195, 40, 42],
                [78, 51, 167, 14, 15],
            ],
        ),
    ];
    for (name, tree, want) in table {
        compare_adapted(&rt, rt.alloc(), name, Dim::Three, tree, want)?;
    }
    Ok(())
}
