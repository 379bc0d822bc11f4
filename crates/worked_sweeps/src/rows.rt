//! Sweeps that show a tree that has all, or gather its rows before the trees are cut anew: its rows, and its traffic.
ghost use Rattle.std.specs.Prelude.{◌≡◌};
ghost use Rattle.curve_cuts.specs.Cuts.{IsCutGrid, range_of};
ghost use Rattle.curve_cuts.specs.Keys.{cuts_of};
ghost use Rattle.showing_sweep.specs.Sweeps.{IsGathering};
ghost use Rattle.spacetree.specs.Fields.{IsFieldOn};
ghost use Rattle.tree_automaton.specs.AtRest.{StandsFor};

use crate::grids::{field_of, opened};
use crate::showing::expect_one;
use crate::trees::{expect_cut, expect_refused, keys_of, raise};
use curve_cuts::Keys;
use field_report::Traffic;
use peano_keys::{Dim, State};
use showing_sweep::{Shown, show_tree};
use spacetree::{Field, Grid, Row};
use std::alloc::{AllocError, Global};
use std::process::Abort;
use tree_automaton::TreeStore;
use vertex_stacks::{Kind, SweepNote};

// The cells of level 1 of the plane with their values, backward along the curve.
const NINE: [(u32, u32, i64); 9] = [
    (2, 2, 0),
    (2, 1, 0),
    (2, 0, 0),
    (1, 0, 0),
    (1, 1, 7),
    (1, 2, 0),
    (0, 2, 0),
    (0, 1, 0),
    (0, 0, 100),
];

// Shows a store that stands for a grid and a field, or gathers its rows.
fn show(
    alloc: Global,
    store: &mut TreeStore,
    _grid: &Grid,
    _field: &Field,
    keys: &Keys,
    kind: Kind,
) -> Result<(SweepNote, Shown), AllocError>
    requires cut { IsCutGrid (cuts_of keys.now) _grid.now }
    requires depth { keys.now.depth ≡ 2 }
    requires alone { (cuts_of keys.now).trees ≡ 1 }
    requires field { IsFieldOn 1 _grid.now _field.now }
    requires stands { StandsFor 2
        (range_of (cuts_of keys.now) 0) 0 store.old.dir _grid.now _field.now store.old }
    requires kind { IsGathering kind }
{
    show_tree(alloc, store, keys, 1, kind)
}

// Rows are those of a list, in its order.
fn expect_nine(rt: &impl Abort, rows: &[Row]) {
    assert!(rt; rows.len() == 9);
    for (row, (first, second, value)) in rows.iter().zip(&NINE) {
        assert_eq!(rt; row.key.level, 1);
        assert_eq!(rt; row.key.x, [*first, *second, 0]);
        assert_eq!(rt; row.value, State::one(*value));
    }
}

// Rows are as many as a grid has leaves, each with the leaf's state.
fn expect_rows(rt: &impl Abort, rows: &[Row], grid: &Grid, field: &Field) {
    assert_eq!(rt; rows.len() as u64, grid.leaf_count());
    for row in rows {
        assert_eq!(rt; field.get(&row.key), Some(row.value));
    }
}

// A tree's counts: cells, stored, pushes, hanging, enclave and skeleton leaves. One tree sends nothing.
fn traffic_of([cells, stored, pushes, hanging, enclave, skeleton]: [u64; 6]) -> Traffic {
    Traffic {
        tree: 0,
        cells,
        stored,
        pushes,
        hanging,
        enclave,
        skeleton,
        sent: 0,
    }
}

// Shows a tree that has all, or gathers its rows, and compares its rows, its traffic and its note.
pub(crate) fn show_rows(
    rt: &impl Abort,
    alloc: Global,
    store: &mut TreeStore,
    grid: &Grid,
    field: &Field,
    keys: &Keys,
    kind: Kind,
    want: [u64; 6],
) -> Result<Vec<Row>, AllocError>
    requires cut { IsCutGrid (cuts_of keys.now) grid.now }
    requires depth { keys.now.depth ≡ 2 }
    requires alone { (cuts_of keys.now).trees ≡ 1 }
    requires field { IsFieldOn 1 grid.now field.now }
    requires stands { StandsFor 2
        (range_of (cuts_of keys.now) 0) 0 store.old.dir grid.now field.now store.old }
    requires kind { IsGathering kind }
{
    let before = store.tale();
    let (note, shown) = match show(alloc, store, grid, field, keys, kind) {
        Ok(shown) => shown,
        Err(refused) => {
            expect_refused(rt, store, &before);
            return Err(refused);
        }
    };
    assert_eq!(rt; shown.traffic, traffic_of(want));
    assert_eq!(rt; note.kind(), kind);
    assert_eq!(rt;
        [note.taken(), note.put(), note.pushed()],
        [want[1], want[1], want[2]]
    );
    expect_rows(rt, &shown.rows, grid, field);
    Ok(shown.rows)
}

// Raises a tree that has all, and shows it, or gathers its rows.
fn compare_rows(
    rt: &impl Abort,
    alloc: Global,
    dim: Dim,
    centre: bool,
    kind: Kind,
    want: [u64; 6],
) -> Result<Vec<Row>, AllocError>
    requires { IsGathering kind }
{
    let Ok(grid) = opened(alloc, dim, 1, centre) else {
        return Err(AllocError);
    };
    let field = field_of(alloc, &grid)?;
    let keys = keys_of(rt, alloc, &grid, 1)?;
    expect_one(rt, &keys);
    expect_cut(rt, &grid, &keys);
    let (mut store, _) = raise(rt, alloc, &grid, &field, &keys, 0)?;
    show_rows(rt, alloc, &mut store, &grid, &field, &keys, kind, want)
}

// The traffic of nine leaves, of the refined centre, shown and gathered before a cut, and of both in space.
#[test]
fn a_raised_tree_has_rows_and_traffic(rt: HostRuntime) -> Result<(), AllocError> {
    let alloc = rt.alloc();
    let nine = [10, 20, 20, 0, 9, 0];
    let rows = compare_rows(&rt, alloc, Dim::Two, false, Kind::Show, nine)?;
    expect_nine(&rt, &rows);
    let refined = [19, 24, 32, 20, 1, 16];
    compare_rows(&rt, alloc, Dim::Two, true, Kind::Show, refined)?;
    compare_rows(&rt, alloc, Dim::Two, true, Kind::Recut, refined)?;
    let cubes = [28, 72, 152, 0, 27, 0];
    compare_rows(&rt, alloc, Dim::Three, false, Kind::Show, cubes)?;
    let refined_cube = [55, 80, 208, 152, 1, 52];
    compare_rows(&rt, alloc, Dim::Three, true, Kind::Show, refined_cube)?;
    Ok(())
}
