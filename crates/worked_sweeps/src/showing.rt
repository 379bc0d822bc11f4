//! Showing sweeps that run: what a visitor sees that looks at each cell and changes nothing.
ghost use Rattle.std.specs.Prelude.{◌≡◌};
ghost use Rattle.peano_keys.specs.Grid.{IsGrid};
ghost use Rattle.curve_cuts.specs.Cuts.{range_of};
ghost use Rattle.curve_cuts.specs.Keys.{cuts_of};
ghost use Rattle.tree_automaton.specs.AtRest.{StandsFor};

use crate::grids::{field_of, opened};
use crate::trees::{keys_of, raise};
use curve_cuts::Keys;
use peano_curve::Direction;
use peano_keys::{Dim, State};
use peano_records::{CellView, Corner};
use spacetree::{Field, Grid};
use std::alloc::{AllocError, Global};
use std::process::Abort;
use tree_automaton::{TreeStore, Visitor, sweep};
use vertex_stacks::{Kind, SweepNote};

// How many corners of a view are stored vertices, and how many hang.
fn corners_of(cell: &CellView) -> (u64, u64) {
    let mut counted: (u64, u64) = (0, 0);
    for corner in &cell.corners {
        match corner {
            Corner::Vertex(_) => counted.0 = counted.0.saturating_add(1),
            Corner::Hanging(_) => counted.1 = counted.1.saturating_add(1),
            Corner::Beyond => {}
        }
    }
    counted
}

// The value of the root's centre child, where a view is that cell's: its home corner is its first one.
fn centre_value(dim: Dim, cell: &CellView) -> Option<State> {
    let third = match dim {
        Dim::Two => 0,
        Dim::Three => 1,
    };
    let slot = match dim {
        Dim::Two => 3,
        Dim::Three => 7,
    };
    match &cell.corners[0] {
        Corner::Vertex(stored) if cell.key.level == 1 && cell.key.x == [1, 1, third] => {
            Some(stored.slot(slot).value)
        }
        _ => None,
    }
}

// Looks at the cells, and changes nothing.
#[derive(Drop)]
struct Watcher {
    dim: Dim,
    cells: u64,
    stored: u64,
    hanging: u64,
    centre: Option<State>,
}

impl Visitor for Watcher {
    ghost use Rattle.std.specs.Prelude.{◌≡◌, false};
    ghost use Rattle.tree_automaton.specs.declared.kinds.Serves.TheVariants.{Plain};
    ghost use Rattle.adapt_sweep.specs.Lone.{lone};

    ghost meaning = { λ a. record {
      serves = Plain;
      dim = a.dim;
      new_grid = lone;
      may_want = false;
      loan = 0;
    } };

    ghost entered = { λ a v w b. (b.dim ≡ a.dim) × (w ≡ v) };

    ghost left = { λ a v w b. (b ≡ a) × (w ≡ v) };

    fn refined_after(&mut self, _: &CellView) -> bool {
        false
    }

    fn enter(&mut self, cell: &mut CellView) -> Result<(), AllocError> {
        let (stored, hanging) = corners_of(cell);
        self.cells = self.cells.saturating_add(1);
        self.stored = self.stored.saturating_add(stored);
        self.hanging = self.hanging.saturating_add(hanging);
        self.centre = self.centre.or(centre_value(self.dim, cell));
        Ok(())
    }

    fn leave(&mut self, _: &mut CellView) -> Result<(), AllocError> {
        Ok(())
    }
}

// Shows a store that stands for a grid and a field to a watcher.
fn watch(
    store: &mut TreeStore,
    watcher: &mut Watcher,
    grid: &Grid,
    _field: &Field,
    _keys: &Keys,
) -> Result<SweepNote, AllocError>
    requires grid { IsGrid 2 grid.now }
    requires dim { watcher.old.dim ≡ grid.now.dim }
    requires stands { StandsFor 2
        (range_of (cuts_of _keys.now) 0) 0 store.old.dir grid.now _field.now store.old }
{
    sweep(store, watcher, 1, Kind::Show)
}

// There is one tree.
pub(crate) fn expect_one(rt: &impl Abort, keys: &Keys)
    ensures { (cuts_of keys.now).trees ≡ 1 }
{
    assert!(rt; keys.trees() == 1);
}

// What moved, when a tree was raised and then shown: vertices and pushes. It is at rest, to be read forward.
fn expect_moved(rt: &impl Abort, store: &TreeStore, note: &SweepNote, [stored, pushed]: [u64; 2]) {
    assert_eq!(rt;
        [note.taken(), note.put(), note.pushed()],
        [stored, stored, pushed]
    );
    let tale = store.tale();
    assert_eq!(rt; tale.sweeps, [1, 1, 0, 0, 0, 0]);
    assert_eq!(rt;
        [tale.taken, tale.put, tale.pushed],
        [stored, stored.saturating_mul(2), pushed.saturating_mul(2)]
    );
    assert!(rt; store.is_live() && matches!(store.direction(), Direction::Forward));
}

// What a watcher saw: cells, corners that are stored and corners that hang, and the value of the centre.
fn expect_seen(rt: &impl Abort, watcher: &Watcher, [cells, corners, hanging]: [u64; 3]) {
    assert_eq!(rt;
        [watcher.cells, watcher.stored, watcher.hanging],
        [cells, corners, hanging]
    );
    assert_eq!(rt; watcher.centre, Some(State::one(7)));
}

// Raises a tree that has all, shows it, and compares what moved and what was seen.
fn compare_shown(
    rt: &impl Abort,
    alloc: Global,
    dim: Dim,
    centre: bool,
    moved: [u64; 2],
    seen: [u64; 3],
) -> Result<(), AllocError> {
    let Ok(grid) = opened(alloc, dim, 1, centre) else {
        return Err(AllocError);
    };
    let field = field_of(alloc, &grid)?;
    let keys = keys_of(rt, alloc, &grid, 1)?;
    expect_one(rt, &keys);
    let (mut store, _) = raise(rt, alloc, &grid, &field, &keys, 0)?;
    let mut watcher = Watcher {
        dim,
        cells: 0,
        stored: 0,
        hanging: 0,
        centre: None,
    };
    let note = watch(&mut store, &mut watcher, &grid, &field, &keys)?;
    expect_moved(rt, &store, &note, moved);
    expect_seen(rt, &watcher, seen);
    Ok(())
}

// In the refined centre the two notes are: taken 0, put 24, pushed 32; taken 24, put 24, pushed 32.
#[test]
fn a_raised_tree_is_shown(rt: HostRuntime) -> Result<(), AllocError> {
    let alloc = rt.alloc();
    compare_shown(&rt, alloc, Dim::Two, false, [20, 20], [10, 40, 0])?;
    compare_shown(&rt, alloc, Dim::Two, true, [24, 32], [19, 56, 20])?;
    compare_shown(&rt, alloc, Dim::Three, true, [80, 208], [55, 288, 152])
}
