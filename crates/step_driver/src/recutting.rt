//! Trees that are cut anew: the rows of all leaves are gathered, and trees with equal shares of the grid are raised from them.
ghost use Rattle.std.specs.Prelude.{◌≡◌, ◌≤◌, ℕ, IfOk, OnErr, map};
ghost use Rattle.peano_keys.specs.Grid.{Spacetree};
ghost use Rattle.peano_keys.specs.Field.{States};
ghost use Rattle.curve_cuts.specs.Keys.{cuts_of};
ghost use Rattle.spacetree.specs.declared.row.Row.{Row};
ghost use Rattle.step_driver.specs.Worlds.{AreAt};
ghost use Rattle.step_driver.specs.Recutting.{AreRowsIn, IsGathered, AreCutAnew, AreNotCut};

use crate::keys::equal_keys;
use crate::raising::plant;
use crate::showing::show_trees;
use curve_cuts::Keys;
use peano_keys::{CellKey, Dim, State};
use spacetree::{Field, Grid, LeavesFault, Row};
use std::alloc::{AllocError, Global};
use std::thread::Threads;
use tree_automaton::TreeStore;
use vertex_stacks::laws::tale_of_notes_grows;
use vertex_stacks::{Kind, SweepNote};

/// All trees after they were cut anew: their keys, and their stores, by number.
#[derive(Drop)]
pub(crate) struct NewTrees {
    pub(crate) keys: Keys,
    pub(crate) stores: Vec<TreeStore>,
}

/// A grid and its field, as their rows tell them.
#[derive(Drop)]
pub(crate) struct Gathered {
    pub(crate) grid: Grid,
    pub(crate) field: Field,
}

// The leaves of rows, in their order.
fn leaves_in(alloc: Global, rows: &[Row]) -> Result<Vec<CellKey>, AllocError>
    ensures { IfOk result (λ leaves. leaves.items ≡ map (λ (row : Row). row.key) rows.now) }
{
    rows.iter().map(|row| row.key).collect(alloc)
}

// The states of rows, in their order.
fn states_in(alloc: Global, rows: &[Row]) -> Result<Vec<State>, AllocError>
    ensures { IfOk result (λ states. states.items ≡ map (λ (row : Row). row.value) rows.now) }
{
    rows.iter().map(|row| row.value).collect(alloc)
}

// The grid and the field that rows in key order are of.
fn gather(alloc: Global, dim: Dim, depth: u32, rows: &[Row]) -> Result<Gathered, AllocError>
    requires depth { depth ≤ 12 }
    requires rows { (g : Spacetree) × (f : States) × AreRowsIn dim depth g f rows.now }
    ensures { IfOk result (IsGathered dim depth rows.now) }
{
    let leaves = leaves_in(alloc, rows)?;
    let states = states_in(alloc, rows)?;
    let field = Field::of_states(alloc, leaves.as_slice(), states.as_slice())?;
    match Grid::of_leaves(alloc, dim, depth, leaves.as_slice()) {
        Ok(grid) => Ok(Gathered { grid, field }),
        Err(LeavesFault::NoMemory) => Err(AllocError),
        Err(LeavesFault::NotLeaves) => unreachable!(),
    }
}

/// Cuts all trees anew after a step: a sweep of each gathers its rows, and its store is given up; there are as many trees
/// after it, with equal shares of the grid, at the same grid and field. All sweeps are noted. May want memory alone.
pub(crate) fn cut_anew<R: Threads + Sync>(
    rt: &R,
    alloc: Global,
    stores: Vec<TreeStore>,
    notes: &mut Vec<SweepNote>,
    keys: &Keys,
    step: u32,
) -> Result<NewTrees, AllocError>
    requires { (parts : ℕ) × (cells : ℕ) × (g : Spacetree) × (f : States)
        × AreAt parts (cuts_of keys.now) stores.items notes.old.items cells g f }
    ensures cut { IfOk result
        (λ trees. (parts cells : ℕ) (g : Spacetree) (f : States)
        → AreAt parts (cuts_of keys.now) stores.items notes.old.items cells g f
        → AreCutAnew parts keys.now g f step cells notes.old.items notes.new.items trees) }
    ensures stopped { OnErr result
        ((parts cells : ℕ) (g : Spacetree) (f : States)
        → AreAt parts (cuts_of keys.now) stores.items notes.old.items cells g f
        → AreNotCut keys.now g step notes.old.items notes.new.items) }
{
    tale_of_notes_grows();
    let shown = show_trees(rt, alloc, stores, notes, keys, step, Kind::Recut)?.shown;
    let gathered = gather(alloc, keys.dim(), keys.depth(), shown.rows.as_slice())?;
    let cut = equal_keys(alloc, keys.depth(), &gathered.grid, keys.trees())?;
    let forest = plant(rt, alloc, &gathered.grid, &gathered.field, &cut, step)?;
    notes.extend_from_slice(forest.notes.as_slice())?;
    Ok(NewTrees {
        keys: cut,
        stores: forest.stores,
    })
}
