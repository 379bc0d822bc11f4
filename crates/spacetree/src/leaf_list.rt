//! Grids from the lists of their leaves.
ghost use Rattle.std.specs.Prelude.{◌≤◌, IfOk, IfErr, OnOk};
ghost use Rattle.peano_keys.specs.Cell.{IsCellKey};
ghost use Rattle.peano_keys.specs.Grid.{IsGrid};
ghost use Rattle.spacetree.specs.LeafLists.{IsGridOf, IsOneGridOf, LeavesFail, IsLeastWith, CellFails, IsJoined, AreAbove, grid_with};

use crate::cells::CellSet;
use crate::fault::LeavesFault;
use crate::grid::Grid;
use crate::limits::MOST_CELLS;
use peano_keys::{CellKey, Dim, child_count, is_cell, parent};
use std::alloc::{AllocError, Global};

// Adds the cells above a cell, those that are not there yet.
fn add_above(refined: &mut CellSet, cell: CellKey) -> Result<(), AllocError>
    requires { IsCellKey cell }
    ensures { OnOk result (IsLeastWith refined.old cell refined.new) }
{
    if cell.level == 0 {
        return Ok(());
    }
    let above = parent(cell);
    if refined.contains(&above) {
        return Ok(());
    }
    add_above(refined, above)?;
    refined.insert(above)?;
    Ok(())
}

// Adds the cells above a key. It is refused where no grid of the depth, up to the most cells, has the key and the cells so far.
fn join(refined: &mut CellSet, dim: Dim, depth: u32, key: &CellKey) -> Result<(), LeavesFault>
    requires { IsGrid depth (grid_with dim refined.old) }
    ensures joined { OnOk result (IsJoined dim depth refined.old key.now refined.new) }
    ensures fault { IfErr result (CellFails dim depth refined.old key.now) }
{
    if key.level > depth {
        return Err(LeavesFault::NotLeaves);
    }
    if !is_cell(dim, key) {
        return Err(LeavesFault::NotLeaves);
    }
    add_above(refined, *key)?;
    if refined.len() > (MOST_CELLS - 1) / u64::from(child_count(dim)) {
        return Err(LeavesFault::NotLeaves);
    }
    Ok(())
}

// The cells above those of a list.
fn all_above(
    alloc: Global,
    dim: Dim,
    depth: u32,
    leaves: &[CellKey],
) -> Result<CellSet, LeavesFault>
    ensures above { IfOk result (AreAbove dim depth leaves.now) }
    ensures fault { IfErr result (LeavesFail dim depth leaves.now) }
{
    let mut refined = CellSet::new(alloc);
    for leaf in leaves {
        join(&mut refined, dim, depth, leaf)?;
    }
    Ok(refined)
}

impl Grid {
    /// The grid whose leaves a list is, as `leaves` gives them: in key order, each once. It is refused exactly where the
    /// list is not that of the leaves of a grid of this dimension and depth that has at most 200,000 cells.
    pub fn of_leaves(
        alloc: Global,
        dim: Dim,
        depth: u32,
        leaves: &[CellKey],
    ) -> Result<Grid, LeavesFault>
        requires depth { depth ≤ 12 }
        ensures grid { IfOk result (λ grid. IsGridOf dim depth leaves.now grid) }
        ensures one { IfOk result (λ grid. IsOneGridOf dim leaves.now grid) }
        ensures fault { IfErr result (LeavesFail dim depth leaves.now) }
    {
        let refined = all_above(alloc, dim, depth, leaves)?;
        let grid = Grid::of(dim, refined);
        let found = grid.leaves(alloc)?;
        if found.as_slice() != leaves {
            return Err(LeavesFault::NotLeaves);
        }
        Ok(grid)
    }
}
