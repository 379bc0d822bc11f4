//! The next grid: leaves split and refined cells merge, as they are marked.
ghost use Rattle.std.specs.Prelude.{◌≡◌, ◌↔◌, ◌+◌, ◌<◌, ◌≤◌, ◌^◌, true, IfOk, IfErr, OnOk, IsTrue};
ghost use Rattle.std.specs.FinSet as set;
ghost use Rattle.peano_keys.specs.declared.cell.CellKey.{CellKey};
ghost use Rattle.peano_keys.specs.declared.side.Mark.{Mark};
ghost use Rattle.peano_keys.specs.Cell.{IsCell};
ghost use Rattle.peano_keys.specs.Grid.{IsGrid};
ghost use Rattle.peano_keys.specs.Next.{IsNextGrid};
ghost use Rattle.spacetree.specs.Counts.{cells_of};
ghost use Rattle.spacetree.specs.Marked.{AreMarked, AreServedMarks, HasChildren, IsAddedWhere, NextFails};

use crate::cells::CellSet;
use crate::counts::cells_with;
use crate::digits::nth_digits;
use crate::fault::EvalFault;
use crate::grid::Grid;
use crate::limits::MOST_CELLS;
use crate::update::Update;
use peano_keys::{CellKey, Dim, child, child_count};
use std::alloc::{AllocError, Global};

// Whether a set has all children of a cell.
fn has_children(dim: Dim, cells: &CellSet, key: CellKey) -> bool
    requires cell { IsCell dim key }
    requires room { key.level < 12 }
    ensures { IsTrue result ↔ HasChildren dim cells.now key }
{
    for n in 0..child_count(dim) {
        if !cells.contains(&child(key, nth_digits(dim, n))) {
            return false;
        }
    }
    true
}

// Adds a refined cell, unless all its children are to be coarsened.
fn keep(refined: &mut CellSet, dim: Dim, coarsen: &CellSet, key: CellKey) -> Result<(), AllocError>
    requires cell { IsCell dim key }
    requires room { key.level < 12 }
    ensures { OnOk result
        (IsAddedWhere (HasChildren dim coarsen.now key → ⊥) key refined.old refined.new) }
{
    if has_children(dim, coarsen, key) {
        return Ok(());
    }
    refined.insert(key)
}

// The refined cells of the next grid: the leaves that split, and the refined cells that do not merge.
fn next_refined(
    alloc: Global,
    grid: &Grid,
    refine: &CellSet,
    coarsen: &CellSet,
) -> Result<CellSet, AllocError>
    requires { IsGrid 12 grid.now }
    ensures next { IfOk result
        (λ cells. (marks : CellKey → Mark) → AreMarked grid.now marks refine.now coarsen.now
        → IsNextGrid grid.now marks (record { dim = grid.now.dim; refined = cells })) }
    ensures count { IfOk result
        (λ cells. set.len cells ≤ set.len refine.now + set.len grid.now.refined) }
{
    let dim = grid.dim();
    let parents = grid.refined_cells(alloc)?;
    let mut refined = refine.copied()?;
    for parent in parents.as_slice() {
        keep(&mut refined, dim, coarsen, *parent)?;
    }
    Ok(refined)
}

// The next grid by the marks of all leaves, refused where it has too many cells.
pub(crate) fn next_grid(
    alloc: Global,
    grid: &Grid,
    update: &Update,
    step: u32,
) -> Result<Grid, EvalFault>
    requires grid { IsGrid 12 grid.now }
    requires room { cells_of grid.now ≤ MOST_CELLS }
    requires count { set.len update.now.refine ≤ 2 ^ 59 }
    requires marks { AreServedMarks grid.now update.now.refine update.now.coarsen }
    ensures ok { IfOk result
        (λ next. (marks : CellKey → Mark)
        → AreMarked grid.now marks update.now.refine update.now.coarsen
        → IsNextGrid grid.now marks next) }
    ensures room { IfOk result (λ next. cells_of next ≤ MOST_CELLS) }
    ensures err { IfErr result
        (λ fault. (marks : CellKey → Mark)
        → AreMarked grid.now marks update.now.refine update.now.coarsen
        → NextFails grid.now marks step fault) }
{
    let refined = next_refined(alloc, grid, &update.refine, &update.coarsen)?;
    let cells = cells_with(grid.dim(), &refined);
    if cells > MOST_CELLS {
        return Err(EvalFault::Crowded { step, cells });
    }
    Ok(Grid::of(grid.dim(), refined))
}
