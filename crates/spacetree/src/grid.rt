//! Grids: sets of refined cells.
ghost use Rattle.std.specs.Prelude.{◌≡◌, ◌<◌, ◌≤◌, true, IfOk, IfErr, OnOk, IsTrue, ◌↔◌};
ghost use Rattle.spacetree.specs.Digits.{HasLeavesOf, HasLeavesUnder, IsKept};
ghost use Rattle.peano_keys.specs.Cell.{IsCell};
ghost use Rattle.peano_keys.specs.Grid.{IsGrid, has_cell, is_refined};
ghost use Rattle.spacetree.specs.Counts.{IsServedGrid, cells_of, leaves_of};
ghost use Rattle.std.specs.FinSet as set;
ghost use Rattle.solver_api.specs.Step.{IsLeafOf};
ghost use Rattle.spacetree.specs.Leaves.{IsCellOf, ListsCells, ListsLeaves};
ghost use Rattle.spacetree.specs.Build.{IsShape, BuildFails};
ghost use Rattle.spacetree.specs.Opening.{Opens};

use crate::build::refined_cells;
use crate::cells::CellSet;
use crate::counts::cells_with;
use crate::digits::nth_digits;
use crate::fault::BuildFault;
use crate::limits::MOST_CELLS;
use crate::shape::Shape;
use peano_keys::{CellKey, Dim, child, child_count, is_cell, parent, root};
use std::alloc::{AllocError, Global};
use std::marker::Model;

/// A grid: its dimension and its set of refined cells. It is of depth at most 12 and has at most 200,000 cells.
#[derive(Drop)]
pub struct Grid {
    dim: Dim,
    refined: CellSet,
}

impl Model for Grid {
    ghost use Rattle.peano_keys.specs.Grid.{Spacetree, coded_spacetree};
    ghost use Rattle.spacetree.specs.Counts.{IsServedGrid};

    ghost Value = { Spacetree };

    ghost coded = { coded_spacetree };

    ghost view = { λ g. record { dim = g.dim; refined = g.refined } };

    ghost invariant = { λ g. IsServedGrid (record { dim = g.dim; refined = g.refined }) };
}

impl Grid {
    /// The opening grid of a shape: the cells of the levels below its base are refined, and those that its zones refine.
    /// It is refused where that grid has more than 200,000 cells. A zone may name any number of cells.
    pub fn build(alloc: Global, shape: &Shape) -> Result<Grid, BuildFault>
        requires { IsShape shape.now }
        ensures opening { IfOk result (λ grid. Opens shape.now grid) }
        ensures grid { IfOk result (λ grid. IsGrid shape.now.depth grid) }
        ensures served { IfOk result (λ grid. IsGrid 12 grid) }
        ensures small { IfOk result (λ grid. cells_of grid ≤ MOST_CELLS) }
        ensures fault { IfErr result (BuildFails shape.now) }
    {
        let refined = refined_cells(alloc, shape)?;
        Ok(Grid {
            dim: shape.dim,
            refined,
        })
    }

    /// The number of axes.
    pub fn dim(&self) -> Dim
        ensures { result ≡ self.now.dim }
    {
        self.dim
    }

    /// Whether a cell is refined.
    pub fn is_refined(&self, key: &CellKey) -> bool
        ensures { result ≡ is_refined self.now key.now }
    {
        self.refined.contains(key)
    }

    /// Whether a key is a cell of the grid.
    pub fn is_cell(&self, key: &CellKey) -> bool
        ensures { IsTrue result ↔ IsCellOf self.now key.now }
    {
        is_cell(self.dim(), key) && self.has_cell(key)
    }

    /// Whether a key is a leaf of the grid.
    pub fn is_leaf(&self, key: &CellKey) -> bool
        ensures { IsTrue result ↔ IsLeafOf self.now key.now }
    {
        self.is_cell(key) && !self.is_refined(key)
    }

    // Whether a cell of the domain is one of the grid.
    pub(crate) fn has_cell(&self, key: &CellKey) -> bool
        requires { IsCell self.now.dim key.now }
        ensures { result ≡ has_cell self.now key.now }
    {
        key.level == 0 || self.is_refined(&parent(*key))
    }

    /// How many cells there are: the root, and nine or 27 children of each refined one.
    pub fn cell_count(&self) -> u64
        ensures value { result ≡ cells_of self.now }
        ensures limit { result ≤ MOST_CELLS }
    {
        cells_with(self.dim, &self.refined)
    }

    /// How many leaves there are.
    pub fn leaf_count(&self) -> u64
        ensures { result ≡ leaves_of self.now }
    {
        self.cell_count() - self.refined.len()
    }

    /// The leaves, in key order.
    pub fn leaves(&self, alloc: Global) -> Result<Vec<CellKey>, AllocError>
        ensures { IfOk result (λ cells. ListsLeaves self.now cells.items) }
    {
        self.found_leaves(alloc)
    }

    // The leaves, for those who need to know besides that each grid is one that the engine serves.
    pub(crate) fn found_leaves(&self, alloc: Global) -> Result<Vec<CellKey>, AllocError>
        ensures leaves { IfOk result (λ cells. ListsLeaves self.now cells.items) }
        ensures served { OnOk result (IsServedGrid self.now) }
    {
        let mut found = CellSet::new(alloc);
        self.add_leaf(&mut found, root())?;
        let parents = self.refined_cells(alloc)?;
        for parent in parents.as_slice() {
            self.add_leaves(&mut found, *parent)?;
        }
        found.cells(alloc)
    }

    // The refined cells, in key order.
    pub(crate) fn refined_cells(&self, alloc: Global) -> Result<Vec<CellKey>, AllocError>
        ensures cells { IfOk result (λ cells. ListsCells self.now.refined cells.items) }
        ensures served { IsServedGrid self.now }
    {
        self.refined.cells(alloc)
    }

    // Adds the leaves among the children of a refined cell.
    fn add_leaves(&self, found: &mut CellSet, parent: CellKey) -> Result<(), AllocError>
        requires cell { IsCell self.now.dim parent }
        requires level { parent.level < 12 }
        requires refined { is_refined self.now parent ≡ true }
        requires within { HasLeavesOf self.now found.old }
        ensures within { OnOk result (HasLeavesOf self.now found.new) }
        ensures kept { OnOk result (IsKept found.old found.new) }
        ensures children { OnOk result (HasLeavesUnder self.now found.new parent) }
    {
        let dim = self.dim();
        for n in 0..child_count(dim) {
            self.add_leaf(found, child(parent, nth_digits(dim, n)))?;
        }
        Ok(())
    }

    // Adds a cell of the grid where it is a leaf.
    fn add_leaf(&self, found: &mut CellSet, key: CellKey) -> Result<(), AllocError>
        requires cell { IsCell self.now.dim key }
        requires there { has_cell self.now key ≡ true }
        requires within { HasLeavesOf self.now found.old }
        ensures within { OnOk result (HasLeavesOf self.now found.new) }
        ensures kept { OnOk result (IsKept found.old found.new) }
        ensures added { OnOk result (IsLeafOf self.now key → set.contains found.new key ≡ true) }
    {
        if self.is_refined(&key) {
            return Ok(());
        }
        found.insert(key)?;
        Ok(())
    }

    // The grid of some refined cells.
    pub(crate) fn of(dim: Dim, refined: CellSet) -> Grid
        requires { IsServedGrid (record { dim = dim; refined = refined }) }
        ensures { result ≡ record { dim = dim; refined = refined } }
    {
        Grid { dim, refined }
    }

    // The grid again.
    pub(crate) fn copied(&self) -> Result<Grid, AllocError>
        ensures grid { IfOk result (λ grid. grid ≡ self.now) }
        ensures room { IfOk result (λ grid. cells_of grid ≤ MOST_CELLS) }
    {
        Ok(Grid {
            dim: self.dim,
            refined: self.refined.copied()?,
        })
    }
}
