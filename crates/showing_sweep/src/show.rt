//! The visitor of the showing sweep.
ghost use Rattle.std.specs.Prelude.{◌≡◌, ◌<◌, [], true, OnOk, IsOk};
ghost use Rattle.curve_cuts.specs.Keys.{cuts_of};
ghost use Rattle.tree_automaton.specs.declared.kinds.Serves.TheVariants.{Plain};
ghost use Rattle.tree_automaton.specs.Promises.{IsViewIn, Keeps, MayLeave};
ghost use Rattle.showing_sweep.specs.Shows.{ShowEnters, ShowLeaves, nothing_counted, show_meaning};

use crate::counts::CellCounts;
use crate::rows::row_in;
use curve_cuts::Keys;
use enclave_marks::is_enclave;
use peano_records::CellView;
use spacetree::Row;
use std::alloc::{AllocError, Global};
use std::marker::Model;
use step_sweeps::is_own_leaf;
use tree_automaton::Visitor;

/// Gathers the rows of the leaves that a tree owns, as they are entered, and counts the cells that it holds, as they are
/// left. Changes no view; takes memory for rows alone, so that no leave is refused.
#[derive(Drop)]
pub struct Show<'a> {
    keys: &'a Keys,
    tree: u32,
    rows: Vec<Row>,
    counts: CellCounts,
}

impl<'a> Model for Show<'a> {
    ghost use Rattle.std.specs.Prelude.{◌<◌};
    ghost use Rattle.curve_cuts.specs.Keys.{cuts_of};
    ghost use Rattle.showing_sweep.specs.Shows.{ShowWork};

    ghost Value = { ShowWork };

    ghost view = { λ s. record {
      keys = s.keys.now;
      tree = s.tree;
      rows = s.rows.items;
      counts = s.counts;
    } };

    ghost invariant = { λ s. s.tree < (cuts_of s.keys.now).trees };
}

impl<'a> Show<'a> {
    /// A visitor that shows one of the trees of some keys.
    pub fn new(alloc: Global, keys: &'a Keys, tree: u32) -> Show<'a>
        requires { tree < (cuts_of keys.now).trees }
        ensures { result
            ≡ record { keys = keys.now; tree = tree; rows = []; counts = nothing_counted } }
    {
        Show {
            keys,
            tree,
            rows: Vec::new(alloc),
            counts: CellCounts {
                cells: 0,
                hanging: 0,
                enclave: 0,
                skeleton: 0,
            },
        }
    }

    // What was counted.
    pub(crate) fn counts(&self) -> CellCounts
        ensures { result ≡ self.now.counts }
    {
        self.counts
    }

    // The rows that were gathered.
    pub(crate) fn into_rows(self) -> Vec<Row>
        ensures { result.items ≡ self.entry.rows }
    {
        self.rows
    }
}

impl<'a> Visitor for Show<'a> {
    ghost meaning = { show_meaning };

    ghost entered = { ShowEnters };

    ghost left = { ShowLeaves };

    fn refined_after(&mut self, cell: &CellView) -> bool {
        matches!(cell.was, Some(true))
    }

    fn enter(&mut self, cell: &mut CellView) -> Result<(), AllocError> {
        if !is_own_leaf(self.keys, self.tree, cell) {
            return Ok(());
        }
        self.rows.push(row_in(self.keys.dim(), cell))?;
        Ok(())
    }

    // No leave is refused: the row of a leaf was gathered as it was entered.
    fn leave(&mut self, cell: &mut CellView) -> Result<(), AllocError>
        requires { IsViewIn (show_meaning self.old).dim cell.old }
        ensures keeps { Keeps cell.old cell.new }
        ensures slots { MayLeave Plain (show_meaning self.old).new_grid cell.old cell.new }
        ensures done { OnOk result (ShowLeaves self.old cell.old cell.new self.new) }
        ensures memory { IsOk result }
        ensures same { show_meaning self.new ≡ show_meaning self.old }
    {
        let counts = self.counts.with_cell(cell);
        if !is_own_leaf(self.keys, self.tree, cell) {
            self.counts = counts;
            return Ok(());
        }
        self.counts = counts.with_leaf(is_enclave(cell, self.keys, self.tree));
        Ok(())
    }
}
