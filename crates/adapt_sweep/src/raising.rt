//! The visitor of raising sweeps.
ghost use Rattle.std.specs.Prelude.{◌≡◌, false, IfSome};
ghost use Rattle.peano_keys.specs.Cell.{IsCell};
ghost use Rattle.peano_keys.specs.Vertex.{IsVertex};
ghost use Rattle.tree_automaton.specs.declared.kinds.Serves.TheVariants.{Raising};
ghost use Rattle.tree_automaton.specs.Promises.{IsViewIn};
ghost use Rattle.adapt_sweep.specs.Raises.{source_of, IsOfDim, IsRaisedSlot, IsRaisedRecord, IsRaisedCorner, IsRaisedView};
ghost use Rattle.adapt_sweep.specs.Raising.{Raises, LeavesAsIs};

use crate::own::{is_own, status, value};
use crate::raise::Raise;
use peano_keys::{CellKey, adjacent, corner_count};
use peano_records::{CellView, Corner, Slot, Status, Stored};
use std::alloc::AllocError;
use tree_automaton::Visitor;

impl<'a> Raise<'a> {
    // The slot of a position, by the grid and the field.
    fn raised(&self, position: Option<CellKey>, slot: Slot) -> Slot
        requires { IfSome position (λ c. IsCell self.now.grid.now.dim c) }
        ensures { IsRaisedSlot (source_of self.now) position slot result }
    {
        let Some(cell) = position else {
            return Slot {
                status: Status::Outside,
                ..slot
            };
        };
        let status = status(self.grid.is_refined(&cell));
        if !is_own(self.keys, self.tree, cell) {
            return Slot { status, ..slot };
        }
        Slot {
            status,
            value: value(self.grid, self.field, cell),
            ..slot
        }
    }

    // Raises a record: the slot of each position.
    fn raise_record(&self, stored: &mut Stored)
        requires { IsVertex self.now.grid.now.dim stored.old.key }
        ensures { IsRaisedRecord (source_of self.now) stored.old stored.new }
    {
        let key = stored.key();
        let dim = self.grid.dim();
        for k in 0..corner_count(dim) {
            let slot = self.raised(adjacent(dim, key, k), stored.slot(k));
            stored.set(k, slot);
        }
    }

    // Raises a corner, where it is a vertex.
    fn raise_corner(&self, corner: &mut Corner)
        requires { IsOfDim self.now.grid.now.dim corner.old }
        ensures { IsRaisedCorner (source_of self.now) corner.old corner.new }
    {
        if let Corner::Vertex(stored) = corner {
            self.raise_record(stored);
        }
    }

    // Raises all corners of a view.
    fn raise_view(&self, cell: &mut CellView)
        requires { IsViewIn self.now.grid.now.dim cell.old }
        ensures { IsRaisedView (source_of self.now) cell.old cell.new }
    {
        for n in 0..8 {
            self.raise_corner(&mut cell.corners[n]);
        }
    }
}

impl<'a> Visitor for Raise<'a> {
    ghost meaning = { λ r. record {
      serves = Raising;
      dim = r.grid.now.dim;
      new_grid = r.grid.now;
      may_want = false;
      loan = 0;
    } };

    ghost entered = { Raises };

    ghost left = { LeavesAsIs };

    fn refined_after(&mut self, cell: &CellView) -> bool {
        self.grid.is_refined(&cell.key)
    }

    fn enter(&mut self, cell: &mut CellView) -> Result<(), AllocError> {
        self.raise_view(cell);
        Ok(())
    }

    fn leave(&mut self, _: &mut CellView) -> Result<(), AllocError> {
        Ok(())
    }
}
