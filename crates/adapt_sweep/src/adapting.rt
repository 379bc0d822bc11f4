//! The visitor of adaptation sweeps.
ghost use Rattle.std.specs.Prelude.{◌≡◌, ◌<◌, true, false};
ghost use Rattle.peano_keys.specs.Dim.{corners};
ghost use Rattle.peano_keys.specs.Vertex.{home_of, slot_from};
ghost use Rattle.peano_records.specs.Tells.{corner_at, slot_tells};
ghost use Rattle.curve_cuts.specs.Keys.{cuts_of};
ghost use Rattle.tree_automaton.specs.declared.kinds.Serves.TheVariants.{Adapting};
ghost use Rattle.tree_automaton.specs.Promises.{IsViewIn};
ghost use Rattle.tree_automaton.specs.Views.{value_in};
ghost use Rattle.adapt_sweep.specs.Adapts.{Adapts, IsAdaptedView, corner_tells, refined_next, value_next, written};

use crate::adapt::{Adapt, NewGrid};
use crate::own::{is_own, status};
use peano_keys::{Dim, State, corner_count, home_corner, slot_of};
use peano_records::{CellView, Corner, Intent, Slot, Status};
use std::alloc::AllocError;
use tree_automaton::Visitor;

// Whether a slot tells that its cell is refined in the new grid.
fn tells_refined(slot: Slot) -> bool
    ensures { result ≡ slot_tells true slot }
{
    match slot.intent {
        Intent::Stay => matches!(slot.status, Status::Refined),
        Intent::Split => true,
        Intent::Merge => false,
    }
}

// Whether a slot of a corner tells so.
fn corner_tells(corner: &Corner, k: u32) -> bool
    requires { k < 8 }
    ensures { result ≡ corner_tells k corner.now }
{
    match corner {
        Corner::Vertex(stored) => tells_refined(stored.slot(k)),
        Corner::Hanging(_) | Corner::Beyond => false,
    }
}

// The value in a slot of a corner.
fn value_in(corner: &Corner, dim: Dim, n: u32) -> State
    requires { n < corners dim }
    ensures { result ≡ value_in dim n corner.now }
{
    match corner {
        Corner::Vertex(stored) => stored.slot(slot_of(dim, n)).value,
        Corner::Hanging(_) | Corner::Beyond => State::one(0),
    }
}

// Whether the cell of a view is refined in the new grid: its home corner tells, and no cell that is new is.
fn refined_next(dim: Dim, cell: &CellView) -> bool
    requires { IsViewIn dim cell.now }
    ensures { result ≡ refined_next dim cell.now }
{
    if cell.was.is_none() {
        return false;
    }
    let home = home_corner(dim, cell.key);
    corner_tells(&cell.corners[home as usize], slot_of(dim, home))
}

// The value that the cell of a view takes over: its own at its home corner, or its parent's where it is new.
fn value_next(dim: Dim, cell: &CellView) -> State
    requires { IsViewIn dim cell.now }
    ensures { result ≡ value_next dim cell.now }
{
    if cell.was.is_none() {
        return cell.carried;
    }
    let home = home_corner(dim, cell.key);
    value_in(&cell.corners[home as usize], dim, home)
}

// Writes status and value into one slot of a corner, where it is a vertex.
fn write(corner: &mut Corner, k: u32, status: Status, value: State)
    requires { k < 8 }
    ensures { corner.new ≡ written k status value corner.old }
{
    if let Corner::Vertex(stored) = corner {
        let slot = stored.slot(k);
        stored.set(
            k,
            Slot {
                status,
                value,
                ..slot
            },
        );
    }
}

// Writes the cell's status in the new grid and its value into its slots at all its corners.
fn adapt_view(dim: Dim, cell: &mut CellView)
    requires { IsViewIn dim cell.old }
    ensures { IsAdaptedView dim cell.old cell.new }
{
    let status = status(refined_next(dim, cell));
    let value = value_next(dim, cell);
    for n in 0..corner_count(dim) {
        write(
            &mut cell.corners[n as usize],
            slot_of(dim, n),
            status,
            value,
        );
    }
}

impl<'a, N: NewGrid> Adapt<'a, N> {
    // Adapts the view of a cell that the tree owns.
    fn adapt(&self, cell: &mut CellView)
        requires { IsViewIn N.grid.dim cell.old }
        ensures { Adapts (cuts_of self.now.keys.now) self.now.tree cell.old cell.new }
    {
        if is_own(self.keys, self.tree, cell.key) {
            adapt_view(self.keys.dim(), cell);
        }
    }
}

impl<'a, N: NewGrid> Visitor for Adapt<'a, N> {
    ghost meaning = { λ a. record {
      serves = Adapting;
      dim = N.grid.dim;
      new_grid = N.grid;
      may_want = false;
      loan = 0;
    } };

    ghost entered = { λ a v w b. (b ≡ a) × Adapts (cuts_of a.keys.now) a.tree v w };

    ghost left = { λ a v w b. (b ≡ a) × (w ≡ v) };

    fn refined_after(&mut self, cell: &CellView) -> bool {
        refined_next(self.keys.dim(), cell)
    }

    fn enter(&mut self, cell: &mut CellView) -> Result<(), AllocError> {
        self.adapt(cell);
        Ok(())
    }

    fn leave(&mut self, _: &mut CellView) -> Result<(), AllocError> {
        Ok(())
    }
}
