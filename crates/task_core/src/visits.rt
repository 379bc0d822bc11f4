//! The visits of a tree, and what each of them has to do.
ghost use Rattle.std.specs.Prelude.{◌≡◌, ◌≤◌, ℕ, true, ◌∷◌, [], IfOk, OnOk};
ghost use Rattle.peano_keys.specs.Cell.{IsCell, parent_of, root as root_cell};
ghost use Rattle.peano_keys.specs.Grid.{has_cell, is_refined, IsGrid};
ghost use Rattle.solver_api.specs.Step.{IsLeafOf};
ghost use Rattle.spacetree.specs.Fields.{IsFieldOn};
ghost use Rattle.sweep_visits.specs.Visits.{visits_of};
ghost use Rattle.tree_automaton.specs.Sweep.{cell_visits};
ghost use Rattle.tree_automaton.specs.Sweeps.{visits_below, visits_rest};
ghost use Rattle.task_core.specs.Work.{IsServed};
ghost use Rattle.task_core.specs.Visits.{leaf_of, EntersWith, AreStops};
ghost use Rattle.task_core.specs.Tours.{cuts_in, plan_in, IsTour, ServedIn, Tours};

use crate::border::has_border;
use crate::stop::{Leaf, Stop};
use curve_cuts::Keys;
use peano_curve::{Direction, first_child, next_child};
use peano_keys::{CellKey, State, root};
use spacetree::{Field, Grid, sides};
use std::alloc::{AllocError, Global};

// What the visits of a tree are found from: the grid and its field, the keys of the trees, the tree, and the direction of
// the sweep.
#[derive(Clone, Copy)]
pub(crate) struct Tour<'a> {
    pub(crate) grid: &'a Grid,
    pub(crate) field: &'a Field,
    pub(crate) keys: &'a Keys,
    pub(crate) tree: u32,
    pub(crate) dir: Direction,
}

impl<'a> Tour<'a> {
    // A leaf with its state and its sides.
    fn leaf(&self, key: CellKey) -> Leaf
        requires cell { IsCell self.now.grid.now.dim key }
        ensures value { result ≡ leaf_of self.now.grid.now self.now.field.now key }
        ensures served { (n : ℕ) → IsGrid 12 self.now.grid.now
            → IsFieldOn n self.now.grid.now self.now.field.now → IsLeafOf self.now.grid.now key
            → IsServed n result }
    {
        Leaf {
            key,
            own: self.field.get(&key).unwrap_or(State::Single(0)),
            sides: sides(self.grid, self.field, key),
        }
    }

    // What the enter of a cell has to do.
    fn stop_at(&self, cell: CellKey) -> Stop
        requires tour { IsTour self.now }
        requires cell { IsCell self.now.grid.now.dim cell }
        requires there { has_cell self.now.grid.now cell ≡ true }
        ensures stop { EntersWith
            (cuts_in self.now) self.now.grid.now self.now.field.now self.now.tree cell result }
        ensures served { ServedIn self.now.grid.now self.now.field.now (result ∷ []) }
    {
        if self.grid.is_refined(&cell) {
            return Stop::Pass;
        }
        if !self.keys.owns(cell, self.tree) {
            return Stop::Pass;
        }
        let leaf = self.leaf(cell);
        if has_border(self.grid, self.keys, self.tree, cell) {
            return Stop::Compute(leaf);
        }
        Stop::Offer(leaf)
    }

    // Adds the visits of a cell and of all below it.
    #[cycle(tour)]
    fn add_cell(&self, cell: CellKey, stops: &mut Vec<Stop>) -> Result<(), AllocError>
        requires tour { IsTour self.now }
        requires cell { IsCell self.now.grid.now.dim cell }
        requires there { has_cell self.now.grid.now cell ≡ true }
        ensures { OnOk result
            (Tours self.now (cell_visits (plan_in self.now) cell) stops.old.items stops.new.items) }
    {
        if !self.keys.held(cell, self.tree) {
            return Ok(());
        }
        stops.push(self.stop_at(cell))?;
        self.add_below(cell, stops)?;
        stops.push(Stop::Pass)?;
        Ok(())
    }

    // Adds the visits of all below a cell.
    #[cycle(tour)]
    fn add_below(&self, cell: CellKey, stops: &mut Vec<Stop>) -> Result<(), AllocError>
        requires tour { IsTour self.now }
        requires cell { IsCell self.now.grid.now.dim cell }
        ensures { OnOk result
            (Tours self.now
            (visits_below (plan_in self.now) cell) stops.old.items stops.new.items) }
    {
        if !self.grid.is_refined(&cell) {
            return Ok(());
        }
        let child = first_child(self.grid.dim(), cell, self.dir);
        self.add_from(child, stops)
    }

    // Adds the visits of a child, of the siblings after it, and of all below them.
    #[cycle(tour)]
    fn add_from(&self, child: CellKey, stops: &mut Vec<Stop>) -> Result<(), AllocError>
        requires tour { IsTour self.now }
        requires cell { IsCell self.now.grid.now.dim child }
        requires below { 1 ≤ child.level }
        requires parent { is_refined self.now.grid.now (parent_of child) ≡ true }
        ensures { OnOk result
            (Tours self.now
            (visits_rest (plan_in self.now) child) stops.old.items stops.new.items) }
    {
        self.add_cell(child, stops)?;
        match next_child(self.grid.dim(), child, self.dir) {
            Some(next) => self.add_from(next, stops),
            None => Ok(()),
        }
    }

    // All visits of the sweep.
    pub(crate) fn stops(&self, alloc: Global) -> Result<Vec<Stop>, AllocError>
        requires { IsTour self.now }
        ensures stops { IfOk result
            (λ stops. AreStops (cuts_in self.now) self.now.grid.now self.now.field.now self.now.tree
            (visits_of (plan_in self.now)) stops.items) }
        ensures served { IfOk result
            (λ stops. ServedIn self.now.grid.now self.now.field.now stops.items) }
    {
        let mut stops = Vec::new(alloc);
        self.add_cell(root(), &mut stops)?;
        Ok(stops)
    }
}
