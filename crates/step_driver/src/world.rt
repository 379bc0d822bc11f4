//! The world.
ghost use Rattle.std.specs.Prelude.{◌≡◌, ◌-◌, ◌<◌, ◌≤◌, ◌^◌, true, IfOk, IfSome, length};
ghost use Rattle.peano_keys.specs.Grid.{IsGrid, Spacetree};
ghost use Rattle.peano_keys.specs.Field.{States};
ghost use Rattle.spacetree.specs.Fields.{IsFieldOn};
ghost use Rattle.curve_cuts.specs.Keys.{cuts_of};
ghost use Rattle.step_world.specs.Notes.{note_raised, by_trees};
ghost use Rattle.step_driver.specs.Notes.{recuts_in, sizes_of};
ghost use Rattle.step_driver.specs.Worlds.{IsAt};
ghost use Rattle.step_driver.specs.LeafCounts.{IsLeafCount, IsRowCount};
ghost use Rattle.step_driver.specs.Starts.{AreEqualKeys};
ghost use Rattle.step_driver.specs.Advances.{IsAdvanced, IsTaken, CutsInTurn};
ghost use Rattle.step_driver.specs.Showing.{ShowsWorld};
ghost use Rattle.step_sweeps.specs.Kernels.{kernel_by};

use crate::keys::equal_keys;
use crate::raising::{Forest, plant};
use crate::recutting::cut_anew;
use crate::showing::{Shown, show_trees};
use crate::size::leaves_among;
use crate::stepping::take_step;
use curve_cuts::Keys;
use solver_api::Solver;
use spacetree::{EvalFault as StepFault, Field, Grid};
use std::alloc::{AllocError, Global};
use std::marker::Model;
use std::mem;
use std::thread::Threads;
use task_pool::Gate;
use vertex_stacks::laws::tale_of_notes_grows;
use vertex_stacks::{Kind, SweepNote};

/// A grid and a field in the stores of 1 to 64 trees, with the solver that leads them from step to step, and whether trees
/// are cut anew after each so many steps. Contracts see these, the keys and the stores of the trees, the number of cells,
/// the step, the notes of all sweeps, and whether the world is live; the grid and the field are those that the stores stand
/// for.
#[derive(Drop)]
pub struct World<S: Solver> {
    solver: S,
    recut: Option<u32>,
    keys: Keys,
    forest: Forest,
    cells: u64,
    step: u32,
    live: bool,
}

impl<S: Solver> Model for World<S> {
    ghost use Rattle.std.specs.Prelude.{◌≡◌, ◌≤◌, true, IfSome};
    ghost use Rattle.peano_keys.specs.Grid.{Spacetree};
    ghost use Rattle.peano_keys.specs.Field.{States};
    ghost use Rattle.curve_cuts.specs.Keys.{cuts_of};
    ghost use Rattle.step_driver.specs.Worlds.{AreAt, Seen};

    ghost Value = { Seen S };

    ghost view = { λ w. record {
      solver = w.solver;
      recut = w.recut;
      keys = w.keys;
      stores = w.forest.stores.items;
      cells = w.cells;
      step = w.step;
      notes = w.forest.notes.items;
      live = w.live;
    } };

    ghost invariant = { λ w. (S.deepest_of w.solver ≤ w.keys.depth)
        × IfSome w.recut (λ every. 1 ≤ every)
        × (w.live ≡ true
        → (g : Spacetree) × (f : States)
        × AreAt (S.parts_of w.solver)
        (cuts_of w.keys) w.forest.stores.items w.forest.notes.items w.cells g f) };
}

impl<S: Solver> World<S> {
    /// A world at a grid of a depth and its field, cut into so many trees, each with an equal share of the leaves; with
    /// `recut` they are cut anew after each step that is a multiple of it. May want memory alone.
    pub fn start<R: Threads + Sync>(
        rt: &R,
        alloc: Global,
        depth: u32,
        grid: &Grid,
        field: &Field,
        solver: S,
        trees: u32,
        recut: Option<u32>,
    ) -> Result<World<S>, AllocError>
        requires depth { depth ≤ 12 }
        requires deepest { S.deepest_of solver ≤ depth }
        requires grid { IsGrid depth grid.now }
        requires field { IsFieldOn (S.parts_of solver) grid.now field.now }
        requires some { 1 ≤ trees }
        requires most { trees ≤ 64 }
        requires recut { IfSome recut (λ every. 1 ≤ every) }
        ensures at { IfOk result (λ world. IsAt (S.parts_of solver) world grid.now field.now 0) }
        ensures solver { IfOk result (λ world. world.solver ≡ solver) }
        ensures recut { IfOk result (λ world. world.recut ≡ recut) }
        ensures keys { IfOk result (λ world. AreEqualKeys depth grid.now trees world.keys) }
        ensures notes { IfOk result
            (λ world. world.notes
            ≡ by_trees trees (note_raised (sizes_of (cuts_of world.keys)) 0 grid.now)) }
    {
        tale_of_notes_grows();
        let keys = equal_keys(alloc, depth, grid, trees)?;
        let forest = plant(rt, alloc, grid, field, &keys, 0)?;
        Ok(World {
            solver,
            recut,
            keys,
            forest,
            cells: grid.cell_count(),
            step: 0,
            live: true,
        })
    }

    // Takes one step, after which the trees are as they were cut.
    fn take<R: Threads + Sync, G: Gate>(
        &mut self,
        rt: &R,
        alloc: Global,
        workers: u32,
        gate: &G,
    ) -> Result<(), StepFault>
        requires live { self.old.live ≡ true }
        requires step { self.old.step < 4294967295 }
        requires workers { workers < 2 ^ 32 - 1 }
        ensures solver { self.new.solver ≡ self.old.solver }
        ensures recut { self.new.recut ≡ self.old.recut }
        ensures live { IfOk result (λ _. self.new.live ≡ true) }
        ensures taken { (g : Spacetree) (f : States)
            → IsAt (S.parts_of self.old.solver) self.old g f self.old.step
            → IsTaken (kernel_by S.parts_of S.updated S.marked self.old.solver)
            (S.adapting self.old.solver) g f self.old self.new result }
    {
        let step = self.step + 1;
        let stores = mem::replace(&mut self.forest.stores, Vec::new(alloc));
        let notes = &mut self.forest.notes;
        match take_step(
            rt,
            alloc,
            stores,
            notes,
            &self.solver,
            &self.keys,
            self.cells,
            step,
            workers,
            gate,
        ) {
            Ok(stepped) => {
                self.forest.stores = stepped.stores;
                self.cells = stepped.cells;
                self.step = step;
                Ok(())
            }
            Err(fault) => {
                self.live = false;
                Err(fault)
            }
        }
    }

    // Whether the trees are to be cut anew after the step that the world is at.
    fn is_cut_here(&self) -> bool
        ensures { result ≡ recuts_in self.now.recut self.now.step }
    {
        self.recut.is_some_and(|every| self.step % every == 0)
    }

    // Cuts the trees anew where the step asks for it.
    fn cut_in_turn<R: Threads + Sync>(&mut self, rt: &R, alloc: Global) -> Result<(), AllocError>
        requires live { self.old.live ≡ true }
        ensures solver { self.new.solver ≡ self.old.solver }
        ensures recut { self.new.recut ≡ self.old.recut }
        ensures cut { (g : Spacetree) (f : States)
            → IsAt (S.parts_of self.old.solver) self.old g f self.old.step
            → CutsInTurn (S.parts_of self.old.solver) g f self.old self.new result }
    {
        if !self.is_cut_here() {
            return Ok(());
        }
        let stores = mem::replace(&mut self.forest.stores, Vec::new(alloc));
        let notes = &mut self.forest.notes;
        match cut_anew(rt, alloc, stores, notes, &self.keys, self.step) {
            Ok(trees) => {
                self.keys = trees.keys;
                self.forest.stores = trees.stores;
                Ok(())
            }
            Err(error) => {
                self.live = false;
                Err(error)
            }
        }
    }

    /// Takes one step: trees run beside each other, with so many helpers, that take tasks of enclave leaves; `gate` is told of
    /// each such task before its kernel runs. After a step that asks for it the trees are cut anew, each with an equal share
    /// of the leaves that there are then. It is refused at the least leaf whose new value leaves the range of `i64`; where
    /// there is none, because the next grid would have more than 200,000 cells; or for want of memory. After a refusal the
    /// world is not live.
    pub fn advance<R: Threads + Sync, G: Gate>(
        &mut self,
        rt: &R,
        alloc: Global,
        workers: u32,
        gate: &G,
    ) -> Result<(), StepFault>
        requires live { self.old.live ≡ true }
        requires step { self.old.step < 4294967295 }
        requires workers { workers < 2 ^ 32 - 1 }
        ensures solver { self.new.solver ≡ self.old.solver }
        ensures recut { self.new.recut ≡ self.old.recut }
        ensures advanced { (g : Spacetree) (f : States)
            → IsAt (S.parts_of self.old.solver) self.old g f self.old.step
            → IsAdvanced (kernel_by S.parts_of S.updated S.marked self.old.solver)
            (S.adapting self.old.solver) g f self.old self.new result }
    {
        self.take(rt, alloc, workers, gate)?;
        self.cut_in_turn(rt, alloc)?;
        Ok(())
    }

    /// Shows the world: the rows of its field in key order, and the traffic of each tree. It stays where it is. It is refused
    /// for want of memory alone, and then it is not live.
    pub fn show<R: Threads + Sync>(&mut self, rt: &R, alloc: Global) -> Result<Shown, AllocError>
        requires { self.old.live ≡ true }
        ensures solver { self.new.solver ≡ self.old.solver }
        ensures recut { self.new.recut ≡ self.old.recut }
        ensures keys { self.new.keys ≡ self.old.keys }
        ensures shown { (g : Spacetree) (f : States)
            → IsAt (S.parts_of self.old.solver) self.old g f self.old.step
            → ShowsWorld (S.parts_of self.old.solver) g f self.old self.new result }
    {
        let stores = mem::replace(&mut self.forest.stores, Vec::new(alloc));
        let notes = &mut self.forest.notes;
        match show_trees(rt, alloc, stores, notes, &self.keys, self.step, Kind::Show) {
            Ok(trees) => {
                self.forest.stores = trees.stores;
                Ok(trees.shown)
            }
            Err(error) => {
                self.live = false;
                Err(error)
            }
        }
    }

    /// How many steps were taken.
    pub fn step(&self) -> u32
        ensures { result ≡ self.now.step }
    {
        self.step
    }

    /// How many trees there are.
    pub fn trees(&self) -> u32
        ensures { result ≡ (cuts_of self.now.keys).trees }
    {
        self.keys.trees()
    }

    /// How many cells the grid has.
    pub fn cell_count(&self) -> u64
        ensures { result ≡ self.now.cells }
    {
        self.cells
    }

    /// How many leaves the grid has, each of which is a row of its field. Of a world that is not live it tells nothing.
    pub fn leaf_count(&self) -> u64
        ensures leaves { IsLeafCount self.now result }
        ensures rows { IsRowCount self.now result }
    {
        leaves_among(self.cells, self.keys.dim())
    }

    /// Whether no step and no showing was refused.
    pub fn is_live(&self) -> bool
        ensures { result ≡ self.now.live }
    {
        self.live
    }

    /// The notes of all sweeps, in their order.
    pub fn notes(&self) -> &[SweepNote]
        ensures { result.now ≡ self.now.notes }
    {
        self.forest.notes.as_slice()
    }
}
