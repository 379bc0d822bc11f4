//! The visitor of the primary sweep.
ghost use Rattle.std.specs.Prelude.{◌≡◌, ◌<◌, ◌↔◌, IsTrue, Some, None, false};
ghost use Rattle.std.specs.FinSet as set;
ghost use Rattle.peano_keys.specs.Cell.{IsCell};
ghost use Rattle.curve_cuts.specs.Keys.{cuts_of};
ghost use Rattle.tree_automaton.specs.declared.kinds.Serves.TheVariants.{Plain};
ghost use Rattle.step_sweeps.specs.Kernels.{Kernel, IsOwnLeaf, failing_with, least_of};
ghost use Rattle.step_sweeps.specs.Primaries.{PrimaryEnters, PrimaryLeaves};

use crate::leaf::{have_parts, home_value};
use crate::tally::Tally;
use crate::tasks::TreeTasks;
use crate::told::Told;
use curve_cuts::Keys;
use enclave_marks::is_enclave;
use peano_keys::{CellKey, Mark, State};
use peano_records::CellView;
use result_table::Updates;
use solver_api::Solver;
use std::alloc::AllocError;
use std::cmp::Ordering;
use std::marker::Model;
use tree_automaton::Visitor;

/// Computes the skeleton leaves that a tree owns: each takes its mark and its new state as `next`, at every stored corner
/// of it. A leaf that has no new state keeps its `next`. An enclave leaf takes its mark alone, and is offered as a task.
/// Takes no memory.
#[derive(Drop)]
pub struct Primary<'a, S: Updates> {
    solver: &'a S,
    keys: &'a Keys,
    tree: u32,
    failing: Option<CellKey>,
    tasks: TreeTasks<'a, S>,
}

impl<'a, S: Updates> Model for Primary<'a, S> {
    ghost use Rattle.std.specs.Prelude.{◌≡◌, ◌<◌};
    ghost use Rattle.curve_cuts.specs.Keys.{cuts_of};
    ghost use Rattle.step_sweeps.specs.Primaries.{PrimaryWork};

    ghost Value = { PrimaryWork S };

    ghost view = { λ p. record {
      solver = p.solver.now;
      keys = p.keys.now;
      tree = p.tree;
      failing = p.failing;
      tasks = p.tasks;
    } };

    ghost invariant = { λ p. (p.tree < (cuts_of p.keys.now).trees)
        × (p.tasks.solver ≡ p.solver.now) };
}

/// Whether a view is of a leaf that a tree owns.
pub fn is_own_leaf(keys: &Keys, tree: u32, view: &CellView) -> bool
    requires cell { IsCell keys.now.dim view.now.key }
    requires tree { tree < (cuts_of keys.now).trees }
    ensures { IsTrue result ↔ IsOwnLeaf (cuts_of keys.now) tree view.now }
{
    match view.was {
        Some(false) => view.key.level <= keys.depth() && keys.owns(view.key, tree),
        _ => false,
    }
}

// What an enclave leaf is told: its mark.
fn marked(mark: Mark) -> Told
    ensures { result ≡ record { mark = Some mark; next = None; intent = None } }
{
    Told {
        mark: Some(mark),
        next: None,
        intent: None,
    }
}

// The lesser of a leaf and one that was found before.
fn least(found: Option<CellKey>, key: CellKey) -> CellKey
    ensures { result ≡ least_of found key }
{
    let Some(before) = found else {
        return key;
    };
    match key.cmp(&before) {
        Ordering::Less => key,
        Ordering::Equal | Ordering::Greater => before,
    }
}

// The least leaf that has no new state, with one leaf more.
pub(crate) fn failing(found: Option<CellKey>, key: CellKey, next: Option<State>) -> Option<CellKey>
    ensures { result ≡ failing_with found key next }
{
    match next {
        Some(_) => found,
        None => Some(least(found, key)),
    }
}

impl<'a, S: Updates> Primary<'a, S> {
    /// A visitor that computes the skeleton leaves of one of the trees of some keys, and offers the enclaves as tasks.
    pub fn new(solver: &'a S, keys: &'a Keys, tree: u32, tasks: TreeTasks<'a, S>) -> Primary<'a, S>
        requires tree { tree < (cuts_of keys.now).trees }
        requires solver { tasks.solver ≡ solver.now }
        ensures { result
            ≡ record {
              solver = solver.now;
              keys = keys.now;
              tree = tree;
              failing = None;
              tasks = tasks.entry;
            } }
    {
        Primary {
            solver,
            keys,
            tree,
            failing: None,
            tasks,
        }
    }

    /// The tree's tasks, and the least leaf that was computed and has no new state.
    pub fn close(self) -> (TreeTasks<'a, S>, Tally)
        ensures tasks { result.0 ≡ self.entry.tasks }
        ensures tally { result.1 ≡ record { failing = self.entry.failing; splits = 0; merges = 0 } }
    {
        let tally = Tally {
            failing: self.failing,
            splits: 0,
            merges: 0,
        };
        (self.tasks, tally)
    }
}

impl<'a, S: Solver> Visitor for Primary<'a, S> {
    ghost meaning = { λ p. record {
      serves = Plain;
      dim = p.keys.dim;
      new_grid = record { dim = p.keys.dim; refined = set.empty };
      may_want = false;
      loan = 0;
    } };

    ghost entered = { PrimaryEnters
        (λ s. record { parts = S.parts_of s; updated = S.updated s; marked = S.marked s }) };

    ghost left = { PrimaryLeaves
        (λ s. record { parts = S.parts_of s; updated = S.updated s; marked = S.marked s }) };

    fn refined_after(&mut self, cell: &CellView) -> bool {
        matches!(cell.was, Some(true))
    }

    fn enter(&mut self, cell: &mut CellView) -> Result<(), AllocError> {
        let dim = self.keys.dim();
        let own = home_value(dim, cell);
        let parts = self.solver.parts();
        if !is_own_leaf(self.keys, self.tree, cell) || !have_parts(parts, &own, &cell.sides) {
            return Ok(());
        }
        let mark = self.solver.mark(&own, &cell.sides, cell.key.level);
        if is_enclave(cell, self.keys, self.tree) {
            let number = self.tasks.offer(cell.key, own, cell.sides);
            marked(mark).in_view(dim, cell);
            cell.task = number;
            return Ok(());
        }
        let next = self.solver.update(&own, &cell.sides, cell.key.level);
        let told = Told {
            mark: Some(mark),
            next,
            intent: None,
        };
        told.in_view(dim, cell);
        self.failing = failing(self.failing, cell.key, next);
        Ok(())
    }

    fn leave(&mut self, _: &mut CellView) -> Result<(), AllocError> {
        Ok(())
    }
}
