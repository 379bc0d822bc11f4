//! The visitor of the secondary sweep.
ghost use Rattle.std.specs.Prelude.{◌≡◌, ◌≤◌, ◌<◌, ◌↔◌, ◌+◌, IsTrue, true, false, None, [], replicate};
ghost use Rattle.std.specs.FinSet as set;
ghost use Rattle.peano_keys.specs.Cell.{IsCell};
ghost use Rattle.curve_cuts.specs.Cuts.{Owns};
ghost use Rattle.curve_cuts.specs.Keys.{cuts_of};
ghost use Rattle.step_sweeps.specs.Kernels.{IsOwnLeaf};
ghost use Rattle.tree_automaton.specs.Promises.{IsViewIn};
ghost use Rattle.tree_automaton.specs.declared.kinds.Serves.TheVariants.{Plain};
ghost use Rattle.step_sweeps.specs.Told.{IsTold};
ghost use Rattle.step_sweeps.specs.Secondaries.{SecondaryEnters, SecondaryLeaves, RefinedLeft, SumsLeft, CentreLeft, LeafAdds, WholeAdds, SharedAdds, IsRefinedView, IsOwnRefined, is_whole, leaf_intends, refined_intends, cleared, summed, sums_at, no_sums, one_if};

use crate::centre::{home_next, is_centre};
use crate::leaf::{have_parts, home_value};
use crate::primary::{failing, is_own_leaf};
use crate::sums::{added, all_rounded, copied, hand_out, is_within, means, weighed};
use crate::tally::Tally;
use crate::tasks::TreeTasks;
use crate::told::Told;
use adapt_marks::{merges, splits};
use cell_sums::weight;
use curve_cuts::Keys;
use enclave_marks::is_enclave;
use peano_keys::{CellKey, State};
use peano_records::{CellView, Intent, Partial, Partials};
use result_table::Updates;
use solver_api::Solver;
use std::alloc::AllocError;
use std::marker::Model;
use task_pool::Passes;
use tree_automaton::Visitor;

/// Finishes a step in the cells that a tree owns, once the marks of all leaves and the new values of skeleton leaves are
/// there: each leaf and each refined cell takes its intent, each enclave leaf its new value as `next`, and each refined
/// cell the means of what the tree has of it: sums over the leaves below it that the tree owns, each times its weight, and
/// over merging cells that no other tree holds in place of their leaves, with their means. The new value of an enclave leaf
/// is a helper's, where one published it, and else computed here. An enclave leaf that has no new value keeps its `next`.
/// What the tree has of a cell that another tree holds too is handed out as a partial. Takes no memory.
#[derive(Drop)]
pub struct Secondary<'a, S: Updates, G> {
    solver: &'a S,
    keys: &'a Keys,
    tree: u32,
    sums: [[i128; 4]; 14],
    merging: [bool; 14],
    splits: u64,
    merges: u64,
    partials: Partials,
    failing: Option<CellKey>,
    tasks: TreeTasks<'a, S>,
    gate: &'a G,
}

impl<'a, S: Updates, G> Model for Secondary<'a, S, G> {
    ghost use Rattle.std.specs.Prelude.{◌<◌, ◌≡◌, length};
    ghost use Rattle.curve_cuts.specs.Keys.{cuts_of};
    ghost use Rattle.step_sweeps.specs.Told.{IsTold};
    ghost use Rattle.step_sweeps.specs.Secondaries.{SecondaryWork};

    ghost Value = { SecondaryWork S };

    ghost view = { λ s. record {
      solver = s.solver.now;
      keys = s.keys.now;
      tree = s.tree;
      sums = s.sums;
      merging = s.merging;
      splits = s.splits;
      merges = s.merges;
      partials = s.partials;
      failing = s.failing;
      tasks = s.tasks;
    } };

    ghost invariant = { λ s. (s.tree < (cuts_of s.keys.now).trees) × (length s.sums ≡ 14)
        × (length s.merging ≡ 14) × (s.tasks.solver ≡ s.solver.now) };
}

// Whether the cell of a view is refined.
fn is_refined(keys: &Keys, view: &CellView) -> bool
    ensures { IsTrue result ↔ IsRefinedView (cuts_of keys.now) view.now }
{
    matches!(view.was, Some(true)) && view.key.level < keys.depth()
}

// Whether a tree owns the refined cell of a view.
fn is_own_refined(keys: &Keys, tree: u32, view: &CellView) -> bool
    requires cell { IsCell keys.now.dim view.now.key }
    requires tree { tree < (cuts_of keys.now).trees }
    ensures is { IsTrue result ↔ IsOwnRefined (cuts_of keys.now) tree view.now }
    ensures deep { result ≡ true → view.now.key.level < 12 }
{
    match view.was {
        Some(true) => view.key.level < keys.depth() && keys.owns(view.key, tree),
        _ => false,
    }
}

// What a leaf is told: whether it splits, and its new value where there is one to tell.
fn leaf_intends(next: Option<State>, split: bool) -> Told
    ensures { result ≡ leaf_intends next split }
{
    Told {
        mark: None,
        next,
        intent: Some(if split { Intent::Split } else { Intent::Stay }),
    }
}

// What a refined cell is told: its new value, and whether it merges.
fn refined_intends(next: State, merges: bool) -> Told
    ensures { result ≡ refined_intends next merges }
{
    Told {
        mark: None,
        next: Some(next),
        intent: Some(if merges { Intent::Merge } else { Intent::Stay }),
    }
}

// One more where a test passes.
fn counted(passes: bool, count: u64) -> u64
    ensures { result ≡ one_if passes count }
{
    if passes {
        count.saturating_add(1)
    } else {
        count
    }
}

impl<'a, S: Updates, G> Secondary<'a, S, G> {
    /// A visitor that finishes a step in one of the trees of some keys, with the tasks that its primary sweep spawned. The
    /// gate is passed before each kernel of a task.
    pub fn new(
        solver: &'a S,
        keys: &'a Keys,
        tree: u32,
        tasks: TreeTasks<'a, S>,
        gate: &'a G,
    ) -> Secondary<'a, S, G>
        requires tree { tree < (cuts_of keys.now).trees }
        requires solver { tasks.solver ≡ solver.now }
        ensures { result
            ≡ record {
              solver = solver.now;
              keys = keys.now;
              tree = tree;
              sums = replicate 14 no_sums;
              merging = replicate 14 false;
              splits = 0;
              merges = 0;
              partials = [];
              failing = None;
              tasks = tasks.entry;
            } }
    {
        Secondary {
            solver,
            keys,
            tree,
            sums: [[0; 4]; 14],
            merging: [false; 14],
            splits: 0,
            merges: 0,
            partials: Partials::new(),
            failing: None,
            tasks,
            gate,
        }
    }

    /// The partials of the cells that the tree shares, once the sweep is over.
    pub fn partials(&self) -> Partials
        ensures { result ≡ self.now.partials }
    {
        copied(&self.partials)
    }

    /// The tree's tasks; and the least enclave leaf that has no new value, how many leaves of the tree's own split, and how
    /// many refined cells merge.
    pub fn close(self) -> (TreeTasks<'a, S>, Tally)
        ensures tasks { result.0 ≡ self.entry.tasks }
        ensures tally { result.1
            ≡ record {
              failing = self.entry.failing;
              splits = self.entry.splits;
              merges = self.entry.merges;
            } }
    {
        let tally = Tally {
            failing: self.failing,
            splits: self.splits,
            merges: self.merges,
        };
        (self.tasks, tally)
    }
}

impl<'a, S: Updates, G> Secondary<'a, S, G> {
    // A leaf of the tree takes its intent, and its new value where there is one to tell.
    fn intend(&mut self, next: Option<State>, split: bool, cell: &mut CellView)
        ensures told { IsTold self.old.keys.dim (leaf_intends next split) cell.old cell.new }
        ensures counted { self.new ≡ record self.old { splits = one_if split self.old.splits } }
    {
        leaf_intends(next, split).in_view(self.keys.dim(), cell);
        self.splits = counted(split, self.splits);
    }

    // As a cell is entered the sums of the level below it are cleared.
    fn clear(&mut self, cell: CellKey)
        requires { IsCell self.old.keys.dim cell }
        ensures { self.new ≡ cleared self.old cell.level }
    {
        self.sums[cell.level as usize + 1] = [0; 4];
    }

    // As it is left something is added to those of its own level.
    fn add(&mut self, cell: CellKey, sums: &[i128; 4])
        requires { IsCell self.old.keys.dim cell }
        ensures { self.new ≡ summed self.old cell.level sums.now }
    {
        let level = cell.level as usize;
        let before = self.sums[level];
        self.sums[level] = added(&before, sums);
    }

    // A refined cell of the tree takes the means of the sums of the level below, and its intent by what its centre child told.
    fn finish(&mut self, parts: u32, cell: &mut CellView)
        requires least { 1 ≤ parts }
        requires most { parts ≤ 4 }
        requires view { IsViewIn self.old.keys.dim cell.old }
        ensures left { RefinedLeft (λ _. parts) self.old cell.old cell.new self.new }
        ensures keys { self.new.keys ≡ self.old.keys }
    {
        if !is_own_refined(self.keys, self.tree, cell) {
            return;
        }
        let dim = self.keys.dim();
        let below = cell.key.level as usize + 1;
        let merges = self.merging[below];
        let weight = weight(dim, self.keys.depth() - cell.key.level);
        let sums = self.sums[below];
        let next = means(parts, &sums, weight);
        refined_intends(next, merges).in_view(dim, cell);
        self.merges = counted(merges, self.merges);
    }

    // A leaf of the tree adds its new value times its weight to the sums of its level.
    fn add_leaf(&mut self, cell: &CellView)
        requires cell { IsCell self.old.keys.dim cell.now.key }
        requires own { IsOwnLeaf (cuts_of self.old.keys) self.old.tree cell.now }
        ensures { LeafAdds self.old cell.now self.new }
    {
        let dim = self.keys.dim();
        let weight = weight(dim, self.keys.depth() - cell.key.level);
        self.add(cell.key, &weighed(&home_next(dim, cell), weight));
    }

    // A refined cell of the tree that it has whole adds its sums, where it merges with their floors in their places.
    fn add_whole(&mut self, cell: &CellView)
        requires cell { IsCell self.old.keys.dim cell.now.key }
        requires own { IsOwnRefined (cuts_of self.old.keys) self.old.tree cell.now }
        requires whole { is_whole self.old.keys self.old.tree cell.now ≡ true }
        ensures { WholeAdds self.old cell.now self.new }
    {
        let below = cell.key.level as usize + 1;
        let sums = self.sums[below];
        if !self.merging[below] {
            self.add(cell.key, &sums);
            return;
        }
        let weight = weight(self.keys.dim(), self.keys.depth() - cell.key.level);
        self.add(cell.key, &all_rounded(&sums, weight));
    }

    // A shared cell adds its sums, and hands them out.
    fn add_shared(&mut self, cell: &CellView, owned: bool)
        requires cell { IsCell self.old.keys.dim cell.now.key }
        requires refined { IsRefinedView (cuts_of self.old.keys) cell.now }
        requires shared { is_whole self.old.keys self.old.tree cell.now ≡ false }
        requires owned { IsTrue owned ↔ Owns (cuts_of self.old.keys) self.old.tree cell.now.key }
        ensures { SharedAdds self.old cell.now self.new }
    {
        let below = cell.key.level as usize + 1;
        let sums = self.sums[below];
        let merges = owned && self.merging[below];
        let partial = Partial {
            key: cell.key,
            sums,
            merges,
        };
        self.add(cell.key, &sums);
        hand_out(&mut self.partials, partial);
    }

    // A cell adds what the tree has of it to the sums of its level.
    fn sum_up(&mut self, cell: &CellView)
        requires { IsCell self.old.keys.dim cell.now.key }
        ensures left { SumsLeft self.old cell.now self.new }
        ensures keys { self.new.keys ≡ self.old.keys }
    {
        if is_own_leaf(self.keys, self.tree, cell) {
            self.add_leaf(cell);
            return;
        }
        if !is_refined(self.keys, cell) {
            return;
        }
        let owned = self.keys.owns(cell.key, self.tree);
        if !is_within(self.keys, self.tree, cell.key) {
            self.add_shared(cell, owned);
            return;
        }
        if owned {
            self.add_whole(cell);
        }
    }

    // A centre child tells whether its parent merges.
    fn remember(&mut self, cell: &CellView)
        requires { IsCell self.old.keys.dim cell.now.key }
        ensures left { CentreLeft self.old cell.now self.new }
        ensures keys { self.new.keys ≡ self.old.keys }
    {
        if !is_centre(self.keys.dim(), cell.key) {
            return;
        }
        self.merging[cell.key.level as usize] = merges(cell);
    }
}

impl<'a, S: Solver, G: Passes> Visitor for Secondary<'a, S, G> {
    ghost meaning = { λ s. record {
      serves = Plain;
      dim = s.keys.dim;
      new_grid = record { dim = s.keys.dim; refined = set.empty };
      may_want = false;
      loan = 0;
    } };

    ghost entered = { SecondaryEnters
        (λ s. record { parts = S.parts_of s; updated = S.updated s; marked = S.marked s }) };

    ghost left = { SecondaryLeaves (λ s. S.parts_of s) };

    fn refined_after(&mut self, cell: &CellView) -> bool {
        matches!(cell.was, Some(true))
    }

    fn enter(&mut self, cell: &mut CellView) -> Result<(), AllocError> {
        self.clear(cell.key);
        if !is_own_leaf(self.keys, self.tree, cell) {
            return Ok(());
        }
        let split = splits(cell);
        if !is_enclave(cell, self.keys, self.tree) {
            self.intend(None, split, cell);
            return Ok(());
        }
        let own = home_value(self.keys.dim(), cell);
        if !have_parts(self.solver.parts(), &own, &cell.sides) {
            self.intend(None, split, cell);
            return Ok(());
        }
        let next = self
            .tasks
            .answer(self.solver, self.gate, cell.key, &own, &cell.sides);
        self.failing = failing(self.failing, cell.key, next);
        self.intend(next, split, cell);
        Ok(())
    }

    fn leave(&mut self, cell: &mut CellView) -> Result<(), AllocError> {
        let parts = self.solver.parts();
        self.finish(parts, cell);
        self.sum_up(cell);
        self.remember(cell);
        Ok(())
    }
}
