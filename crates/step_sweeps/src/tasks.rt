//! The tasks of a tree: enclave leaves that are offered to helpers as the primary sweep enters them, and whose new states
//! are answered as the secondary sweep does.
ghost use Rattle.std.specs.Prelude.{◌≡◌, ◌+◌, ◌-◌, ◌<◌, ◌≤◌, ◌^◌};
ghost use Rattle.solver_api.specs.Parts.{HaveParts};
ghost use Rattle.result_table.specs.Seats.{IsUncollected};
ghost use Rattle.task_pool.specs.Seen.{IsHandOf, HasTasks, pool_solver, tree_of, spawned_of, hand_view};
ghost use Rattle.step_sweeps.specs.Tasks.{Offers, Turns, Answers};

use peano_keys::{CellKey, Sides, State};
use result_table::{Task, Updates};
use std::marker::Model;
use task_pool::{Passes, Pool, TreeHand};

/// What a tree spawns and gathers tasks with over both sweeps of a step. A desk that is full takes no more: such leaves are
/// computed when they are asked for, once the gate is passed with no number of a task. Takes no memory.
#[derive(Drop)]
pub struct TreeTasks<'p, S: Updates> {
    pool: &'p Pool<S>,
    hand: TreeHand<S>,
    tree: u32,
    size: u32,
    left: u32,
}

impl<'p, S: Updates> Model for TreeTasks<'p, S> {
    ghost use Rattle.std.specs.Prelude.{◌≡◌, ◌<◌, ◌≤◌, ◌^◌, ℕ};
    ghost use Rattle.result_table.specs.Seats.{IsUncollected};
    ghost use Rattle.task_pool.specs.Seen.{IsHandOf, HasTasks, pool_solver, tree_of, spawned_of, hand_view};
    ghost use Rattle.step_sweeps.specs.Tasks.{TasksSeen};

    ghost Value = { TasksSeen S };

    ghost view = { λ p. record {
      tree = p.tree;
      solver = pool_solver p.pool.now;
      size = p.size;
      spawned = spawned_of p.hand;
      left = p.left;
      seat = hand_view p.hand;
    } };

    ghost invariant = { λ p. IsHandOf p.pool.now p.hand × (tree_of p.hand ≡ p.tree)
        × HasTasks p.pool.now p.tree p.size × (p.left ≤ p.size)
        × ((k : ℕ) → k < p.left → IsUncollected (hand_view p.hand) k) };
}

impl<'p, S: Updates> TreeTasks<'p, S> {
    /// The tasks of a tree whose hand has gathered nothing.
    pub fn new(pool: &'p Pool<S>, hand: TreeHand<S>, tree: u32) -> TreeTasks<'p, S>
        requires hand { IsHandOf pool.now hand }
        requires tree { tree ≡ tree_of hand }
        requires fresh { (k : _) → IsUncollected (hand_view hand) k }
        ensures tree { result.tree ≡ tree }
        ensures solver { result.solver ≡ pool_solver pool.now }
        ensures size { HasTasks pool.now tree result.size }
        ensures spawned { result.spawned ≡ spawned_of hand }
        ensures left { result.left ≡ result.size }
        ensures seat { result.seat ≡ hand_view hand }
    {
        let size = pool.size(tree);
        TreeTasks {
            pool,
            hand,
            tree,
            size,
            left: size,
        }
    }

    /// Offers a leaf to helpers. The answer is its number, and the greatest number where the desk has no place for one more.
    pub(crate) fn offer(&mut self, key: CellKey, own: State, sides: Sides) -> u32
        requires level { key.level ≤ 12 }
        requires parts { HaveParts (S.parts_of self.old.solver) own sides }
        ensures { Offers self.old result self.new }
    {
        let number = self.hand.spawned();
        if number >= self.size {
            return u32::MAX;
        }
        let task = Task {
            tree: self.tree,
            task: number,
            key,
            own,
            sides,
        };
        self.hand.spawn(self.pool, task);
        number
    }

    /// Ready to answer for the leaves that were offered, the last one first.
    pub(crate) fn turn(&mut self)
        ensures { Turns self.old self.new }
    {
        let spawned = self.hand.spawned();
        if spawned < self.left {
            self.left = spawned;
        }
    }

    /// The new state of a leaf, none where a new value leaves the range of `i64`. It is asked for in the reverse order of
    /// the offers, so its task is the last that is left; a leaf that asks in another order is computed here.
    pub(crate) fn answer<G: Passes>(
        &mut self,
        solver: &S,
        gate: &G,
        key: CellKey,
        own: &State,
        sides: &Sides,
    ) -> Option<State>
        requires solver { solver.now ≡ self.old.solver }
        requires level { key.level ≤ 12 }
        requires parts { HaveParts (S.parts_of self.old.solver) own.now sides.now }
        ensures value { result ≡ S.updated self.old.solver own.now sides.now key.level }
        ensures answers { Answers self.old self.new }
    {
        if self.left == 0 {
            gate.pass(self.tree, u32::MAX);
            return solver.update(own, sides, key.level);
        }
        let number = self.left - 1;
        let task = Task {
            tree: self.tree,
            task: number,
            key,
            own: *own,
            sides: *sides,
        };
        let next = self.hand.gather(self.pool, solver, gate, &task);
        self.left = number;
        next
    }
}
