//! What a tree does with tasks: it spawns them, and later gathers their answers.
ghost use Rattle.std.specs.Prelude.{◌≡◌, ◌+◌, ◌<◌, ◌≤◌, ◌^◌};
ghost use Rattle.peano_keys.specs.State.{count_of};
ghost use Rattle.solver_api.specs.Parts.{HaveParts};
ghost use Rattle.result_table.specs.Seats.{IsUncollected};
ghost use Rattle.task_pool.specs.Seen.{IsHandOf, IsTaskOf, Collects, tree_of, spawned_of, hand_view, pool_solver};

use crate::gate::Passes;
use crate::job::Job;
use crate::log::Spawns;
use crate::parts::{Pool, TreeHand};
use peano_keys::State;
use result_table::{Gathered, Task, Updates};

fn job(task: Task) -> Job
    requires level { task.key.level ≤ 12 }
    requires parts { HaveParts (count_of task.own) task.own task.sides }
    ensures { result.task ≡ task }
{
    Job {
        task,
        parts: task.own.count(),
    }
}

impl<S: Updates> TreeHand<S> {
    /// How many tasks this hand has spawned.
    pub fn spawned(&self) -> u32
        ensures { result ≡ spawned_of self.now }
    {
        self.spawned
    }

    /// Offers the task to helpers, and is never refused: where the deque refuses the task it stays Free on its desk, and is computed when it is gathered.
    /// `task.task` counts the spawned tasks from 0.
    pub fn spawn(&mut self, pool: &Pool<S>, task: Task)
        requires hand { IsHandOf pool.now self.old }
        requires level { task.key.level ≤ 12 }
        requires parts { HaveParts (S.parts_of (pool_solver pool.now)) task.own task.sides }
        requires tree { task.tree ≡ tree_of self.old }
        requires number { task.task ≡ spawned_of self.old }
        requires known { IsTaskOf pool.now task.tree task.task }
        ensures hand { IsHandOf pool.now self.new }
        ensures tree { tree_of self.new ≡ tree_of self.old }
        ensures spawned { spawned_of self.new ≡ spawned_of self.old + 1 }
        ensures view { hand_view self.new ≡ hand_view self.old }
    {
        let _tasks = pool.trees[self.tree as usize].desk.size();
        let _ = self.worker.push_as::<Spawns>(job(task));
        self.spawned += 1;
    }

    /// The solver's answer on the task: a helper's, where one published it, and else computed here. It waits for nobody and takes no memory.
    /// None where a new value leaves the range of `i64`.
    pub fn gather<G: Passes>(
        &mut self,
        pool: &Pool<S>,
        solver: &S,
        gate: &G,
        task: &Task,
    ) -> Option<State>
        requires hand { IsHandOf pool.now self.old }
        requires solver { solver.now ≡ pool_solver pool.now }
        requires level { task.now.key.level ≤ 12 }
        requires parts { HaveParts (S.parts_of solver.now) task.now.own task.now.sides }
        requires tree { task.now.tree ≡ tree_of self.old }
        requires known { IsTaskOf pool.now task.now.tree task.now.task }
        requires fresh { IsUncollected (hand_view self.old) task.now.task }
        ensures hand { IsHandOf pool.now self.new }
        ensures tree { tree_of self.new ≡ tree_of self.old }
        ensures spawned { spawned_of self.new ≡ spawned_of self.old }
        ensures answer { result
            ≡ S.updated solver.now task.now.own task.now.sides task.now.key.level }
        ensures collected { Collects task.now.task (hand_view self.old) (hand_view self.new) }
    {
        let desk = &pool.trees[self.tree as usize].desk;
        if let Gathered::Taken(done) = desk.collect(&mut self.seat, task.task) {
            if done.task().same(task) {
                return done.answer();
            }
        }
        gate.pass(task.tree, task.task);
        solver.update(&task.own, &task.sides, task.key.level)
    }
}
