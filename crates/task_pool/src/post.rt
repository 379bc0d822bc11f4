//! What a helper does at one tree.
ghost use Rattle.std.specs.Prelude.{◌≡◌, ◌+◌, ◌<◌, ◌≤◌, ◌++◌, ◌∷◌, [], length, if◌then◌else◌, MatchOption};
ghost use Rattle.crossbeam_deque.specs.Handles.{IsPassOf, stealer_deque, view};
ghost use Rattle.result_table.specs.Seats.{view_of, desk_solver};
ghost use Rattle.task_pool.specs.Deque.{log, count, is_task};
ghost use Rattle.task_pool.specs.Seen.{IsPostAt};

use crate::gate::Gate;
use crate::job::Job;
use crate::log::Takes;
use crate::parts::{Post, Tree};
use crate::shift::Work;
use crossbeam_deque::Steal;
use result_table::{Done, Updates};

impl<S: Updates> Post<S> {
    /// Takes a task from the tree's deque, if it gives one.
    fn take(&mut self, at: &Tree<S>) -> Option<Job>
        requires { IsPassOf (stealer_deque at.now.stealer) self.old.pass }
        ensures pass { IsPassOf (stealer_deque at.now.stealer) self.new.pass }
        ensures seat { self.new.seat ≡ self.old.seat }
        ensures taken { MatchOption result (view self.new.pass ≡ view self.old.pass)
            (λ job. (view self.new.pass).taken ≡ (view self.old.pass).taken ++ job ∷ []) }
    {
        match at.stealer.steal_as::<Takes>(&mut self.pass) {
            Steal::Success(job) => Some(job),
            _ => None,
        }
    }

    /// Claims a task that was taken, computes it and publishes its result. True where it published.
    fn compute<G: Gate>(&mut self, at: &Tree<S>, tree: u32, solver: &S, gate: &G, job: Job) -> bool
        requires post { IsPostAt at.now tree self.old }
        requires taken { 0
            < count (is_task job.task.tree job.task.task) (view self.old.pass).taken }
        requires solver { desk_solver at.now.desk ≡ solver.now }
        ensures post { IsPostAt at.now tree self.new }
        ensures pass { self.new.pass ≡ self.old.pass }
        ensures published { length (view_of self.new.seat).published
            ≡ length (view_of self.old.seat).published + (if result then 1 else 0) }
    {
        let task = job.task;
        let number = task.task;
        if task.tree != tree || number >= at.desk.size() || job.parts != solver.parts() {
            return false;
        }
        if !at.desk.claim(&mut self.seat, number) {
            return false;
        }
        gate.pass(tree, number);
        let done = Done::compute(solver, task);
        at.desk.publish(&mut self.seat, number, done)
    }

    /// One try at this tree's deque.
    pub(crate) fn work<G: Gate>(&mut self, at: &Tree<S>, tree: u32, solver: &S, gate: &G) -> Work
        requires post { IsPostAt at.now tree self.old }
        requires solver { desk_solver at.now.desk ≡ solver.now }
        ensures post { IsPostAt at.now tree self.new }
        ensures few { (result.published ≤ result.taken) × (result.taken ≤ 1) }
        ensures published { length (view_of self.new.seat).published
            ≡ length (view_of self.old.seat).published + result.published }
        ensures taken { length (view self.new.pass).taken
            ≡ length (view self.old.pass).taken + result.taken }
    {
        let Some(job) = self.take(at) else {
            return Work {
                taken: 0,
                published: 0,
            };
        };
        let published = self.compute(at, tree, solver, gate, job);
        Work {
            taken: 1,
            published: if published { 1 } else { 0 },
        }
    }
}
