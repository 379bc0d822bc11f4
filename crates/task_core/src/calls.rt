//! The calls of a core.
ghost use Rattle.std.specs.Prelude.{◌≡◌, Some, slice_get, IsSome, IfOk, OnErr};
ghost use Rattle.task_core.specs.declared.event.Sweep.TheVariants.{First, Second};
ghost use Rattle.task_core.specs.Core.{answer_of, run};
ghost use Rattle.task_core.specs.Work.{IsServed, next_in, passed, with_tree};
ghost use Rattle.task_core.specs.Replies.{core_of, solver_of, Replies, RepliesBy, does_compute, does_offer, does_gather, does_visit, does_take, does_publish, does_collect, does_in, does, applied, applied_by, RanSome, turned_to, word_at, result_at};

use crate::event::{Event, Reply, Sweep};
use crate::machine::Core;
use crate::stop::{Leaf, Offered, Stop};
use peano_keys::{CellKey, State};
use result_table::Word;
use solver_api::Solver;
use std::alloc::AllocError;

// How many events a reply counts as applied.
fn count(reply: Reply) -> u64
    ensures { result ≡ applied_by reply }
{
    match reply {
        Reply::Applied => 1,
        Reply::Skipped => 0,
    }
}

impl<S: Solver> Core<S> {
    // The kernel's answer on a leaf.
    fn kernel(&self, leaf: &Leaf) -> Option<State>
        requires { IsServed self.now.forest.parts leaf.now }
        ensures { result ≡ answer_of (S.updated (solver_of self.now)) leaf.now }
    {
        self.solver.update(&leaf.own, &leaf.sides, leaf.key.level)
    }

    // Makes the next visit of a tree, which passes by.
    fn pass(&mut self, tree: u32) -> Reply
        requires { IsSome (next_in self.old.sweep (slice_get self.old.forest.trees tree)) }
        ensures reply { Replies (Some (with_tree passed (core_of self.old) tree self.old.answers))
            (core_of self.old) result (core_of self.new) }
        ensures solver { solver_of self.new ≡ solver_of self.old }
    {
        self.forest.pass(self.sweep, tree);
        Reply::Applied
    }

    // Makes the next visit of a tree, which computes a leaf.
    fn compute(&mut self, tree: u32, leaf: Leaf) -> Result<Reply, AllocError>
        requires next { IsSome (next_in self.old.sweep (slice_get self.old.forest.trees tree)) }
        requires served { IsServed self.old.forest.parts leaf }
        ensures ok { IfOk result (RepliesBy
            (does_compute (S.updated (solver_of self.old)) tree leaf)
            (core_of self.old) (core_of self.new)) }
        ensures err { OnErr result (core_of self.new ≡ core_of self.old) }
        ensures solver { solver_of self.new ≡ solver_of self.old }
    {
        let answer = self.kernel(&leaf);
        self.answers.put(leaf.key, answer)?;
        Ok(self.pass(tree))
    }

    // Makes the next visit of a tree, which offers a leaf as a task.
    fn offer(&mut self, tree: u32, leaf: Leaf) -> Result<Reply, AllocError>
        requires next { IsSome (next_in self.old.sweep (slice_get self.old.forest.trees tree)) }
        requires served { IsServed self.old.forest.parts leaf }
        ensures ok { IfOk result (RepliesBy (does_offer tree leaf)
            (core_of self.old) (core_of self.new)) }
        ensures err { OnErr result (core_of self.new ≡ core_of self.old) }
        ensures solver { solver_of self.new ≡ solver_of self.old }
    {
        self.forest.offer(self.sweep, tree, leaf)?;
        Ok(Reply::Applied)
    }

    // Makes the next visit of a tree, which computes a leaf that was offered where nobody has.
    fn gather(&mut self, tree: u32, leaf: Leaf) -> Result<Reply, AllocError>
        requires next { IsSome (next_in self.old.sweep (slice_get self.old.forest.trees tree)) }
        requires served { IsServed self.old.forest.parts leaf }
        ensures ok { IfOk result (RepliesBy (does_gather (S.updated (solver_of self.old)) tree leaf)
            (core_of self.old) (core_of self.new)) }
        ensures err { OnErr result (core_of self.new ≡ core_of self.old) }
        ensures solver { solver_of self.new ≡ solver_of self.old }
    {
        if self.answers.get(&leaf.key).is_some() {
            return Ok(self.pass(tree));
        }
        self.compute(tree, leaf)
    }

    // A visit in the first sweep.
    fn visit_first(&mut self, tree: u32) -> Result<Reply, AllocError>
        requires { self.old.sweep ≡ First }
        ensures ok { IfOk result (RepliesBy (does_visit (S.updated (solver_of self.old)) tree)
            (core_of self.old) (core_of self.new)) }
        ensures err { OnErr result (core_of self.new ≡ core_of self.old) }
        ensures solver { solver_of self.new ≡ solver_of self.old }
    {
        match self.forest.next(Sweep::First, tree) {
            None => Ok(Reply::Skipped),
            Some(Stop::Pass) => Ok(self.pass(tree)),
            Some(Stop::Compute(leaf)) => self.compute(tree, leaf),
            Some(Stop::Offer(leaf)) => self.offer(tree, leaf),
        }
    }

    // A visit in the second sweep.
    fn visit_second(&mut self, tree: u32) -> Result<Reply, AllocError>
        requires { self.old.sweep ≡ Second }
        ensures ok { IfOk result (RepliesBy (does_visit (S.updated (solver_of self.old)) tree)
            (core_of self.old) (core_of self.new)) }
        ensures err { OnErr result (core_of self.new ≡ core_of self.old) }
        ensures solver { solver_of self.new ≡ solver_of self.old }
    {
        match self.forest.next(Sweep::Second, tree) {
            None => Ok(Reply::Skipped),
            Some(Stop::Pass) => Ok(self.pass(tree)),
            Some(Stop::Compute(_)) => Ok(self.pass(tree)),
            Some(Stop::Offer(leaf)) => self.gather(tree, leaf),
        }
    }

    // An actor takes a task that is Free.
    fn take(&mut self, actor: u32, tree: u32, task: u32) -> Reply
        ensures reply { RepliesBy (does_take (S.updated (solver_of self.old)) actor tree task)
            (core_of self.old) (core_of self.new) result }
        ensures solver { solver_of self.new ≡ solver_of self.old }
    {
        let Some(offered) = self.forest.task(tree, task) else {
            return Reply::Skipped;
        };
        let Some(word) = offered.word.take(actor) else {
            return Reply::Skipped;
        };
        let leaf = offered.leaf;
        self.forest.replace(tree, task, Offered { leaf, word });
        Reply::Applied
    }

    // An actor publishes the answer on a task that it has taken.
    fn publish(&mut self, actor: u32, tree: u32, task: u32) -> Result<Reply, AllocError>
        ensures ok { IfOk result (RepliesBy
            (does_publish (S.updated (solver_of self.old)) actor tree task)
            (core_of self.old) (core_of self.new)) }
        ensures err { OnErr result (core_of self.new ≡ core_of self.old) }
        ensures solver { solver_of self.new ≡ solver_of self.old }
    {
        let Some(offered) = self.forest.task(tree, task) else {
            return Ok(Reply::Skipped);
        };
        let Some(word) = offered.word.publish(actor) else {
            return Ok(Reply::Skipped);
        };
        let leaf = offered.leaf;
        let answer = self.kernel(&leaf);
        self.answers.put(leaf.key, answer)?;
        self.forest.replace(tree, task, Offered { leaf, word });
        Ok(Reply::Applied)
    }

    // A task is collected.
    fn collect(&mut self, tree: u32, task: u32) -> Reply
        ensures reply { RepliesBy (does_collect (S.updated (solver_of self.old)) tree task)
            (core_of self.old) (core_of self.new) result }
        ensures solver { solver_of self.new ≡ solver_of self.old }
    {
        let Some(offered) = self.forest.task(tree, task) else {
            return Reply::Skipped;
        };
        let Some(word) = offered.word.collect() else {
            return Reply::Skipped;
        };
        let leaf = offered.leaf;
        self.forest.replace(tree, task, Offered { leaf, word });
        Reply::Applied
    }

    // The exchange after a sweep, which begins another one.
    fn exchange(&mut self, made: Sweep, next: Sweep) -> Reply
        ensures reply { Replies (turned_to made next (core_of self.old)) (core_of self.old) result
            (core_of self.new) }
        ensures solver { solver_of self.new ≡ solver_of self.old }
    {
        if !self.forest.has_made_all(made) {
            return Reply::Skipped;
        }
        self.forest.rewind();
        self.sweep = next;
        Reply::Applied
    }

    // An event in the first sweep, in which nothing is collected.
    fn step_first(&mut self, event: Event) -> Result<Reply, AllocError>
        requires { self.old.sweep ≡ First }
        ensures ok { IfOk result (RepliesBy (does_in (S.updated (solver_of self.old)) First event)
            (core_of self.old) (core_of self.new)) }
        ensures err { OnErr result (core_of self.new ≡ core_of self.old) }
        ensures solver { solver_of self.new ≡ solver_of self.old }
    {
        match event {
            Event::Visit { tree } => self.visit_first(tree),
            Event::Take { actor, tree, task } => Ok(self.take(actor, tree, task)),
            Event::Publish { actor, tree, task } => self.publish(actor, tree, task),
            Event::Collect { .. } => Ok(Reply::Skipped),
            Event::Exchange => Ok(self.exchange(Sweep::First, Sweep::Second)),
        }
    }

    // An event in the second sweep.
    fn step_second(&mut self, event: Event) -> Result<Reply, AllocError>
        requires { self.old.sweep ≡ Second }
        ensures ok { IfOk result (RepliesBy (does_in (S.updated (solver_of self.old)) Second event)
            (core_of self.old) (core_of self.new)) }
        ensures err { OnErr result (core_of self.new ≡ core_of self.old) }
        ensures solver { solver_of self.new ≡ solver_of self.old }
    {
        match event {
            Event::Visit { tree } => self.visit_second(tree),
            Event::Take { actor, tree, task } => Ok(self.take(actor, tree, task)),
            Event::Publish { actor, tree, task } => self.publish(actor, tree, task),
            Event::Collect { tree, task } => Ok(self.collect(tree, task)),
            Event::Exchange => Ok(self.exchange(Sweep::Second, Sweep::Over)),
        }
    }

    /// One event. It is applied where it is legal, and else skipped, and then nothing changes. Publishing and computing
    /// take memory for the answer and offering for the task; after a refusal nothing has changed.
    pub fn step(&mut self, event: Event) -> Result<Reply, AllocError>
        ensures ok { IfOk result (RepliesBy (does (S.updated (solver_of self.old)) event)
            (core_of self.old) (core_of self.new)) }
        ensures err { OnErr result (core_of self.new ≡ core_of self.old) }
        ensures solver { solver_of self.new ≡ solver_of self.old }
    {
        match self.sweep {
            Sweep::First => self.step_first(event),
            Sweep::Second => self.step_second(event),
            Sweep::Over => Ok(Reply::Skipped),
        }
    }

    /// All events of a list, one after another: how many of them were applied. After a refusal it has run the first few of
    /// them.
    pub fn run(&mut self, events: &[Event]) -> Result<u64, AllocError>
        ensures core { IfOk result
            (λ _. core_of self.new
            ≡ run (S.updated (solver_of self.old)) (core_of self.old) events.now) }
        ensures count { IfOk result
            (λ count. count
            ≡ applied (S.updated (solver_of self.old)) (core_of self.old) events.now) }
        ensures err { OnErr result
            (RanSome (S.updated (solver_of self.old)) (core_of self.old) events.now
            (core_of self.new)) }
        ensures solver { solver_of self.new ≡ solver_of self.old }
    {
        let mut applied = 0;
        for event in events {
            let reply = self.step(*event)?;
            applied += count(reply);
        }
        Ok(applied)
    }

    /// The word of a task, none where the tree has not added it. Takes no memory.
    pub fn word(&self, tree: u32, task: u32) -> Option<Word>
        ensures { result ≡ word_at (core_of self.now) tree task }
    {
        let offered = self.forest.task(tree, task)?;
        Some(offered.word)
    }

    /// The answer on a leaf, none where it has no answer yet or its answer is none. Takes no memory.
    pub fn result(&self, key: &CellKey) -> Option<State>
        ensures { result ≡ result_at (core_of self.now) key.now }
    {
        self.answers.get(key)?
    }
}
