//! All trees of a step.
ghost use Rattle.std.specs.Prelude.{◌≡◌, map, slice_get, IsSome, IfSome, OnOk, OnErr};
ghost use Rattle.task_core.specs.Core.{all_made, rewound};
ghost use Rattle.task_core.specs.Work.{AreServed, IsServed, IsServedStop, IsServedTask, next_in, task_in, passed, offering, with_task, changed};

use crate::event::Sweep;
use crate::stop::{Leaf, Offered, Stop};
use crate::tree::TreeWork;
use std::alloc::AllocError;
use std::marker::Model;

// The trees of a step. All their leaves have states of as many values as the solver's.
#[derive(Drop)]
pub(crate) struct Forest {
    parts: u32,
    trees: Vec<TreeWork>,
}

impl Model for Forest {
    ghost use Rattle.task_core.specs.Work.{Trees, AreServed};

    ghost Value = { Trees };

    ghost view = { λ f. record { parts = f.parts; trees = f.trees.items } };

    ghost invariant = { λ f. AreServed f.parts f.trees.items };
}

impl Forest {
    // The trees, whose leaves have states of `parts` values.
    pub(crate) fn of(parts: u32, trees: Vec<TreeWork>) -> Forest
        requires { AreServed parts trees.items }
        ensures { result ≡ record { parts = parts; trees = trees.items } }
    {
        Forest { parts, trees }
    }

    // The next visit of a tree in a sweep, none where it made all or there is no such tree.
    pub(crate) fn next(&self, sweep: Sweep, tree: u32) -> Option<Stop>
        ensures value { result ≡ next_in sweep (slice_get self.now.trees tree) }
        ensures served { IfSome result (IsServedStop self.now.parts) }
    {
        let work = self.trees.get(tree as usize)?;
        work.next(sweep)
    }

    // Makes the next visit of a tree.
    pub(crate) fn pass(&mut self, sweep: Sweep, tree: u32)
        requires { IsSome (next_in sweep (slice_get self.old.trees tree)) }
        ensures { self.new ≡ changed passed self.old tree }
    {
        let work = &mut self.trees[tree as usize];
        work.pass(sweep);
    }

    // Makes the next visit of a tree, by which a leaf becomes a task.
    pub(crate) fn offer(&mut self, sweep: Sweep, tree: u32, leaf: Leaf) -> Result<(), AllocError>
        requires next { IsSome (next_in sweep (slice_get self.old.trees tree)) }
        requires served { IsServed self.old.parts leaf }
        ensures ok { OnOk result
            (self.new ≡ changed (λ t. passed (offering leaf t)) self.old tree) }
        ensures err { OnErr result (self.new ≡ self.old) }
    {
        let work = &mut self.trees[tree as usize];
        work.offer(leaf)?;
        work.pass(sweep);
        Ok(())
    }

    // A task of a tree, none where the tree has not added it.
    pub(crate) fn task(&self, tree: u32, task: u32) -> Option<Offered>
        ensures value { result ≡ task_in (slice_get self.now.trees tree) task }
        ensures served { IfSome result (IsServedTask self.now.parts) }
    {
        let work = self.trees.get(tree as usize)?;
        work.task(task)
    }

    // Puts a task of a tree in the place of another.
    pub(crate) fn replace(&mut self, tree: u32, task: u32, offered: Offered)
        requires task { IsSome (task_in (slice_get self.old.trees tree) task) }
        requires served { IsServedTask self.old.parts offered }
        ensures { self.new ≡ changed (with_task task offered) self.old tree }
    {
        let work = &mut self.trees[tree as usize];
        work.replace(task, offered);
    }

    // Whether each tree made all visits of a sweep.
    pub(crate) fn has_made_all(&self, sweep: Sweep) -> bool
        ensures { result ≡ all_made sweep self.now.trees }
    {
        self.trees.iter().all(|work| work.has_made_all(sweep))
    }

    // Takes each tree back before its first visit of a sweep.
    pub(crate) fn rewind(&mut self)
        ensures { self.new ≡ record self.old { trees = map rewound self.old.trees } }
    {
        for at in 0..self.trees.len() {
            let work = &mut self.trees[at];
            work.rewind();
        }
    }
}
