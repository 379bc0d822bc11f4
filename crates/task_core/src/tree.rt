//! A tree in a step: its visits in both sweeps, how far it is, and its tasks.
ghost use Rattle.std.specs.Prelude.{◌≡◌, ◌<◌, ◌==◌, [], length, slice_get, IsSome, OnOk, OnErr};
ghost use Rattle.task_core.specs.Core.{stops, rewound};
ghost use Rattle.task_core.specs.Work.{passed, offering, with_task};

use crate::event::Sweep;
use crate::stop::{Leaf, Offered, Stop};
use result_table::Word;
use std::alloc::{AllocError, Global};
use std::marker::Model;

// The visits of a tree in both sweeps, how many of the present one it made, and its tasks by number.
#[derive(Drop)]
pub(crate) struct TreeWork {
    first: Vec<Stop>,
    second: Vec<Stop>,
    made: usize,
    tasks: Vec<Offered>,
}

impl Model for TreeWork {
    ghost use Rattle.task_core.specs.Core.{Tree};

    ghost Value = { Tree };

    ghost view = { λ t. record {
      first = t.first.items;
      second = t.second.items;
      made = t.made;
      tasks = t.tasks.items;
    } };
}

impl TreeWork {
    // A tree before its first visit.
    pub(crate) fn begin(alloc: Global, first: Vec<Stop>, second: Vec<Stop>) -> TreeWork
        ensures { result
            ≡ record { first = first.items; second = second.items; made = 0; tasks = [] } }
    {
        TreeWork {
            first,
            second,
            made: 0,
            tasks: Vec::new(alloc),
        }
    }

    // How many visits a sweep has.
    fn count(&self, sweep: Sweep) -> usize
        ensures { result ≡ length (stops sweep self.now) }
    {
        match sweep {
            Sweep::First => self.first.len(),
            Sweep::Second => self.second.len(),
            Sweep::Over => 0,
        }
    }

    // The next visit of a sweep, none where all were made.
    pub(crate) fn next(&self, sweep: Sweep) -> Option<Stop>
        ensures { result ≡ slice_get (stops sweep self.now) self.now.made }
    {
        match sweep {
            Sweep::First => self.first.get(self.made).copied(),
            Sweep::Second => self.second.get(self.made).copied(),
            Sweep::Over => None,
        }
    }

    // Whether all visits of a sweep were made.
    pub(crate) fn has_made_all(&self, sweep: Sweep) -> bool
        ensures { result ≡ (self.now.made == length (stops sweep self.now)) }
    {
        self.made == self.count(sweep)
    }

    // Makes the next visit of a sweep.
    pub(crate) fn pass(&mut self, sweep: Sweep)
        requires { IsSome (slice_get (stops sweep self.old) self.old.made) }
        ensures { self.new ≡ passed self.old }
    {
        if self.made < self.count(sweep) {
            self.made += 1;
        }
    }

    // Adds a task, which is Free.
    pub(crate) fn offer(&mut self, leaf: Leaf) -> Result<(), AllocError>
        ensures ok { OnOk result (self.new ≡ offering leaf self.old) }
        ensures err { OnErr result (self.new ≡ self.old) }
    {
        self.tasks.push(Offered {
            leaf,
            word: Word::Free,
        })?;
        Ok(())
    }

    // A task by its number.
    pub(crate) fn task(&self, task: u32) -> Option<Offered>
        ensures { result ≡ slice_get self.now.tasks task }
    {
        self.tasks.get(task as usize).copied()
    }

    // Puts a task in the place of another.
    pub(crate) fn replace(&mut self, task: u32, offered: Offered)
        requires { IsSome (slice_get self.old.tasks task) }
        ensures { self.new ≡ with_task task offered self.old }
    {
        self.tasks[task as usize] = offered;
    }

    // Goes back before the first visit of a sweep.
    pub(crate) fn rewind(&mut self)
        ensures { self.new ≡ rewound self.old }
    {
        self.made = 0;
    }
}
