//! What a user of a deque knows, and the rule of the deque.
use crate::job::Job;
use crossbeam_deque::protocol::{Outcome, Protocol};
use std::collections::LinkedList;

/// Whether it is the tree's hand, what it spawned and what it took. No value of it is made.
pub struct Log {
    pub spawns: bool,
    pub spawned: LinkedList<Job>,
    pub taken: LinkedList<Job>,
}

/// The rule that holds between any two steps: what is taken was spawned, and nothing is taken twice.
pub struct Fair;

impl Protocol<Job, Log> for Fair {
    ghost use Rattle.std.specs.Prelude.{true, false, []};
    ghost use Rattle.task_pool.specs.Deque.{log, IsFair};

    ghost holds = { IsFair };

    ghost first = { log true [] [] };

    ghost guest = { log false [] [] };
}

/// A task is put into the deque.
pub struct Spawns;

impl Outcome<Job, Log> for Spawns {
    ghost use Rattle.std.specs.Prelude.{◌≡◌, ◌++◌};
    ghost use Rattle.task_pool.specs.Deque.{log};

    ghost then = { λ v xs w. w ≡ log v.spawns (v.spawned ++ xs) v.taken };
}

/// A task is taken from it.
pub struct Takes;

impl Outcome<Job, Log> for Takes {
    ghost use Rattle.std.specs.Prelude.{◌≡◌, ◌++◌};
    ghost use Rattle.task_pool.specs.Deque.{log};

    ghost then = { λ v xs w. w ≡ log v.spawns v.spawned (v.taken ++ xs) };
}
