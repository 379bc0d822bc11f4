//! A pool, the hands of its trees and its helpers.
ghost use Rattle.std.specs.Prelude.{◌≡◌, ◌≤◌, ℕ, true};
ghost use Rattle.crossbeam_deque.specs.Handles.{worker_view};
ghost use Rattle.task_pool.specs.Deque.{count, has_number};

use crate::job::Job;
use crate::log::{Fair, Log};
use crossbeam_deque::{Pass, Stealer, Worker};
use result_table::{Desk, DeskSeat, Updates, Witness};
use std::alloc::Global;

/// A tree's desk, and the end of its deque at which helpers take tasks.
#[derive(Drop)]
pub struct Tree<S: Updates> {
    pub(crate) desk: Desk<S>,
    pub(crate) stealer: Stealer<Job, Global, Log, Fair>,
}

/// One desk and one deque a tree. `total` is the number of tasks of all desks.
#[derive(Drop)]
pub struct Pool<S: Updates> {
    pub(crate) trees: Vec<Tree<S>>,
    pub(crate) total: u64,
    pub(crate) solver: Witness<S>,
}

/// What a tree spawns and gathers with. Contracts see it as its tree, its number of spawned tasks and what its seat knows.
#[derive(Drop)]
pub struct TreeHand<S: Updates> {
    pub(crate) tree: u32,
    pub(crate) seat: DeskSeat<S>,
    pub(crate) worker: Worker<Job, Global, Log, Fair>,
    pub(crate) spawned: u32,
    ghost spawns: { (worker_view worker).spawns ≡ true },
    ghost below: { (n : ℕ) → spawned ≤ n → count (has_number n) (worker_view worker).spawned ≡ 0 },
}

/// A helper's place at one tree: a seat of its desk and a pass of its deque.
#[derive(Drop)]
pub struct Post<S: Updates> {
    pub(crate) seat: DeskSeat<S>,
    pub(crate) pass: Pass<Job, Log>,
}

/// What steals tasks of any tree and computes them.
#[derive(Drop)]
pub struct Helper<S: Updates> {
    pub(crate) posts: Vec<Post<S>>,
}
