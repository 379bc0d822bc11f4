//! The tasks of the trees in a step.
ghost use Rattle.std.specs.Prelude.{◌≡◌, ◌+◌, ◌-◌, ◌<◌, ◌≤◌, ◌^◌, ℕ, length, slice_index, slice_index_or, IfOk};
ghost use Rattle.task_pool.specs.Seen.{pool_solver};
ghost use Rattle.step_driver.specs.Tasking.{AreFresh, AreTasksOf};

use solver_api::Solver;
use std::alloc::{AllocError, Global};
use step_sweeps::TreeTasks;
use task_pool::{Pool, TreeHand};
use tree_automaton::TreeStore;

// How many tasks a tree's desk has: one for each leaf of the tree's own, up to the most that a desk has.
fn desk_size(store: &TreeStore) -> u32
    ensures { result < 2 ^ 32 - 1 }
{
    match u32::try_from(store.owned_leaves()) {
        Ok(leaves) if leaves < u32::MAX => leaves,
        _ => u32::MAX - 1,
    }
}

/// How many tasks the desk of each tree has, with so many helpers: none without helpers, since a task that nobody may take
/// is computed as well without a desk.
pub(crate) fn desk_sizes(
    alloc: Global,
    stores: &[TreeStore],
    workers: u32,
) -> Result<Vec<u32>, AllocError>
    ensures count { IfOk result (λ sizes. length sizes.items ≡ length stores.now) }
    ensures small { IfOk result
        (λ sizes. (k : ℕ) → k < length stores.now → slice_index sizes.items k < 2 ^ 32 - 1) }
{
    let mut sizes = Vec::new(alloc);
    for store in stores {
        let size = if workers == 0 { 0 } else { desk_size(store) };
        sizes.push(size)?;
    }
    Ok(sizes)
}

/// The tasks of each tree, from the hands of a new pool.
pub(crate) fn seat_trees<'p, S: Solver>(
    alloc: Global,
    pool: &'p Pool<S>,
    hands: Vec<TreeHand<S>>,
) -> Result<Vec<TreeTasks<'p, S>>, AllocError>
    requires fresh { AreFresh pool.now 0 hands.items }
    requires few { length hands.items ≤ 64 }
    ensures count { IfOk result (λ tasks. length tasks.items ≡ length hands.items) }
    ensures solver { IfOk result (λ tasks. AreTasksOf (pool_solver pool.now) tasks.items) }
{
    let mut left = hands;
    let mut all = Vec::new(alloc);
    let mut tree = 0;
    while !left.is_empty() {
        let hand = left.remove(0);
        all.push(TreeTasks::new(pool, hand, tree))?;
        tree += 1;
    }
    Ok(all)
}
