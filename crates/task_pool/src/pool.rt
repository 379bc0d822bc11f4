//! How a pool is made.
ghost use Rattle.std.specs.Prelude.{◌≡◌, ◌+◌, ◌-◌, ◌<◌, ◌≤◌, ◌^◌, ◌++◌, ◌∷◌, [], ℕ, length, vec_len, slice_index, slice_index_or, IfOk};
ghost use Rattle.result_table.specs.Views.{newcomer};
ghost use Rattle.task_pool.specs.Seen.{IsPool, IsPostAt, IsHandOf, IsHelperOf, HasTasks, pool_solver, tree_count, tree_of, spawned_of, hand_view};
ghost use Rattle.task_pool.specs.Built.{IsFreshSeat, IsPlaced, IsBuilt};

use crate::job::Job;
use crate::log::{Fair, Log};
use crate::parts::{Helper, Pool, Post, Tree, TreeHand};
use crossbeam_deque::Worker;
use result_table::{Desk, DeskSeat, Updates, Witness};
use std::alloc::{AllocError, Global};

/// A pool while its trees are added.
#[derive(Drop)]
struct Building<S: Updates> {
    trees: Vec<Tree<S>>,
    hands: Vec<TreeHand<S>>,
    helpers: Vec<Helper<S>>,
    total: u64,
}

impl<S: Updates> Helper<S> {
    /// Takes a place at the next tree.
    fn join(&mut self, tree: &Tree<S>, seat: DeskSeat<S>) -> Result<(), AllocError>
        requires { IsFreshSeat tree.now seat }
        ensures { IfOk result (λ _. (p : _)
            × (self.new.posts.items ≡ self.old.posts.items ++ p ∷ [])
            × ((n : ℕ) → IsPostAt tree.now n p)) }
    {
        let pass = tree.stealer.pass();
        self.posts.push(Post { seat, pass })?;
        Ok(())
    }
}

/// Helpers with no place yet.
fn crew<S: Updates>(alloc: Global, workers: u32) -> Result<Vec<Helper<S>>, AllocError>
    ensures { IfOk result (λ v. (vec_len v ≡ workers) × ((j : ℕ) (h : _) → j < workers
        → IsPlaced [] 0 (slice_index_or v.items j h))) }
{
    let mut helpers = Vec::new(alloc);
    let mut count = 0;
    while count < workers {
        helpers.push(Helper {
            posts: Vec::new(alloc),
        })?;
        count += 1;
    }
    Ok(helpers)
}

/// Each helper takes a seat at this tree's desk, the last seat first.
fn man<S: Updates>(
    trees: &[Tree<S>],
    tree: u32,
    seats: &mut Vec<DeskSeat<S>>,
    helpers: &mut Vec<Helper<S>>,
) -> Result<(), AllocError>
    requires tree { tree < length trees.now }
    requires seats { (i : ℕ) (x : _) (d : _) → i < vec_len seats.old
        → IsFreshSeat (slice_index_or trees.now tree x) (slice_index_or seats.old.items i d) }
    requires enough { vec_len seats.old ≡ vec_len helpers.old + 1 }
    requires placed { (j : ℕ) (h : _) → j < vec_len helpers.old
        → IsPlaced trees.now tree (slice_index_or helpers.old.items j h) }
    ensures helpers { IfOk result (λ _. (vec_len helpers.new ≡ vec_len helpers.old)
        × ((j : ℕ) (h : _) → j < vec_len helpers.old
        → IsPlaced trees.now (tree + 1) (slice_index_or helpers.new.items j h))) }
    ensures seats { IfOk result (λ _. (vec_len seats.new ≡ 1)
        × ((d : _) → slice_index_or seats.new.items 0 d ≡ slice_index_or seats.old.items 0 d)) }
{
    let mut at = 0;
    while at < helpers.len() {
        let seat = seats.pop().unwrap();
        helpers[at].join(&trees[tree as usize], seat)?;
        at += 1;
    }
    Ok(())
}

impl<S: Updates> Building<S> {
    /// Adds the next tree: its desk, its deque, its hand and a place for each helper.
    fn add_tree(
        &mut self,
        alloc: Global,
        tasks: &[u32],
        workers: u32,
        solver: &S,
    ) -> Result<(), AllocError>
        requires room { vec_len self.old.trees < length tasks.now }
        requires few { length tasks.now ≤ 64 }
        requires small { slice_index tasks.now (vec_len self.old.trees) < 2 ^ 32 - 1 }
        requires workers { workers < 2 ^ 32 - 1 }
        requires built { IsBuilt tasks.now workers solver.now (vec_len self.old.trees) self.old }
        ensures { IfOk result
            (λ _. IsBuilt tasks.now workers solver.now (vec_len self.old.trees + 1) self.new) }
    {
        let tree = self.trees.len() as u32;
        let size = tasks[tree as usize];
        let (desk, mut seats) = Desk::new(alloc, size, workers + 1, solver)?;
        let worker = Worker::<Job, Global, Log, Fair>::fifo_as(alloc, 64)?;
        let stealer = worker.stealer()?;
        self.trees.push(Tree { desk, stealer })?;
        man(&self.trees, tree, &mut seats, &mut self.helpers)?;
        let seat = seats.pop().unwrap();
        self.hands.push(TreeHand {
            tree,
            seat,
            worker,
            spawned: 0,
        })?;
        self.total += size as u64;
        Ok(())
    }
}

impl<S: Updates> Pool<S> {
    /// A pool of one desk and one deque for each number of tasks, with a hand for each tree, by number, and so many helpers. Refused for want of memory alone.
    pub fn new(
        alloc: Global,
        tasks: &[u32],
        workers: u32,
        solver: &S,
    ) -> Result<(Pool<S>, Vec<TreeHand<S>>, Vec<Helper<S>>), AllocError>
        requires some { 1 ≤ length tasks.now }
        requires few { length tasks.now ≤ 64 }
        requires small { (k : ℕ) → k < length tasks.now → slice_index tasks.now k < 2 ^ 32 - 1 }
        requires workers { workers < 2 ^ 32 - 1 }
        ensures pool { IfOk result (λ r. (pool_solver r.0 ≡ solver.now)
            × (tree_count r.0 ≡ length tasks.now)) }
        ensures sizes { IfOk result (λ r. (k : ℕ) → k < length tasks.now
            → HasTasks r.0 k (slice_index tasks.now k)) }
        ensures hand_count { IfOk result (λ r. vec_len r.1 ≡ length tasks.now) }
        ensures hands { IfOk result (λ r. (k : ℕ) (h : _) → k < length tasks.now
            → IsHandOf r.0 (slice_index_or r.1.items k h)
            × (tree_of (slice_index_or r.1.items k h) ≡ k)
            × (spawned_of (slice_index_or r.1.items k h) ≡ 0)
            × (hand_view (slice_index_or r.1.items k h) ≡ newcomer solver.now 0 (workers + 1))) }
        ensures helper_count { IfOk result (λ r. vec_len r.2 ≡ workers) }
        ensures helpers { IfOk result (λ r. (j : ℕ) (h : _) → j < workers
            → IsHelperOf r.0 (slice_index_or r.2.items j h)) }
    {
        let helpers = crew(alloc, workers)?;
        let mut building = Building {
            trees: Vec::new(alloc),
            hands: Vec::new(alloc),
            helpers,
            total: 0,
        };
        'trees: while building.trees.len() < tasks.len() {
            building.add_tree(alloc, tasks, workers, solver)?;
        }
        let Building {
            trees,
            hands,
            helpers,
            total,
        } = building;
        let pool = Pool {
            trees,
            total,
            solver: Witness::of(solver),
        };
        Ok((pool, hands, helpers))
    }

    /// How many tasks a tree's desk has.
    pub fn size(&self, tree: u32) -> u32
        requires { tree < tree_count self.now }
        ensures { HasTasks self.now tree result }
    {
        self.trees[tree as usize].desk.size()
    }
}
