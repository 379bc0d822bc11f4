//! A hand and two helpers on threads of their own, with a thousand tasks. What is asserted holds for every schedule.
ghost use Rattle.std.specs.Prelude.{◌≡◌, ◌<◌, ◌≤◌, ℕ, vec_len, IfOk};
ghost use Rattle.result_table.specs.Seats.{IsUncollected};
ghost use Rattle.result_table.specs.Views.{newcomer};
ghost use Rattle.task_pool.specs.Seen.{IsHandOf, IsHelperOf, HasTasks, pool_solver, tree_of, spawned_of, hand_view};

use crate::gate::Gate;
use crate::parts::{Helper, Pool, TreeHand};
use crate::tests::{centre, pulse};
use peano_keys::State;
use std::alloc::{AllocError, Global};
use std::sync::atomic::{AtomicU64, Ordering};
use std::test::Fail;
use std::thread::{Threads, join};
use volume_solver::Diffuse;

const TASKS: u32 = 1000;

/// Counts the kernels of each task.
#[derive(Drop)]
struct Tally {
    passed: Vec<AtomicU64>,
}

impl Gate for Tally {
    fn pass(&self, _tree: u32, task: u32) {
        if let Some(count) = self.passed.get(task as usize) {
            count.fetch_add(1, Ordering::SeqCst);
        }
    }
}

impl Tally {
    fn new(alloc: Global) -> Result<Tally, AllocError> {
        let mut passed = Vec::new(alloc);
        for _ in 0..TASKS {
            passed.push(AtomicU64::new(0))?;
        }
        Ok(Tally { passed })
    }

    /// How many kernels ran, and the most of one task.
    fn counts(&self) -> (u64, u64) {
        let mut all = 0u64;
        let mut most = 0;
        for count in &self.passed {
            let here = count.load(Ordering::SeqCst);
            all = all.wrapping_add(here);
            most = if here > most { here } else { most };
        }
        (all, most)
    }
}

/// Spawns the tasks up to this number.
fn spawn_up_to(hand: &mut TreeHand<Diffuse>, pool: &Pool<Diffuse>, end: u32)
    requires hand { IsHandOf pool.now hand.old × (tree_of hand.old ≡ 0) }
    requires tasks { HasTasks pool.now 0 1000 × (end ≤ 1000) × (spawned_of hand.old ≤ end) }
    ensures hand { IsHandOf pool.now hand.new × (tree_of hand.new ≡ 0)
        × (spawned_of hand.new ≡ end) }
    ensures view { hand_view hand.new ≡ hand_view hand.old }
{
    'spawns: while hand.spawned() < end {
        let number = hand.spawned();
        hand.spawn(pool, centre(number, 10 * number as i64));
    }
}

/// Gathers all tasks. Answers how many answers were not the kernel's.
fn gather_all(
    hand: &mut TreeHand<Diffuse>,
    pool: &Pool<Diffuse>,
    solver: &Diffuse,
    gate: &Tally,
) -> u32
    requires hand { IsHandOf pool.now hand.old × (tree_of hand.old ≡ 0) }
    requires tasks { HasTasks pool.now 0 1000 }
    requires solver { solver.now ≡ pool_solver pool.now }
    requires fresh { (k : ℕ) → IsUncollected (hand_view hand.old) k }
{
    let mut wrong = 0;
    let mut number = 0;
    'gathers: while number < TASKS {
        let answer = hand.gather(pool, solver, gate, &centre(number, 10 * number as i64));
        if answer != Some(State::Single(6 * number as i64)) {
            wrong += 1;
        }
        number += 1;
    }
    wrong
}

/// The hand spawns the second half of its tasks and gathers all, while two helpers help. Answers how many answers were wrong, and what the helpers published.
fn beside<R: Threads + Sync>(
    rt: &R,
    pool: &Pool<Diffuse>,
    mut hand: TreeHand<Diffuse>,
    mut first: Helper<Diffuse>,
    mut second: Helper<Diffuse>,
    solver: &Diffuse,
    mine: &Tally,
    theirs: &Tally,
) -> (u32, (u64, u64))
    requires hand { IsHandOf pool.now hand × (tree_of hand ≡ 0) × (spawned_of hand ≤ 1000) }
    requires tasks { HasTasks pool.now 0 1000 }
    requires fresh { (k : ℕ) → IsUncollected (hand_view hand) k }
    requires helpers { IsHelperOf pool.now first × IsHelperOf pool.now second }
    requires solver { solver.now ≡ pool_solver pool.now }
{
    join(
        rt,
        move || -> u32
            requires { IsHandOf pool.now hand × (tree_of hand ≡ 0) × (spawned_of hand ≤ 1000)
                × HasTasks pool.now 0 1000
                × ((k : ℕ) → IsUncollected (hand_view hand) k)
                × (solver.now ≡ pool_solver pool.now) }
        {
            spawn_up_to(&mut hand, pool, TASKS);
            gather_all(&mut hand, pool, solver, mine)
        },
        move || -> (u64, u64)
            requires { IsHelperOf pool.now first × IsHelperOf pool.now second
                × (solver.now ≡ pool_solver pool.now) }
        {
            join(
                rt,
                move || -> u64
                    requires { IsHelperOf pool.now first × (solver.now ≡ pool_solver pool.now) }
                { first.help(pool, solver, theirs) },
                move || -> u64
                    requires { IsHelperOf pool.now second × (solver.now ≡ pool_solver pool.now) }
                { second.help(pool, solver, theirs) },
            )
        },
    )
}

#[derive(Drop)]
struct Crew {
    pool: Pool<Diffuse>,
    hand: TreeHand<Diffuse>,
    first: Helper<Diffuse>,
    second: Helper<Diffuse>,
}

/// A pool of one tree of a thousand tasks, with two helpers.
fn pool_of_a_thousand(alloc: Global, solver: &Diffuse) -> Result<Crew, AllocError>
    ensures pool { IfOk result (λ s. HasTasks s.pool 0 1000 × (pool_solver s.pool ≡ solver.now)) }
    ensures hand { IfOk result (λ s. IsHandOf s.pool s.hand × (tree_of s.hand ≡ 0)
        × (spawned_of s.hand ≡ 0) × (hand_view s.hand ≡ newcomer solver.now 0 3)) }
    ensures helpers { IfOk result (λ s. IsHelperOf s.pool s.first × IsHelperOf s.pool s.second) }
{
    let (pool, mut hands, mut helpers) = Pool::new(alloc, &[TASKS], 2, solver)?;
    let hand = hands.pop().unwrap();
    let second = helpers.pop().unwrap();
    let first = helpers.pop().unwrap();
    Ok(Crew {
        pool,
        hand,
        first,
        second,
    })
}

#[test]
fn each_task_is_published_once_or_gathered_by_the_tree(rt: HostRuntime) -> Result<(), Fail> {
    let solver = pulse();
    let Crew {
        pool,
        mut hand,
        first,
        second,
    } = pool_of_a_thousand(rt.alloc(), &solver)?;
    let mine = Tally::new(rt.alloc())?;
    let theirs = Tally::new(rt.alloc())?;
    spawn_up_to(&mut hand, &pool, TASKS / 2);
    let (wrong, (one, other)) = beside(&rt, &pool, hand, first, second, &solver, &mine, &theirs);
    assert_eq!(rt; wrong, 0);
    let (by_tree, twice_by_tree) = mine.counts();
    let (_by_helpers, twice_by_helpers) = theirs.counts();
    assert!(rt; twice_by_tree <= 1 && twice_by_helpers <= 1);
    assert_eq!(rt; by_tree.wrapping_add(one).wrapping_add(other), 1000);
    Ok(())
}
