//! A pool used on one thread.
ghost use Rattle.std.specs.Prelude.{◌≡◌, ◌≤◌, IfOk};
ghost use Rattle.solver_api.specs.Parts.{HaveParts};
ghost use Rattle.result_table.specs.Views.{newcomer};
ghost use Rattle.task_pool.specs.Seen.{IsHandOf, IsHelperOf, HasTasks, pool_solver, tree_of, hand_view};

use crate::gate::{Gate, Through};
use crate::parts::{Helper, Pool, TreeHand};
use peano_keys::{CellKey, Dim, Side, Sides, State};
use result_table::Task;
use std::alloc::{AllocError, Global};
use std::process::Abort;
use std::sync::atomic::{AtomicU64, Ordering};
use std::test::Fail;
use volume_solver::{Diffuse, EdgeRule};

#[derive(Drop)]
struct Counter {
    passed: AtomicU64,
}

impl Gate for Counter {
    fn pass(&self, _tree: u32, _task: u32) {
        self.passed.fetch_add(1, Ordering::SeqCst);
    }
}

pub(crate) fn pulse() -> Diffuse {
    Diffuse::new(Dim::Two, 1, 90, EdgeRule::Copy, None)
}

/// The centre of a pulse of this height, a multiple of 10; after the step it has three fifths of it.
pub(crate) fn centre(number: u32, height: i64) -> Task
    ensures number { (result.tree ≡ 0) × (result.task ≡ number) }
    ensures level { result.key.level ≤ 12 }
    ensures parts { HaveParts 1 result.own result.sides }
{
    let zero = Side::Same(State::Single(0));
    Task {
        tree: 0,
        task: number,
        key: CellKey {
            level: 1,
            x: [1, 1, 0],
        },
        own: State::Single(height),
        sides: Sides {
            low: [zero, zero, Side::Edge],
            high: [zero, zero, Side::Edge],
        },
    }
}

#[derive(Drop)]
struct Staffed {
    pool: Pool<Diffuse>,
    hand: TreeHand<Diffuse>,
    helper: Helper<Diffuse>,
}

/// A pool of one tree and one helper whose hand has spawned its three tasks.
fn seated(alloc: Global, solver: &Diffuse) -> Result<Staffed, AllocError>
    ensures pool { IfOk result (λ s. HasTasks s.pool 0 3 × (pool_solver s.pool ≡ solver.now)) }
    ensures hand { IfOk result (λ s. IsHandOf s.pool s.hand × (tree_of s.hand ≡ 0)
        × (hand_view s.hand ≡ newcomer solver.now 0 2)) }
    ensures helper { IfOk result (λ s. IsHelperOf s.pool s.helper) }
{
    let (pool, mut hands, mut helpers) = Pool::new(alloc, &[3], 1, solver)?;
    let mut hand = hands.pop().unwrap();
    let helper = helpers.pop().unwrap();
    hand.spawn(&pool, centre(0, 100));
    hand.spawn(&pool, centre(1, 200));
    hand.spawn(&pool, centre(2, 300));
    Ok(Staffed { pool, hand, helper })
}

/// Gathers the three tasks.
fn gather_all<R: Abort, G: Gate>(rt: &R, at: &mut Staffed, solver: &Diffuse, gate: &G)
    requires pool { HasTasks at.old.pool 0 3 × (pool_solver at.old.pool ≡ solver.now) }
    requires hand { IsHandOf at.old.pool at.old.hand × (tree_of at.old.hand ≡ 0)
        × (hand_view at.old.hand ≡ newcomer solver.now 0 2) }
    ensures { (at.new.pool ≡ at.old.pool) × (at.new.helper ≡ at.old.helper) }
{
    let first = at.hand.gather(&at.pool, solver, gate, &centre(0, 100));
    assert_eq!(rt; first, Some(State::Single(60)));
    let second = at.hand.gather(&at.pool, solver, gate, &centre(1, 200));
    assert_eq!(rt; second, Some(State::Single(120)));
    let third = at.hand.gather(&at.pool, solver, gate, &centre(2, 300));
    assert_eq!(rt; third, Some(State::Single(180)));
}

#[test]
fn a_helper_computes_what_is_gathered(rt: HostRuntime) -> Result<(), Fail> {
    let solver = pulse();
    let gate = Counter {
        passed: AtomicU64::new(0),
    };
    let mut at = seated(rt.alloc(), &solver)?;
    let published = at.helper.help(&at.pool, &solver, &gate);
    assert_eq!(rt; published, 3);
    assert_eq!(rt; gate.passed.load(Ordering::SeqCst), 3);
    gather_all(&rt, &mut at, &solver, &gate);
    assert_eq!(rt; gate.passed.load(Ordering::SeqCst), 3);
    Ok(())
}

#[test]
fn what_nobody_took_is_computed_when_gathered(rt: HostRuntime) -> Result<(), Fail> {
    let solver = pulse();
    let gate = Counter {
        passed: AtomicU64::new(0),
    };
    let mut at = seated(rt.alloc(), &solver)?;
    gather_all(&rt, &mut at, &solver, &gate);
    assert_eq!(rt; gate.passed.load(Ordering::SeqCst), 3);
    assert_eq!(rt; at.helper.help(&at.pool, &solver, &Through), 0);
    Ok(())
}
