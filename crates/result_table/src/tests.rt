//! A desk of one task and two seats, in the three orders that a collection can meet.
ghost use Rattle.std.specs.Prelude.{◌≡◌, ◌≤◌, IfOk};
ghost use Rattle.solver_api.specs.Parts.{HaveParts};
ghost use Rattle.result_table.specs.Views.{newcomer};
ghost use Rattle.result_table.specs.Seats.{IsSeatOf, view_of, size_of, desk_solver};

use crate::done::Done;
use crate::parts::{Desk, DeskSeat, Gathered};
use crate::task::Task;
use crate::word::Word;
use peano_keys::{CellKey, Dim, Side, Sides, State};
use std::alloc::{AllocError, Global};
use std::test::Fail;
use volume_solver::{Diffuse, EdgeRule};

fn pulse() -> Diffuse {
    Diffuse::new(Dim::Two, 1, 90, EdgeRule::Copy, None)
}

fn centre() -> Task
    ensures number { result.task ≡ 0 }
    ensures level { result.key.level ≤ 12 }
    ensures parts { HaveParts 1 result.own result.sides }
{
    let zero = Side::Same(State::Single(0));
    Task {
        tree: 0,
        task: 0,
        key: CellKey {
            level: 1,
            x: [1, 1, 0],
        },
        own: State::Single(100),
        sides: Sides {
            low: [zero, zero, Side::Edge],
            high: [zero, zero, Side::Edge],
        },
    }
}

#[derive(Drop)]
struct Pair {
    desk: Desk<Diffuse>,
    first: DeskSeat<Diffuse>,
    second: DeskSeat<Diffuse>,
}

fn seated(alloc: Global, solver: &Diffuse) -> Result<Pair, AllocError>
    ensures desk { IfOk result (λ t. (size_of t.desk ≡ 1) × (desk_solver t.desk ≡ solver.now)) }
    ensures first { IfOk result (λ t. IsSeatOf t.desk t.first
        × (view_of t.first ≡ newcomer solver.now 0 2)) }
    ensures second { IfOk result (λ t. IsSeatOf t.desk t.second
        × (view_of t.second ≡ newcomer solver.now 1 0)) }
{
    let (desk, mut seats) = Desk::new(alloc, 1, 2, solver)?;
    let second = seats.pop().unwrap();
    let first = seats.pop().unwrap();
    Ok(Pair {
        desk,
        first,
        second,
    })
}

#[test]
fn a_task_that_is_running_is_not_waited_for(rt: HostRuntime) -> Result<(), Fail> {
    let solver = pulse();
    let mut at = seated(rt.alloc(), &solver)?;
    assert!(rt; at.desk.claim(&mut at.second, 0));
    assert!(rt; !at.desk.claim(&mut at.first, 0));
    assert!(rt; matches!(at.desk.collect(&mut at.first, 0), Gathered::Running));
    let done = Done::compute(&solver, centre());
    assert!(rt; !at.desk.publish(&mut at.second, 0, done));
    Ok(())
}

#[test]
fn a_collected_task_is_not_claimed(rt: HostRuntime) -> Result<(), Fail> {
    let solver = pulse();
    let mut at = seated(rt.alloc(), &solver)?;
    assert!(rt; matches!(at.desk.collect(&mut at.first, 0), Gathered::Free));
    assert!(rt; !at.desk.claim(&mut at.second, 0));
    Ok(())
}

#[test]
fn a_published_result_is_gathered(rt: HostRuntime) -> Result<(), Fail> {
    let solver = pulse();
    let mut at = seated(rt.alloc(), &solver)?;
    assert!(rt; at.desk.claim(&mut at.second, 0));
    let done = Done::compute(&solver, centre());
    assert!(rt; at.desk.publish(&mut at.second, 0, done));
    match at.desk.collect(&mut at.first, 0) {
        Gathered::Taken(done) => {
            assert!(rt; done.task().same(&centre()));
            assert_eq!(rt; done.answer(), Some(State::Single(60)));
        }
        _ => panic!(rt; "nothing was gathered"),
    }
    Ok(())
}

#[test]
fn words_move_by_the_events(rt: HostRuntime) {
    assert_eq!(rt; Word::Free.take(3), Some(Word::Taken(3)));
    assert_eq!(rt; Word::Taken(3).take(4), None);
    assert_eq!(rt; Word::Taken(3).publish(3), Some(Word::Published));
    assert_eq!(rt; Word::Taken(3).publish(4), None);
    assert_eq!(rt; Word::Taken(3).collect(), Some(Word::Collected));
    assert_eq!(rt; Word::Collected.collect(), None);
    assert_eq!(rt; Word::Taken(3).code(), 6);
}
