//! The calls of a desk told as deeds: so the laws are about what these calls do.
ghost use Rattle.std.specs.Prelude.{◌≡◌, ◌<◌, true, false};
ghost use Rattle.result_table.specs.Seen.{task_of, solver_of};
ghost use Rattle.result_table.specs.Views.{has};
ghost use Rattle.result_table.specs.Seats.{IsSeatOf, IsUncollected, view_of, size_of, desk_solver};
ghost use Rattle.pool_events.specs.Calls.{Did, DidPublish, claim_as, collection_as};

use result_table::{Desk, DeskSeat, Done, Gathered, Updates};

/// A claim: the seat wins the task or loses it.
pub fn claim<S: Updates>(desk: &Desk<S>, seat: &mut DeskSeat<S>, k: u32) -> bool
    requires seat { IsSeatOf desk.now seat.old }
    requires task { k < size_of desk.now }
    ensures seat { IsSeatOf desk.now seat.new }
    ensures did { Did (claim_as result (view_of seat.old).number k) (view_of seat.old)
        (view_of seat.new) }
{
    desk.claim(seat, k)
}

/// A publication: the seat has the task's slot out, and then publishes the result or comes too late with it.
pub fn publish<S: Updates>(desk: &Desk<S>, seat: &mut DeskSeat<S>, k: u32, done: Done<S>) -> bool
    requires seat { IsSeatOf desk.now seat.old }
    requires task { k < size_of desk.now }
    requires claimed { has (view_of seat.old).claimed k ≡ true }
    requires fresh { (has (view_of seat.old).published k ≡ false)
        × (has (view_of seat.old).late k ≡ false) }
    requires done { ((task_of done).task ≡ k) × (solver_of done ≡ desk_solver desk.now) }
    ensures seat { IsSeatOf desk.now seat.new }
    ensures did { DidPublish result (view_of seat.old).number k (view_of seat.old)
        (view_of seat.new) }
{
    desk.publish(seat, k, done)
}

/// A collection: the first seat gathers the task, or finds it idle or busy.
pub fn collect<S: Updates>(desk: &Desk<S>, seat: &mut DeskSeat<S>, k: u32) -> Gathered<S>
    requires seat { IsSeatOf desk.now seat.old }
    requires task { k < size_of desk.now }
    requires first { (view_of seat.old).number ≡ 0 }
    requires fresh { IsUncollected (view_of seat.old) k }
    ensures seat { IsSeatOf desk.now seat.new }
    ensures did { Did (collection_as k result) (view_of seat.old) (view_of seat.new) }
{
    desk.collect(seat, k)
}
