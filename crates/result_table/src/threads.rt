//! A desk is shared by threads, and its seats and results are sent from one to another.
ghost use Rattle.std.specs.Prelude.{◌≡◌};

use crate::done::Done;
use crate::parts::{Desk, DeskSeat};
use solver_api::Solver;

fn sent<T: Send>(x: T) -> T
    ensures { result ≡ x }
{
    x
}

fn shared<T: Sync>(x: &T) {
    let _ = x;
}

/// A seat may go to another thread.
pub fn seat_is_sent<S: Solver>(seat: DeskSeat<S>) -> DeskSeat<S>
    ensures { result ≡ seat }
{
    sent(seat)
}

/// A result may go to another thread.
pub fn done_is_sent<S: Solver>(done: Done<S>) -> Done<S>
    ensures { result ≡ done }
{
    sent(done)
}

/// A desk may be used by several threads.
pub fn desk_is_shared<S: Solver>(desk: &Desk<S>) {
    shared(desk);
}
