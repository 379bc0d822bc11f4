//! Laws of a tree's deque, each the contract of a call that does nothing.
ghost use Rattle.task_pool.specs.Laws.{TakenWasSpawned, TakenOnce, NumbersAreBelow};

use crate::parts::TreeHand;
use result_table::Updates;

/// What helpers took are tasks that the tree's hand spawned.
pub fn taken_was_spawned()
    ensures { TakenWasSpawned }
{}

/// All helpers together took no number twice.
pub fn taken_once()
    ensures { TakenOnce }
{}

/// A hand's tasks have numbers from 0 upwards: those that it put into its deque have numbers below how many it has spawned.
pub fn numbers_are_below<S: Updates>(hand: &TreeHand<S>)
    ensures { NumbersAreBelow hand.now }
{
    let _ = hand;
}
