//! Laws of pools, each the contract of a call that does nothing.
ghost use Rattle.pool_events.specs.Laws.{ClaimsWereSpawned, DeedsAreEvents, NewPoolsAgree, PoolsAreCores, PoolsHaveMoments};

use result_table::Updates;
use task_pool::Pool;

/// Each task that a seat of a tree's desk has claimed was spawned by that tree's hand.
pub fn claims_were_spawned<S: Updates>(pool: &Pool<S>)
    ensures { ClaimsWereSpawned pool.now }
{
    let _ = pool;
}

/// A won claim is the event of taking, a publication that of publishing, and a collection that of collecting, and each of
/// them is legal then; a claim that is lost and a publication that comes late are events that are not legal.
pub fn deeds_are_events<S: Updates>(pool: &Pool<S>)
    ensures { DeedsAreEvents pool.now }
{
    let _ = pool;
}

/// In each history of a pool the words of its desks are those of a core that ran the events of that history.
pub fn pools_are_cores<S: Updates>(pool: &Pool<S>)
    ensures { PoolsAreCores pool.now }
{
    let _ = pool;
}

/// Between the calls of its hands and helpers, and whatever these have done, each tree of a pool is at a moment of which
/// the laws speak.
pub fn pools_have_moments<S: Updates>(pool: &Pool<S>)
    ensures { PoolsHaveMoments pool.now }
{
    let _ = pool;
}

/// A new pool agrees with a core that begins a step.
pub fn new_pools_agree<S: Updates>(pool: &Pool<S>)
    ensures { NewPoolsAgree pool.now }
{
    let _ = pool;
}
