//! Laws of runs, each the contract of a call that does nothing.
ghost use Rattle.running_threads.specs.Hands.{AnswersCollect, OffersSpawn, TurnsKeep};
ghost use Rattle.running_threads.specs.Laws.{LeavesKeepNumbers, NoneIsLeft, NumbersAreOfLeaves, OthersAreCollected, RunsAgree, RunsAnswer, RunsAreHistories, RunsAreLegal, TasksKeepLeaves, TreesGoOn};

use pool_events::laws::{deeds_are_events, new_pools_agree, pools_are_cores};
use result_table::Updates;
use step_sweeps::TreeTasks;
use task_core::laws::each_leaf_is_answered;
use task_pool::Pool;

/// A run of a pool, as its threads make it, is a history of the core that begins with the step: what a hand spawns its
/// tree has offered, and it collects in the second sweep alone, below what it spawned.
pub fn runs_are_histories<S: Updates>(pool: &Pool<S>)
    ensures { RunsAreHistories pool.now }
{
    let _ = pool;
}

/// So at each point of a run the words of all desks are those of a core that ran the events so far.
pub fn runs_agree<S: Updates>(pool: &Pool<S>)
    ensures { RunsAgree pool.now }
{
    pools_are_cores(pool);
    new_pools_agree(pool);
}

/// Each event of a run is legal after those before it, but for a claim that is lost and a publication that comes late,
/// which are not.
pub fn runs_are_legal<S: Updates>(pool: &Pool<S>)
    ensures { RunsAreLegal pool.now }
{
    pools_are_cores(pool);
    new_pools_agree(pool);
    deeds_are_events(pool);
}

/// Where a tree is at an enclave leaf, in either sweep, the number of the task that its hand spawns or collects next is
/// that of the leaf's task.
pub fn numbers_are_of_leaves<S: Updates>(pool: &Pool<S>)
    ensures { NumbersAreOfLeaves pool.now }
{
    let _ = pool;
}

/// A task keeps its leaf, whatever happens.
pub fn tasks_keep_leaves()
    ensures { TasksKeepLeaves }
{}

/// So each leaf is collected by the number by which it was spawned.
pub fn leaves_keep_numbers<S: Updates>(pool: &Pool<S>)
    ensures { LeavesKeepNumbers pool.now }
{
    let _ = pool;
}

/// A tree that has not ended its sweep can go on in it: by its next visit, or with the task of the leaf that it is at.
pub fn trees_go_on<S: Updates>(pool: &Pool<S>)
    ensures { TreesGoOn pool.now }
{
    let _ = pool;
}

/// From the second sweep on the tasks with numbers that are not left are collected.
pub fn others_are_collected<S: Updates>(pool: &Pool<S>)
    ensures { OthersAreCollected pool.now }
{
    let _ = pool;
}

/// No task is left when its tree has ended its secondary sweep.
pub fn none_is_left<S: Updates>(pool: &Pool<S>)
    ensures { NoneIsLeft pool.now }
{
    let _ = pool;
}

/// After the second exchange of a run each leaf has the kernel's answer.
pub fn runs_answer<S: Updates>(pool: &Pool<S>)
    ensures { RunsAnswer pool.now }
{
    let _ = pool;
    each_leaf_is_answered();
}

/// What the visitors of both sweeps do with a tree's tasks leads its place on as a run does: an offer spawns the next
/// number, all of them are left at the turn, and an answer collects the greatest that is left, which is a deed of the
/// hand's seat.
pub fn hands_go_as_places<'p, S: Updates>(tasks: &TreeTasks<'p, S>)
    ensures offers { OffersSpawn tasks.now }
    ensures turns { TurnsKeep tasks.now }
    ensures answers { AnswersCollect tasks.now }
{
    let _ = tasks;
}
