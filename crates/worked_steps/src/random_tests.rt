//! Random lists of events: a core replies to them, and answers after them, as their history says.
use crate::history::History;
use crate::nine_leaves::{answers, core_of, words};
use peano_curve::Direction;
use std::alloc::{AllocError, Global};
use std::process::Abort;
use task_core::{Core, Event, Reply};
use volume_solver::Diffuse;

// The next one of a list of random numbers.
fn drawn(seed: &mut u32) -> u32 {
    *seed = seed.wrapping_mul(1_664_525).wrapping_add(1_013_904_223);
    *seed >> 16
}

// A random event of these trees and of one that there is not, with ten tasks each, some of which there may not be. Most are
// visits.
fn drawn_event(seed: &mut u32, trees: u32) -> Event {
    let actor = drawn(seed) % 2;
    let tree = drawn(seed) % trees.saturating_add(1);
    let task = drawn(seed) % 10;
    match drawn(seed) % 12 {
        0 | 1 => Event::Take { actor, tree, task },
        2 | 3 => Event::Publish { actor, tree, task },
        4 => Event::Collect { tree, task },
        5 => Event::Exchange,
        _ => Event::Visit { tree },
    }
}

// Both take an event alike.
fn expect_alike(
    rt: &impl Abort,
    core: &mut Core<Diffuse>,
    history: &mut History,
    event: Event,
) -> Result<(), AllocError> {
    let want = if history.add(event)? {
        Reply::Applied
    } else {
        Reply::Skipped
    };
    assert_eq!(rt; core.step(event)?, want, "{event:?}");
    Ok(())
}

// Both have the same words and answers.
fn expect_same(
    rt: &impl Abort,
    alloc: Global,
    core: &Core<Diffuse>,
    history: &History,
) -> Result<(), AllocError> {
    for tree in 0..3 {
        let (found, want) = (words(alloc, core, tree)?, history.words(alloc, tree)?);
        assert_eq!(rt; found.as_slice(), want.as_slice(), "tree {tree}");
    }
    let (found, want) = (answers(alloc, core)?, history.all_answers(alloc)?);
    assert_eq!(rt; found.as_slice(), want.as_slice());
    Ok(())
}

fn compare(
    rt: &impl Abort,
    alloc: Global,
    trees: u32,
    dir: Direction,
    seed: u32,
) -> Result<(), AllocError> {
    let mut core = core_of(rt, alloc, trees, dir)?;
    let mut history = History::new(alloc, trees, dir);
    let mut seed = seed;
    for _ in 0..200 {
        let event = drawn_event(&mut seed, trees);
        expect_alike(rt, &mut core, &mut history, event)?;
    }
    expect_same(rt, alloc, &core, &history)
}

// Five hundred random lists.
fn compare_lists(
    rt: &impl Abort,
    alloc: Global,
    trees: u32,
    dir: Direction,
) -> Result<(), AllocError> {
    for seed in 0..500 {
        compare(rt, alloc, trees, dir, seed)?;
    }
    Ok(())
}

#[test]
fn random_lists_of_one_tree_agree_with_their_history(rt: HostRuntime) -> Result<(), AllocError> {
    compare_lists(&rt, rt.alloc(), 1, Direction::Forward)
}

#[test]
fn random_lists_of_one_tree_that_goes_back_agree(rt: HostRuntime) -> Result<(), AllocError> {
    compare_lists(&rt, rt.alloc(), 1, Direction::Backward)
}

#[test]
fn random_lists_of_two_trees_agree_with_their_history(rt: HostRuntime) -> Result<(), AllocError> {
    compare_lists(&rt, rt.alloc(), 2, Direction::Forward)
}

#[test]
fn random_lists_of_two_trees_that_go_back_agree(rt: HostRuntime) -> Result<(), AllocError> {
    compare_lists(&rt, rt.alloc(), 2, Direction::Backward)
}
