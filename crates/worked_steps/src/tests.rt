//! Worked steps of one tree over nine leaves, each of which is a task of its own.
use crate::nine_leaves::{answers, core_of, words};
use peano_curve::Direction;
use peano_keys::State;
use result_table::Word;
use std::alloc::{AllocError, Global};
use std::process::Abort;
use task_core::{Core, Event, Reply};
use volume_solver::Diffuse;

// The words and the answers of the tables below. Of the 100 in the centre 10 go to each of its four neighbours.
const FREE: Option<Word> = Some(Word::Free);

const PUBLISHED: Option<Word> = Some(Word::Published);

const COLLECTED: Option<Word> = Some(Word::Collected);

const NOTHING: Option<State> = Some(State::Single(0));

const TEN: Option<State> = Some(State::Single(10));

const SIXTY: Option<State> = Some(State::Single(60));

// A visit of the tree. A sweep enters and leaves ten cells: the root and the nine leaves.
const VISIT: Event = Event::Visit { tree: 0 };

fn take(actor: u32, task: u32) -> Event {
    Event::Take {
        actor,
        tree: 0,
        task,
    }
}

fn publish(actor: u32, task: u32) -> Event {
    Event::Publish {
        actor,
        tree: 0,
        task,
    }
}

fn collect(task: u32) -> Event {
    Event::Collect { tree: 0, task }
}

// So many of these events are applied.
fn expect_applied(
    rt: &impl Abort,
    core: &mut Core<Diffuse>,
    events: &[Event],
    count: u64,
) -> Result<(), AllocError> {
    assert_eq!(rt; core.run(events)?, count);
    Ok(())
}

fn expect_reply(
    rt: &impl Abort,
    core: &mut Core<Diffuse>,
    event: Event,
    want: Reply,
) -> Result<(), AllocError> {
    assert_eq!(rt; core.step(event)?, want, "{event:?}");
    Ok(())
}

// Each event is replied to as its row says.
fn expect_replies(
    rt: &impl Abort,
    core: &mut Core<Diffuse>,
    rows: &[(Event, Reply)],
) -> Result<(), AllocError> {
    for (event, want) in rows {
        expect_reply(rt, core, *event, *want)?;
    }
    Ok(())
}

// The words of the first ten tasks of the tree are these.
fn expect_words(
    rt: &impl Abort,
    alloc: Global,
    core: &Core<Diffuse>,
    want: &[Option<Word>],
) -> Result<(), AllocError> {
    let words = words(alloc, core, 0)?;
    assert_eq!(rt; words.as_slice(), want);
    Ok(())
}

// The answers of the leaves along the curve are these.
fn expect_answers(
    rt: &impl Abort,
    alloc: Global,
    core: &Core<Diffuse>,
    want: &[Option<State>],
) -> Result<(), AllocError> {
    let answers = answers(alloc, core)?;
    assert_eq!(rt; answers.as_slice(), want);
    Ok(())
}

// Tasks 1 and 4 are published in the first sweep along a direction; these are then the answers.
fn expect_published(
    rt: &impl Abort,
    alloc: Global,
    dir: Direction,
    want: &[Option<State>],
) -> Result<(), AllocError> {
    let mut core = core_of(rt, alloc, 1, dir)?;
    expect_words(rt, alloc, &core, &[None; 10])?;
    expect_applied(rt, &mut core, &[VISIT; 21], 20)?;
    let rows = [
        (take(1, 4), Reply::Applied),
        (take(2, 4), Reply::Skipped),
        (publish(2, 4), Reply::Skipped),
        (publish(1, 4), Reply::Applied),
        (publish(1, 4), Reply::Skipped),
        (take(2, 1), Reply::Applied),
        (publish(2, 1), Reply::Applied),
        (take(2, 9), Reply::Skipped),
    ];
    expect_replies(rt, &mut core, &rows)?;
    let words = [
        FREE, PUBLISHED, FREE, FREE, PUBLISHED, FREE, FREE, FREE, FREE, None,
    ];
    expect_words(rt, alloc, &core, &words)?;
    expect_answers(rt, alloc, &core, want)
}

#[test]
fn a_task_is_taken_and_published_once(rt: HostRuntime) -> Result<(), AllocError> {
    // The first sweep's direction, and the answers along the curve.
    let table = [
        (
            Direction::Forward,
            [None, TEN, None, None, SIXTY, None, None, None, None],
        ),
        (
            Direction::Backward,
            [None, None, None, None, SIXTY, None, None, TEN, None],
        ),
    ];
    for (dir, want) in table {
        expect_published(&rt, rt.alloc(), dir, &want)?;
    }
    Ok(())
}

// A core in its second sweep, before its first visit: task 4 was taken in the first sweep.
fn turned(rt: &impl Abort, alloc: Global) -> Result<Core<Diffuse>, AllocError> {
    let mut core = core_of(rt, alloc, 1, Direction::Forward)?;
    expect_applied(rt, &mut core, &[VISIT; 21], 20)?;
    let rows = [
        (take(1, 4), Reply::Applied),
        (collect(4), Reply::Skipped),
        (Event::Exchange, Reply::Applied),
        (Event::Exchange, Reply::Skipped),
    ];
    expect_replies(rt, &mut core, &rows)?;
    Ok(core)
}

#[test]
fn a_task_is_published_in_the_second_sweep(rt: HostRuntime) -> Result<(), AllocError> {
    let alloc = rt.alloc();
    let mut core = turned(&rt, alloc)?;
    expect_answers(&rt, alloc, &core, &[None; 9])?;
    expect_applied(&rt, &mut core, &[VISIT; 21], 20)?;
    let rows = [
        (publish(1, 4), Reply::Applied),
        (collect(4), Reply::Applied),
        (collect(4), Reply::Skipped),
        (collect(3), Reply::Applied),
        (take(2, 3), Reply::Skipped),
        (Event::Exchange, Reply::Applied),
        (take(2, 2), Reply::Skipped),
        (collect(2), Reply::Skipped),
        (Event::Exchange, Reply::Skipped),
        (VISIT, Reply::Skipped),
    ];
    expect_replies(&rt, &mut core, &rows)?;
    let words = [
        FREE, FREE, FREE, COLLECTED, COLLECTED, FREE, FREE, FREE, FREE, None,
    ];
    expect_words(&rt, alloc, &core, &words)?;
    let want = [
        NOTHING, TEN, NOTHING, TEN, SIXTY, TEN, NOTHING, TEN, NOTHING,
    ];
    expect_answers(&rt, alloc, &core, &want)
}
