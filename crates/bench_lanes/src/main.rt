//! Times what a sweep does to a vertex: a pop and a push within the cache, and a stream from the input to the output,
//! for lists of whole records and for lanes in pages. Without words it runs shortly and tells no times; with the number
//! of vertices and of passes it tells the least times of a pass, in nanoseconds a vertex.
#![tactic(auto)]

mod pages;
mod records;
mod vertex;

use crate::records::Records;
use crate::vertex::Kind;
use anyhow::Result;
use peano_keys::Dim;
use peano_records::Stored;
use std::alloc::Global;
use std::time::{Clock, Instant};
use std::{env, io};

// What was measured of a form of lists: how many moves were made, and the least time of a pass for each.
#[derive(Clone, Copy)]
struct Figure {
    moves: u64,
    nanos: u64,
}

impl Figure {
    fn new() -> Figure {
        Figure {
            moves: 0,
            nanos: u64::MAX,
        }
    }

    // Adds a pass of so many moves.
    fn add(&mut self, moves: u64, nanos: u64) {
        self.moves = self.moves.saturating_add(moves);
        let each = nanos.checked_div(moves).unwrap_or(u64::MAX);
        if each < self.nanos {
            self.nanos = each;
        }
    }
}

fn nanos(clock: &impl Clock, start: &Instant) -> io::Result<u64> {
    let spent = start.elapsed(clock)?;
    Ok(u64::try_from(spent.as_nanos()).unwrap_or(u64::MAX))
}

// A number among the words, or another one where there is none.
fn number(word: Option<String>, other: u32) -> u32 {
    match word {
        Some(text) => text.as_str().parse::<u32>().unwrap_or(other),
        None => other,
    }
}

// Lists of whole records: a stream, and a pop and a push.
fn time_records<R: Clock + Alloc<A = Global>>(
    rt: &R,
    kind: Kind,
    count: u32,
    passes: u32,
) -> Result<(Figure, Figure)> {
    let mut records = Records::filled(rt.alloc(), kind, count)?;
    let mut streams = Figure::new();
    let mut shuttles = Figure::new();
    for _ in 0..passes {
        let start = Instant::now(rt)?;
        let moves = records.stream(count);
        streams.add(moves, nanos(rt, &start)?);
        let start = Instant::now(rt)?;
        let moves = records.shuttle(count);
        shuttles.add(moves, nanos(rt, &start)?);
    }
    Ok((streams, shuttles))
}

// Lanes in pages: a stream through a place, and one by value.
fn time_pages<R: Clock + Alloc<A = Global>>(
    rt: &R,
    kind: Kind,
    count: u32,
    passes: u32,
) -> Result<(Figure, Figure)> {
    let mut lanes = pages::filled(rt.alloc(), kind, count)?;
    let mut place = Stored::blank();
    let mut streams = Figure::new();
    let mut values = Figure::new();
    for _ in 0..passes {
        let start = Instant::now(rt)?;
        let moves = pages::stream(&mut lanes, &mut place, count);
        streams.add(moves, nanos(rt, &start)?);
        let start = Instant::now(rt)?;
        let moves = pages::stream_by_value(&mut lanes, count);
        values.add(moves, nanos(rt, &start)?);
    }
    Ok((streams, values))
}

// Lanes in pages: a pop and a push through a place, in the plane, where the lane holds so many vertices.
fn time_shuttle<R: Clock + Alloc<A = Global>>(
    rt: &R,
    held: u32,
    count: u32,
    passes: u32,
) -> Result<Figure> {
    let mut lanes = pages::started(rt.alloc(), held)?;
    let mut place = Stored::blank();
    let mut shuttles = Figure::new();
    for i in 0..passes {
        let start = Instant::now(rt)?;
        let moves = pages::shuttle(&mut lanes, &mut place, count);
        shuttles.add(moves, nanos(rt, &start)?);
    }
    Ok(shuttles)
}

// Prints a figure: with its time, or with its moves alone.
fn tell<R: Print>(rt: &R, name: &str, figure: Figure, timed: bool) -> io::Result<()> {
    if timed {
        println!(rt; "{name}: {} ns", figure.nanos)
    } else {
        println!(rt; "{name}: {} moves", figure.moves)
    }
}

fn main(rt: HostRuntime) -> Result<()> {
    let mut words = env::args(&rt)?;
    let _program = words.next();
    let first = words.next();
    let timed = first.is_some();
    let count = number(first, 200);
    let passes = number(words.next(), 2);
    for (name, dim, wide) in [
        ("plane, one value", Dim::Two, false),
        ("space, one value", Dim::Three, false),
        ("space, four values", Dim::Three, true),
    ] {
        let kind = Kind { dim, wide };
        println!(rt; "{name}")?;
        let (streams, shuttles) = time_records(&rt, kind, count, passes)?;
        tell(&rt, "  records, stream", streams, timed)?;
        tell(&rt, "  records, pop and push", shuttles, timed)?;
        let (streams, values) = time_pages(&rt, kind, count, passes)?;
        tell(&rt, "  pages, stream", streams, timed)?;
        tell(&rt, "  pages, stream by value", values, timed)?;
    }
    println!(rt; "plane, one value")?;
    let shuttles = time_shuttle(&rt, 32, count, passes)?;
    tell(&rt, "  pages, pop and push", shuttles, timed)?;
    let shuttles = time_shuttle(&rt, 1, count, passes)?;
    tell(
        &rt,
        "  pages, pop and push of a page's only vertex",
        shuttles,
        timed,
    )?;
    Ok(())
}
