//! Cuts off an input, and a report, at each of its bytes, runs each prefix of a file, and runs the files that its words
//! name: what it prints is the table of what came of each.
#![tactic(auto)]

ghost use Rattle.std.specs.Prelude.{◌≡◌, false};

use peano_io::{CutSink, CutSource, MemSink, Source, SureSource};
use peano_run::run;
use std::alloc::{Alloc, AllocError, Global};
use std::fs::Files;
use std::thread::Threads;
use std::{env, fs, io};
use task_pool::Through;

// Room for each report of this program's files, in bytes.
const ROOM: usize = 1_000;

// The longest text of a refusal, in bytes.
const TEXT: u64 = 128;

// The most bytes that an input may have.
const LONGEST: usize = 1_048_576;

// What a run left behind.
#[derive(Drop)]
struct Left {
    status: u8,
    text: MemSink,
    report: CutSink,
}

impl Left {
    // Whether it ended like this.
    fn is(&self, status: u8, text: &str, report: &[u8]) -> bool {
        self.status == status
            && self.text.bytes() == text.as_bytes()
            && self.report.bytes() == report
    }

    // Whether the file was refused as malformed, and nothing was written.
    fn is_malformed(&self) -> bool {
        self.status == 4
            && self.text.bytes().starts_with("malformed ".as_bytes())
            && self.report.bytes().is_empty()
    }
}

// Runs an input, with a report's sink that takes so many bytes.
fn run_into<R: Threads + Sync + Alloc<A = Global>, S: Source + Drop>(
    rt: &R,
    mut input: S,
    room: usize,
) -> Result<Left, AllocError>
    requires { S.ended input ≡ false }
{
    let alloc = rt.alloc();
    let mut report = CutSink::new(alloc, room.min(LONGEST) as u64)?;
    let mut text = MemSink::new(alloc, TEXT, TEXT, Vec::new(alloc))?;
    let outcome = run(rt, alloc, &[], &mut input, &mut report, &mut text, &Through);
    Ok(Left {
        status: outcome.status,
        text,
        report,
    })
}

// Runs an input that can be read up to a cut.
fn run_cut<R: Threads + Sync + Alloc<A = Global>>(
    rt: &R,
    bytes: Vec<u8>,
    cut: usize,
) -> Result<Left, AllocError> {
    let cut = cut.min(bytes.len()) as u64;
    run_into(rt, CutSource::new(bytes, cut), ROOM)
}

// Runs an input that can be read whole.
fn run_whole<R: Threads + Sync + Alloc<A = Global>>(
    rt: &R,
    bytes: Vec<u8>,
    room: usize,
) -> Result<Left, AllocError> {
    run_into(rt, SureSource::new(bytes), room)
}

// A file that a comment fills up to this length.
fn filled(alloc: Global, file: &[u8], length: usize) -> Result<Vec<u8>, AllocError> {
    let mut bytes = file.to_vec(alloc)?;
    bytes.resize(length, b'#')?;
    Ok(bytes)
}

// At how many cuts, from 0 to its length, a file is a read fault without a report.
fn count_read_faults<R: Threads + Sync + Alloc<A = Global>>(
    rt: &R,
    file: &[u8],
) -> Result<u64, AllocError> {
    let alloc = rt.alloc();
    let mut count: u64 = 0;
    for cut in 0..=file.len() {
        let left = run_cut(rt, file.to_vec(alloc)?, cut)?;
        if left.is(3, "read fault\n", &[]) {
            count = count.saturating_add(1);
        }
    }
    Ok(count)
}

// At how many cuts, from 0 to below its length, a report is a write fault after exactly the bytes that were taken.
fn count_write_faults<R: Threads + Sync + Alloc<A = Global>>(
    rt: &R,
    file: &[u8],
    report: &[u8],
) -> Result<u64, AllocError> {
    let alloc = rt.alloc();
    let mut count: u64 = 0;
    for room in 0..report.len() {
        let left = run_whole(rt, file.to_vec(alloc)?, room)?;
        let text = format!(in alloc; "write fault after {room} bytes\n")?;
        if left.is(7, text.as_str(), &report[..room]) {
            count = count.saturating_add(1);
        }
    }
    Ok(count)
}

// How many prefixes of a file are served, and how many are malformed.
fn count_prefixes<R: Threads + Sync + Alloc<A = Global>>(
    rt: &R,
    file: &[u8],
) -> Result<(u64, u64), AllocError> {
    let alloc = rt.alloc();
    let mut served: u64 = 0;
    let mut malformed: u64 = 0;
    for length in 0..=file.len() {
        let left = run_whole(rt, file[..length].to_vec(alloc)?, ROOM)?;
        if left.status == 0 {
            served = served.saturating_add(1);
        }
        if left.is_malformed() {
            malformed = malformed.saturating_add(1);
        }
    }
    Ok((served, malformed))
}

// Tells how a run ended: its status, its text where it has one, and its report.
fn tell<R: Print>(rt: &R, what: &str, left: &Left) -> io::Result<()> {
    let text = str::from_utf8(left.text.bytes()).unwrap_or("no text");
    let report = str::from_utf8(left.report.bytes()).unwrap_or("no report");
    println!(rt; "{what}: status {}", left.status)?;
    print!(rt; "{text}{report}")
}

// The bytes of a file.
fn read<R: Files + Alloc<A = Global>>(rt: &R, name: &str) -> io::Result<Vec<u8>> {
    let path = format!(in rt.alloc(); "{name}.toml")?;
    fs::read(rt, path.as_str())
}

// Cuts off a file and its report at each byte, and takes each prefix of the file.
fn tell_cuts<R: Threads + Sync + Files + Print + Alloc<A = Global>>(
    rt: &R,
    name: &str,
) -> io::Result<()> {
    let alloc = rt.alloc();
    let file = read(rt, name)?;
    let file = file.as_slice();
    let whole = run_whole(rt, file.to_vec(alloc)?, ROOM)?;
    let report = whole.report.bytes();
    println!(rt;
        "{name} has {} bytes and a report of {} bytes",
        file.len(),
        report.len()
    )?;
    println!(rt;
        "input cut off: {} read faults, no report",
        count_read_faults(rt, file)?
    )?;
    println!(rt;
        "report cut off: {} write faults",
        count_write_faults(rt, file, report)?
    )?;
    tell(
        rt,
        "room for the report",
        &run_whole(rt, file.to_vec(alloc)?, report.len())?,
    )?;
    let (served, malformed) = count_prefixes(rt, file)?;
    println!(rt; "prefixes: {served} served, {malformed} malformed without a report")
}

// Fills a file by a comment up to the longest input, and one byte further.
fn tell_filled<R: Threads + Sync + Files + Print + Alloc<A = Global>>(
    rt: &R,
    name: &str,
) -> io::Result<()> {
    let alloc = rt.alloc();
    let file = read(rt, name)?;
    let file = file.as_slice();
    let longest = filled(alloc, file, LONGEST)?;
    tell(rt, "longest input", &run_whole(rt, longest, ROOM)?)?;
    let longest = filled(alloc, file, LONGEST)?;
    tell(
        rt,
        "longest input, cut off at its end",
        &run_cut(rt, longest, LONGEST)?,
    )?;
    let longer = filled(alloc, file, LONGEST + 1)?;
    tell(
        rt,
        "one byte more, cut off there",
        &run_cut(rt, longer, LONGEST + 1)?,
    )
}

fn main(rt: HostRuntime) -> io::Result<()> {
    tell_cuts(&rt, "centre_pulse")?;
    tell_filled(&rt, "single_cell")?;
    for name in env::args(&rt)?.skip(1) {
        let file = read(&rt, name.as_str())?;
        tell(&rt, name.as_str(), &run_whole(&rt, file, ROOM)?)?;
    }
    Ok(())
}
