//! Runs the worked examples. A word NAME is a run of NAME.toml, of which the report must be NAME.out; a word NAME.words is a
//! run of it with the words of that file, one a line, of which the report must be NAME.words.out.
#![tactic(auto)]

use peano_io::{MemSink, MemSource};
use peano_run::run;
use std::alloc::{Alloc, Global};
use std::fs::Files;
use std::thread::Threads;
use std::{env, fs, io};
use task_pool::Through;

// The greatest report that is compared, in bytes.
const ROOM: u64 = 1_000_000;

// The longest text of a refusal, in bytes.
const TEXT: u64 = 128;

// The bytes of a file of the examples.
fn read<R: Files + Alloc<A = Global>>(rt: &R, name: &str, ending: &str) -> io::Result<Vec<u8>> {
    let path = format!(in rt.alloc(); "{name}{ending}")?;
    fs::read(rt, path.as_str())
}

// The words of a run, one a line of their file.
fn words_of<R: Files + Alloc<A = Global>>(rt: &R, run: &str) -> io::Result<Vec<String>> {
    let text = fs::read_to_string(rt, run)?;
    let mut words = Vec::new(rt.alloc());
    for word in text.as_str().lines() {
        words.push(String::from_str(rt.alloc(), word)?)?;
    }
    Ok(words)
}

// Runs an example with words, and says whether its report is the one beside it, or why it is refused.
fn tell<R: Threads + Sync + Files + Print + Alloc<A = Global>>(
    rt: &R,
    run_name: &str,
    name: &str,
    words: &[String],
) -> io::Result<()> {
    let alloc = rt.alloc();
    let mut input = MemSource::new(read(rt, name, ".toml")?, Vec::new(alloc));
    let mut out = MemSink::new(alloc, ROOM, ROOM, Vec::new(alloc))?;
    let mut err = MemSink::new(alloc, TEXT, TEXT, Vec::new(alloc))?;
    let outcome = run(rt, alloc, words, &mut input, &mut out, &mut err, &Through);
    if outcome.status != 0 {
        let text = str::from_utf8(err.bytes()).unwrap_or("no text");
        return println!(rt;
            "{run_name}: status {}, {}",
            outcome.status,
            text.trim_end()
        );
    }
    let wanted = read(rt, run_name, ".out")?;
    if out.bytes() == wanted.as_slice() {
        println!(rt; "{run_name}: the report is {run_name}.out")
    } else {
        println!(rt; "{run_name}: the report is NOT {run_name}.out")
    }
}

fn main(rt: HostRuntime) -> io::Result<()> {
    for run in env::args(&rt)?.skip(1) {
        match run.as_str().strip_suffix(".words") {
            Some(name) => {
                let words = words_of(&rt, run.as_str())?;
                tell(&rt, run.as_str(), name, words.as_slice())?;
            }
            None => tell(&rt, run.as_str(), run.as_str(), &[])?,
        }
    }
    Ok(())
}
