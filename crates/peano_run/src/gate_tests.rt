//! Runs in which a thread holds its first task until another task passes. What is asserted needs threads that run beside
//! each other; since a helper may end before a task is there, one of twenty runs is enough.
use crate::{Answer, run};
use peano_io::{MemSink, MemSource};
use std::alloc::{Alloc, AllocError, Global};
use std::sync::atomic::{AtomicU64, Ordering};
use std::test::Fail;
use std::thread::Threads;
use task_pool::Gate;

// Nine times nine leaves, all 0, that stay so.
const UNIFORM: &str =
    "dim = 2\ndepth = 2\nbase = 2\nsolver = \"diffuse\"\na = 0\nb = 1\nsteps = 1\nprint_every = 1\n";

// How often the first task looks whether another has passed.
const TURNS: u32 = 50_000_000;

// Holds the first task that passes until another passes, and notes whether one came in time.
#[derive(Drop)]
struct HoldFirst {
    passed: AtomicU64,
    met: AtomicU64,
}

impl Gate for HoldFirst {
    fn pass(&self, _tree: u32, _task: u32) {
        if self.passed.fetch_add(1, Ordering::SeqCst) > 0 {
            return;
        }
        for _ in 0..TURNS {
            if self.passed.load(Ordering::SeqCst) > 1 {
                self.met.store(1, Ordering::SeqCst);
                return;
            }
        }
    }
}

// Whether a task came while the first was held, in a run with some words.
fn meets<R: Threads + Sync + Alloc<A = Global>>(rt: &R, words: &[&str]) -> Result<bool, Fail> {
    let alloc = rt.alloc();
    let mut given = Vec::new(alloc);
    for word in words {
        given.push(String::from_str(alloc, word)?)?;
    }
    let gate = HoldFirst {
        passed: AtomicU64::new(0),
        met: AtomicU64::new(0),
    };
    let mut input = MemSource::new(UNIFORM.as_bytes().to_vec(alloc)?, Vec::new(alloc));
    let mut out = MemSink::new(alloc, 10_000, 10_000, Vec::new(alloc))?;
    let mut err = MemSink::new(alloc, 1_000, 1_000, Vec::new(alloc))?;
    let outcome = run(
        rt,
        alloc,
        given.as_slice(),
        &mut input,
        &mut out,
        &mut err,
        &gate,
    );
    Ok(outcome.answer == Answer::Done && gate.met.load(Ordering::SeqCst) == 1)
}

#[test]
fn tasks_are_computed_beside_each_other(rt: HostRuntime) -> Result<(), Fail> {
    // One tree and a helper; two trees and none.
    let table: [&[&str]; 2] = [&["--workers", "1"], &["--trees", "2"]];
    for words in table {
        let mut met = false;
        for _ in 0..20 {
            if !met {
                met = meets(&rt, words)?;
            }
        }
        assert!(rt; met, "{}", words[0]);
    }
    Ok(())
}
