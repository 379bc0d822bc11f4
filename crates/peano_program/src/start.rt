//! What a program's `main` calls.
ghost use Rattle.std.specs.Prelude.{◌≡◌, false, map, string_bytes};
ghost use Rattle.std.specs.Process.{exit_status};
ghost use Rattle.peano_program.specs.Status.{IsStatus, IsStatusOf};

use command_line::words_of;
use peano_io::{Sink, Source, StdSink, StdSource, write_whole};
use peano_keys::Dim;
use peano_run::{Answer, refusal_text, run};
use std::alloc::Global;
use std::env;
use std::env::Env;
use std::process::ExitCode;
use std::rt::{Stderr, Stdin, Stdout};
use std::thread::Threads;
use task_pool::Through;

// Runs as the words ask, and ends with the status of the answer.
fn answered<R: Threads + Sync, S: Source, K: Sink, E: Sink>(
    rt: &R,
    alloc: Global,
    words: &[String],
    input: &mut S,
    out: &mut K,
    err: &mut E,
) -> ExitCode
    requires { S.ended input.old ≡ false }
    ensures { IsStatusOf (map string_bytes words.now) (S.left input.old) (S.left input.new)
        (S.ended input.new) (K.taken out.old) (K.taken out.new) (exit_status result) }
{
    let outcome = run(rt, alloc, words, input, out, err, &Through);
    ExitCode::from(outcome.status)
}

/// Reads a file from standard input and writes its report to standard output, or writes the summary of a demonstration and
/// reads nothing, as the words of the command line ask. The text of a refusal goes to standard error.
pub fn program<R: Env + Threads + Sync + Alloc<A = Global>>(
    rt: &R,
    stdin: Stdin,
    stdout: Stdout,
    stderr: Stderr,
) -> ExitCode
    ensures { IsStatus (exit_status result) }
{
    let mut input = StdSource::new(stdin);
    let mut out = StdSink::new(stdout);
    let mut err = StdSink::new(stderr);
    match words_of(rt.alloc(), env::args(rt)) {
        Ok(words) => answered(
            rt,
            rt.alloc(),
            words.as_slice(),
            &mut input,
            &mut out,
            &mut err,
        ),
        Err(_) => {
            let answer = Answer::NoMemory;
            let _ = write_whole(&mut err, refusal_text(Dim::Two, &answer).as_slice());
            ExitCode::from(answer.status())
        }
    }
}
