//! The program: a file on standard input, its report on standard output; or the summary of a demonstration.
#![tactic(auto)]

use peano_program::program;
use std::process::ExitCode;

fn main(rt: HostRuntime) -> ExitCode {
    program(&rt, rt.stdin(), rt.stdout(), rt.stderr())
}
