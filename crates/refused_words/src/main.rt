//! The same program, which the gate starts with words that it refuses: it reads nothing of the file that lies ready, writes
//! nothing to standard output, and ends with the status of usage.
#![tactic(auto)]

use peano_program::program;
use std::process::ExitCode;

fn main(rt: HostRuntime) -> ExitCode {
    program(&rt, rt.stdin(), rt.stdout(), rt.stderr())
}
