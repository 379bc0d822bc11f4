//! The program round a run: it takes the words that it was started with and the three standard streams, runs, and ends
//! with the status of the answer.
#![tactic(auto)]

mod start;

pub use start::program;
