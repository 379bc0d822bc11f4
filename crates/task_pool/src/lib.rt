//! Trees spawn tasks, helpers steal and compute them, trees gather the answers.
//! Each tree has a desk of task words and a deque; what is known of both stands in this crate's specs.
#![tactic(auto)]

mod gate;
mod hand;
mod helper;
mod job;
pub mod laws;
mod log;
mod parts;
mod pool;
mod post;
mod shift;
#[cfg(test)]
mod tests;
#[cfg(test)]
mod thread_tests;

pub use gate::{Gate, Passes, Through};
pub use parts::{Helper, Pool, TreeHand};
