//! The desk: one word and one slot a task, which seats claim, publish and collect by single atomic steps.
//! What a word means, the rule that holds between any two steps, and what a seat knows stand in this crate's specs.
#![tactic(auto)]

mod desk;
mod done;
pub mod laws;
mod parts;
mod rule;
mod same;
mod task;
#[cfg(test)]
mod tests;
#[cfg(test)]
mod threads;
mod updates;
mod view;
mod witness;
mod word;

pub use done::Done;
pub use parts::{Desk, DeskSeat, Gathered};
pub use task::Task;
pub use updates::Updates;
pub use view::{Brief, View};
pub use witness::Witness;
pub use word::Word;
