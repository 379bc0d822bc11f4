//! What the slots round a cell decide of the next grid: whether the parent of a centre child merges, and whether a leaf
//! splits. No call takes memory.
#![tactic(auto)]

pub mod laws;
mod marks;
#[cfg(test)]
mod tests;

pub use marks::{merges, splits};
