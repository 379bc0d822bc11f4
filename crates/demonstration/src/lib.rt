//! Demonstrations: a large valid plan for each number, made by the draws of a generator. No step of it overflows.
#![tactic(auto)]

mod draws;
pub mod laws;
mod plan;
#[cfg(test)]
mod tests;

pub use plan::demo_plan;
