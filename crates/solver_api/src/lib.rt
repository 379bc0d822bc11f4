//! What an explicit solver is: the trait by which the engine knows it, and the criterion by which a grid adapts.
//! The meaning of marks and of a step of a field stands in this crate's specs.
#![tactic(auto)]

mod criterion;
mod solver;

pub use criterion::Criterion;
pub use solver::Solver;
