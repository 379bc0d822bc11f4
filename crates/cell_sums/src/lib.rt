//! Weights of cells and sums of numbers times weight: the calls that reckon with them exactly, and the laws of such sums.
#![tactic(auto)]

pub mod laws;
mod weights;

pub use weights::{floor, weighed, weight};
