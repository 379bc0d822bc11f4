//! Trees cut along the curve: which positions each has, which cells it holds and owns, which vertices it shares.
//! What an enclave leaf of a tree is stands in this crate's specs.
#![tactic(auto)]

mod keys;
pub mod laws;
mod round;
#[cfg(test)]
mod tests;
mod tiles;

pub use keys::Keys;
pub use tiles::is_tiling;
