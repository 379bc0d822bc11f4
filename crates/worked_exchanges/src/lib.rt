//! Exchanges between a few trees, worked out by hand: which vertices are sent, and what each slot says afterwards.
//! The tests stand over raising sweeps, so they are a crate of their own.
#![tactic(auto)]

#[cfg(test)]
mod tests;
