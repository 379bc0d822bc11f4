//! Which leaves of a tree are enclaves: those that may be computed as tasks, since nothing at their corners concerns
//! another tree or another level. No call takes memory.
#![tactic(auto)]

mod enclave;
#[cfg(test)]
mod tests;

pub use enclave::is_enclave;
