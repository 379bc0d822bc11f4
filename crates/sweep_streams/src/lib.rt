//! The streams of a sweep of a tree, in keys: what is read, taken, put and written, in which order and how often.
//! Each law is the contract of a function with an empty body; its statement is in specs/.
#![tactic(auto)]

pub mod checks;
pub mod laws;
