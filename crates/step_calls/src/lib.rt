//! From the calls of a visitor, one after another, to what a sweep changed: for each cell one call at its enter and one
//! at its leave. Each law is the contract of a function with an empty body; its statement is in specs/.
#![tactic(auto)]

pub mod laws;
