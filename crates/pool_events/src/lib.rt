//! What the threads of a pool do is a list of events of the core of the step, in whatever order they act.
//! Moments, deeds and histories stand in this crate's specs; each law is the contract of a call that does nothing, and the
//! calls of a desk are told as the deeds of which the laws speak.
#![tactic(auto)]

pub mod calls;
pub mod laws;
