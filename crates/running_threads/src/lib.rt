//! What the threads of a pool do in a step, each by its own sweep or as a helper and in any order, is a history of the
//! core of the step. Runs are told in this crate's specs by visits and by numbers of tasks, without a core; each law is the
//! contract of a call that does nothing.
#![tactic(auto)]

pub mod laws;
