//! One step of all trees as a pure machine: visits, tasks taken and published by anybody, collections and exchanges, in any order.
//! The machine and its laws stand in this crate's specs; what a run of threads does is a list of its events.
#![tactic(auto)]

mod answers;
mod border;
mod calls;
mod event;
mod forest;
pub mod laws;
mod machine;
mod making;
mod stop;
mod tree;
mod visits;

pub use event::{Event, Reply, Sweep};
pub use machine::Core;
pub use stop::{Leaf, Offered, Stop};
