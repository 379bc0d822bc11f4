//! The storage through which a sweep moves vertex records: an input stream, an output stream and
//! temporary stacks between them, with the counts of what was moved and the notes of ended sweeps.
#![tactic(auto)]

mod kind;
mod lanes;
pub mod laws;
mod page;
mod pile;
mod tale;

pub use kind::Kind;
pub use lanes::{Lanes, SweepNote};
pub use tale::Tale;
