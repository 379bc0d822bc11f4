//! Sweeps over the cells of a tree: each cell is entered and left with the vertices at its corners, which come from
//! streams and stacks and go back to them. Each record that is taken is the one that is wanted: the lanes never mix.
#![tactic(auto)]

mod automaton;
pub mod decide;
mod entering;
mod kinds;
pub mod laws;
mod leaving;
mod store;
mod views;
mod visitor;
mod walks;

pub use automaton::Automaton;
pub use kinds::Serves;
pub use store::TreeStore;
pub use visitor::Visitor;
pub use walks::sweep;
