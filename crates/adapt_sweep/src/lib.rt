//! The sweeps that write a grid into the slots of vertices: a raising sweep begins a store from a grid and its field, and
//! an adaptation sweep leads it from one grid to the next.
#![tactic(auto)]

mod adapt;
mod adapting;
mod own;
mod raise;
mod raising;
mod sweeps;

pub use adapt::{Adapt, NewGrid};
pub use raise::Raise;
pub use sweeps::{adapt_tree, raise_tree};
