//! The sweep that shows a tree, or gathers its rows before the trees are cut anew: it changes nothing, gathers the rows
//! of the leaves that the tree owns, and counts what the tree holds of the grid and moves over it.
#![tactic(auto)]

mod counts;
pub mod laws;
mod rows;
mod sent;
mod show;
mod shown;

pub use show::Show;
pub use shown::{Shown, show_tree};
