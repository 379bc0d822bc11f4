//! The visits of a sweep of a tree, and how vertices pass from cell to cell by lanes, in keys of cells and vertices.
//! Each law is the contract of a function with an empty body; its statement is in specs/.
#![tactic(auto)]

pub mod checks;
pub mod laws;
