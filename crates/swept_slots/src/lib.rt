//! What a sweep leaves in the slots of a tree's cells: from what a visitor's two calls do at one cell to what its whole
//! chain of calls made of each copy of the tree. Each law is the contract of a function with an empty body.
#![tactic(auto)]

pub mod laws;
