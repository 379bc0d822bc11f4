//! The change that a step of a solver makes to the values of cells, and how sums over all trees complete the new values
//! that a sweep leaves out. What depends on the value of a refined cell stands here, apart from the phases of a step. Each
//! law is the contract of a function with an empty body; its statement is in specs/.
#![tactic(auto)]

pub mod laws;
