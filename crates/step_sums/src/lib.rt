//! What the partials of all trees make of a step: the shared cells that merge, the totals, and what the sums change in the
//! store of a tree. Each law is the contract of a function with an empty body; its statement is in specs/.
#![tactic(auto)]

pub mod laws;
