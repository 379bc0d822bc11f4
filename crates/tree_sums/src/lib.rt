//! Sums of several trees: the partial sums of shared cells, their totals with the corrections of merging cells, and
//! what these make of a step. Each law is the contract of a function with an empty body; its statement is in specs/.
#![tactic(auto)]

pub mod laws;
