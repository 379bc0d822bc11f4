//! Laws of the next field: the sum of a cell over any list of the leaves below it, the sums of new numbers in which merging
//! cells stand for their leaves, bounds on these, and what a step between grids of a depth makes of values. Each law is the
//! contract of a function with an empty body; its statement is in specs/.
#![tactic(auto)]

pub mod laws;
