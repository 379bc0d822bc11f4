//! The sums of cells that several trees hold: what each tree hands out of such a cell, the totals over all trees, and how
//! the owner of a shared cell takes the mean of its total as its new value.
#![tactic(auto)]

mod adding;
#[cfg(test)]
mod tests;
mod totals;

pub use adding::add_sums;
