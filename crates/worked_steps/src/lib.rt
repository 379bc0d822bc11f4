//! Steps of a core over nine leaves, worked out by hand: which events are legal, the words of tasks, and the answers of leaves.
//! The tests stand over a core that begins over any grid, so they are a crate of their own.
#![tactic(auto)]

#[cfg(test)]
mod history;
#[cfg(test)]
mod nine_leaves;
#[cfg(test)]
mod random_tests;
#[cfg(test)]
mod tests;
