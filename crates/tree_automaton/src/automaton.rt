//! The visit of one cell.

/// The machine that moves the records of a tree as its cells are entered and left, one visit at a time. A sweep makes all
/// visits of a tree; whoever needs a step between two visits calls these two, in the order of the tree's visits.
#[derive(Clone, Copy)]
pub struct Automaton;
