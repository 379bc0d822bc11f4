//! The Peano curve: the order of cells, their intervals and centres, and the runs of cells round a vertex.
//! Orders come from the first and the next child; no list is made and no table is kept.
#![tactic(auto)]

pub mod laws;
mod order;
mod passing;
mod range;
mod run;
#[cfg(test)]
mod tests;

pub use order::{Direction, centre, compare, first_child, interval, next_child};
pub use range::Range;
pub use run::{after, before, lane_of};
