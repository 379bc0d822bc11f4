//! Grids as sets of refined cells, fields as maps from leaves to states, and the plain evaluator.
#![tactic(auto)]

mod build;
#[cfg(test)]
mod build_tests;
mod cells;
mod counts;
mod digits;
mod evaluation;
mod fault;
mod field;
mod grid;
pub mod laws;
mod leaf_list;
#[cfg(test)]
mod leaf_tests;
mod limits;
mod listed;
mod means;
#[cfg(test)]
mod means_tests;
mod next_field;
mod next_grid;
mod opening;
mod row;
mod shape;
mod side;
#[cfg(test)]
mod step_tests;
#[cfg(test)]
mod tests;
mod update;

pub use evaluation::{advance, evaluate};
pub use fault::{BuildFault, EvalFault, LeavesFault};
pub use field::Field;
pub use grid::Grid;
pub use limits::MOST_CELLS;
pub use listed::Listed;
pub use row::Row;
pub use shape::{Fill, Shape, Zone};
pub use side::sides;
