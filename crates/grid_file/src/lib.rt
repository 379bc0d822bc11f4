//! Reads a file: into its plan, or into the code and the place of the one refusal that it gets.
#![tactic(auto)]

mod body;
mod boxes;
mod fault;
mod head;
mod keys;
mod limits;
mod passes;
mod place;
mod plan;
mod reading;
mod solver;
#[cfg(test)]
mod tests;
mod text;
mod tree;
mod values;
mod version;

pub use fault::{Malformed, PlanFault};
pub use place::{KeyName, Part, Place};
pub use plan::{Plan, is_printed};
pub use reading::read_plan;
pub use text::{PlaceText, place_text};
