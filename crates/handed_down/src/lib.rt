//! What a cell knows of the cells round it from what its parent knew: where the curve goes on round its corners, whether
//! a range has them all, and which vertices of its children are stored.
#![tactic(auto)]

mod ages;
mod faces;
pub mod laws;
mod runs;
mod stored;
mod surroundings;
#[cfg(test)]
mod tests;

pub use ages::{faces_below, next_axis, previous_axis, root_faces};
pub use faces::{Crossing, Faces};
pub use runs::{next_of_run, previous_of_run};
pub use stored::{ChildVertices, is_corner_stored, stored_below};
pub use surroundings::{Surroundings, has_all_round};
