//! Keys of a spacetree: cells, vertices and faces by level and coordinates, states and sides of cells.
//! The meaning of a grid, of stored vertices, of fields and of sides stands in this crate's specs.
#![tactic(auto)]

mod cell;
mod dim;
pub mod laws;
mod power;
mod side;
mod state;
#[cfg(test)]
mod tests;
mod vertex;

pub use cell::{CellKey, Face, child, is_cell, neighbour, parent, root};
pub use dim::{Dim, child_count, corner_count};
pub use power::{extent, pow3};
pub use side::{Mark, Side, Sides};
pub use state::State;
pub use vertex::{VertexKey, adjacent, anchor_corner, corner, home_corner, is_vertex, slot_of};
