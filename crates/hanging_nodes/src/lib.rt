//! What a cell knows from its parent's view and its own corners: which vertices of its children are stored, in the
//! old grid and in the new one, and what stands across its faces.
#![tactic(auto)]

mod above;
mod corner_in;
pub mod laws;
mod sides;
#[cfg(test)]
mod tests;

pub use above::stored_here;
pub use sides::{sides_into, sides_of};
