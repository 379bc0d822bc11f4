//! Vertex records and cell records: what a sweep moves between its streams and lanes, and what a visitor sees of a cell.
//! What a record's slots say of the cells round its vertex, while a store is at rest, stands in this crate's specs.
#![tactic(auto)]

mod columns;
pub mod laws;
mod partials;
mod slot;
mod stored;
#[cfg(test)]
mod tests;
mod traffic;
mod view;

pub use columns::{FourSlots, More, Near};
pub use partials::{Partial, Partials};
pub use slot::{Intent, Slot, Status};
pub use stored::{Parcel, Stored};
pub use traffic::Traffic;
pub use view::{CellRecord, CellView, Corner};
