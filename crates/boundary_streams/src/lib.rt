//! The exchange of records between trees: what a tree sends of the vertices that it shares, and what it takes over from
//! the owners of the cells round them. After an exchange each copy of a vertex agrees with the owner of each cell.
#![tactic(auto)]

mod collecting;
mod inner;
pub mod laws;
mod merging;
mod outbox;
mod received;
mod round;
mod slots;

pub use collecting::collect;
pub use merging::merge;
pub use outbox::Outbox;
