//! What the slots of vertex records say at each moment of a step, tree by tree, and that each sweep and each exchange
//! between trees leads from one moment to the next. Each law is the contract of a function with an empty body; its
//! statement is in specs/.
#![tactic(auto)]

pub mod exchange_laws;
pub mod phase;
pub mod store_laws;
pub mod sweep_laws;

pub use phase::Phase;
