//! The world: the stores of all trees, which stand for a grid and a field and go from step to step by sweeps of each tree
//! and exchanges between them.
#![tactic(auto)]

mod adapting;
mod along;
mod beside;
mod computing;
mod exchanging;
mod finishing;
mod keys;
pub mod laws;
mod raising;
mod recutting;
mod refusing;
mod showing;
mod size;
mod stepping;
mod summing;
mod tasking;
mod working;
mod world;

pub use showing::Shown;
pub use spacetree::EvalFault as StepFault;
pub use world::World;
