//! The visitors of the sweeps of a step that change no grid: the primary sweep gives leaves their marks and skeleton
//! leaves their new states, the secondary sweep computes the enclaves and finishes the step with what the other trees sent.
#![tactic(auto)]

mod centre;
mod leaf;
mod primary;
mod secondary;
mod sums;
mod sweeps;
mod tally;
mod tasks;
mod told;

pub use leaf::home_value;
pub use primary::{Primary, is_own_leaf};
pub use secondary::Secondary;
pub use sweeps::{primary_tree, secondary_tree};
pub use tally::Tally;
pub use tasks::TreeTasks;
