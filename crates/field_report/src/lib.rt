//! The texts of a report: the field block and the traffic block of a printed step, and the summary of a demonstration.
#![tactic(auto)]

mod block;
mod summary;
mod traffic;

pub use block::field_text;
pub use summary::summary_text;
pub use traffic::{Traffic, traffic_text};

#[cfg(test)]
mod tests;
