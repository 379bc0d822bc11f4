//! The top call: reads a file, takes its steps and writes the report, or shows a demonstration.
#![tactic(auto)]

mod answer;
mod asked;
mod begin;
mod course;
mod demo;
mod ending;
#[cfg(test)]
mod gate_tests;
pub mod laws;
mod refused;
mod report;
#[cfg(test)]
mod tests;
mod text;
mod top;

pub use answer::{Answer, LimitKind, Outcome};
pub use asked::{Asked, Request};
pub use text::{FixedText, refusal_text};
pub use top::run;
