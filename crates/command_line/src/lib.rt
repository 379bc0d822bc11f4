//! The words of a command line: which lists are accepted, and what they mean. The parse is that of a general crate; what is
//! accepted is defined here in words of its own, both ways.
#![tactic(auto)]

mod arguments;
pub mod laws;
mod reading;
mod words;

pub use arguments::words_of;
pub use reading::read_words;
pub use words::{ShowWhat, Words, WordsFault};

#[cfg(test)]
mod tests;
