//! Worlds of several trees beside the plain evaluator: after each step they show the same rows and have as many cells, and
//! they are refused alike; and what worked files report of their trees, with the notes of all sweeps. The tests stand over
//! worlds and over files, so they are a crate of their own.
#![tactic(auto)]

#[cfg(test)]
mod beside;
#[cfg(test)]
mod drawn;
#[cfg(test)]
mod files;
#[cfg(test)]
mod opening;
#[cfg(test)]
mod reported;
#[cfg(test)]
mod tests;
