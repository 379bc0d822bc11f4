//! Sweeps over small grids: where each corner of a cell comes from and goes to, what sweeps move that run, what a visitor
//! sees, what the slots say when a grid has changed, and what is there when memory was refused. The tests stand over raising,
//! adaptation and showing sweeps, so they are a crate of their own. Numbers and corners were counted by sets of cells and
//! vertices, with no regard to the code that sweeps.
#![tactic(auto)]

#[cfg(test)]
mod adapting;
pub mod centre;
#[cfg(test)]
mod grids;
#[cfg(test)]
mod intending;
#[cfg(test)]
mod raising;
#[cfg(test)]
mod refused;
#[cfg(test)]
mod rows;
#[cfg(test)]
mod showing;
#[cfg(test)]
mod trees;
