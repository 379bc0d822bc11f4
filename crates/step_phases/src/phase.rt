//! The exchanges of a step.

/// Which exchange between trees it is: the opening one follows the raising sweeps, the first one the primary sweeps,
/// the second one the secondary sweeps and the third one the adaptation sweeps.
#[derive(Clone, Copy, Debug, PartialEq, Eq, Drop)]
pub enum Phase {
    First,
    Second,
    Third,
    Opening,
}
