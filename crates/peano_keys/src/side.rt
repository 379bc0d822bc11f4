//! What a cell sees across its faces, and what it is marked to become.
use crate::state::State;

/// What a cell sees across one face: the domain's edge, a cell of its own level, or a coarser leaf.
#[derive(Clone, Copy, Debug, PartialEq, Eq)]
pub enum Side {
    Edge,
    Same(State),
    Coarse(State),
}

/// The sides of a cell, by axis. In two dimensions both sides on axis 2 are `Edge`.
#[derive(Clone, Copy, Debug, PartialEq, Eq)]
pub struct Sides {
    pub low: [Side; 3],
    pub high: [Side; 3],
}

/// What a leaf is marked to become: kept as it is, split into its children, or merged with its siblings.
#[derive(Clone, Copy, Debug, PartialEq, Eq)]
pub enum Mark {
    Keep,
    Refine,
    Coarsen,
}
