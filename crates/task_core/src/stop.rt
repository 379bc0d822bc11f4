//! What a visit of a sweep has to do.
use peano_keys::{CellKey, Sides, State};
use result_table::Word;

/// A leaf as its kernel sees it: its own state and its sides in the opening field.
#[derive(Clone, Copy)]
pub struct Leaf {
    pub key: CellKey,
    pub own: State,
    pub sides: Sides,
}

/// A visit computes a leaf, or offers it as a task, or passes by.
#[derive(Clone, Copy)]
pub enum Stop {
    Pass,
    Compute(Leaf),
    Offer(Leaf),
}

/// A leaf that a visit offered, and the word of its task.
#[derive(Clone, Copy)]
pub struct Offered {
    pub leaf: Leaf,
    pub word: Word,
}
