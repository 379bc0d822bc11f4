//! What may happen in a step.

/// One event of a step. Trees, actors and the tasks of a tree are numbered from 0.
#[derive(Clone, Copy, Debug, PartialEq, Eq)]
pub enum Event {
    Visit { tree: u32 },
    Take { actor: u32, tree: u32, task: u32 },
    Publish { actor: u32, tree: u32, task: u32 },
    Collect { tree: u32, task: u32 },
    Exchange,
}

/// Whether an event was legal. One that was not is skipped and changes nothing.
#[derive(Clone, Copy, Debug, PartialEq, Eq)]
pub enum Reply {
    Applied,
    Skipped,
}

/// Which sweep of the step the trees are in.
#[derive(Clone, Copy, Debug, PartialEq, Eq)]
pub enum Sweep {
    First,
    Second,
    Over,
}
