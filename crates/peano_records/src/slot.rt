//! A slot: what a vertex record knows of one adjacent position.
ghost use Rattle.std.specs.Prelude.{◌≡◌};
ghost use Rattle.peano_records.specs.Slots.{blank};

use peano_keys::{Mark, State};

/// What stands at an adjacent position: nothing known yet, no cell since it lies outside the domain, a leaf, or a
/// refined cell.
#[derive(Clone, Copy, Debug, PartialEq, Eq)]
pub enum Status {
    Unset,
    Outside,
    Leaf,
    Refined,
}

/// What the next adaptation does to the cell: nothing, a leaf splits, or a refined cell's children merge into it.
#[derive(Clone, Copy, Debug, PartialEq, Eq)]
pub enum Intent {
    Stay,
    Split,
    Merge,
}

/// What a vertex record knows of the cell at one adjacent position: `value` is the cell's state now, `next` the one
/// after the step, `mark` what its leaf is marked to become.
#[derive(Clone, Copy, Debug, PartialEq, Eq)]
pub struct Slot {
    pub value: State,
    pub next: State,
    pub status: Status,
    pub mark: Mark,
    pub intent: Intent,
}

impl Slot {
    // A slot of which the status alone is known.
    pub(crate) fn blank(status: Status) -> Slot
        ensures { result ≡ blank status }
    {
        Slot {
            status,
            value: State::Single(0),
            next: State::Single(0),
            mark: Mark::Keep,
            intent: Intent::Stay,
        }
    }
}
