//! Laws of what the trees find together.
ghost use Rattle.step_world.specs.Failing.{LeastOverTrees};
ghost use Rattle.step_world.specs.Counts.{LeavesAddUp, SplitsAddUp, MergesAddUp, CountsAtMost, NextSize, SizeDecides};

/// The least of the trees' failing leaves is the least of all, and where none fails in a tree none fails.
pub fn least_over_trees()
    ensures { LeastOverTrees }
{}

/// The leaves of a grid are those of the trees together.
pub fn leaves_add_up()
    ensures { LeavesAddUp }
{}

/// The leaves that split are those of the trees together.
pub fn splits_add_up()
    ensures { SplitsAddUp }
{}

/// The cells that merge are those of the trees together.
pub fn merges_add_up()
    ensures { MergesAddUp }
{}

/// Cells of a grid are no more than the grid has.
pub fn counts_at_most()
    ensures { CountsAtMost }
{}

/// The size of the next grid follows from the splits and the merges.
pub fn next_size()
    ensures { NextSize }
{}

/// A step is crowded where no leaf fails and this size is above the limit.
pub fn size_decides()
    ensures { SizeDecides }
{}
