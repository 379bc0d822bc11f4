//! The corners of cells of the refined centre, computed from what a sweep moves.
ghost use Rattle.worked_sweeps.specs.Corners.{MiddleLeaf, FirstLeaf, SecondLeaf, LastLeaf, RefinedCell, CutLeaf, MergedLeaf, SplitLeaf};

/// The middle one of the nine leaves: no corner hangs.
pub fn middle_leaf()
    ensures { MiddleLeaf }
{}

/// The leaf that comes first along the curve: three corners hang.
pub fn first_leaf()
    ensures { FirstLeaf }
{}

/// The leaf after it: two corners hang.
pub fn second_leaf()
    ensures { SecondLeaf }
{}

/// The leaf that comes last: three corners hang.
pub fn last_leaf()
    ensures { LastLeaf }
{}

/// The refined cell itself: no corner hangs.
pub fn refined_cell()
    ensures { RefinedCell }
{}

/// The middle leaf where a tree's range begins with it.
pub fn cut_leaf()
    ensures { CutLeaf }
{}

/// The middle leaf as the centre merges.
pub fn merged_leaf()
    ensures { MergedLeaf }
{}

/// The middle leaf as the centre splits.
pub fn split_leaf()
    ensures { SplitLeaf }
{}
