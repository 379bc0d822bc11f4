//! Laws of the sums of several trees.
ghost use Rattle.tree_sums.specs.Trees.{OwnedIsTold, SharedIsHeldTwice, SharedByOwnRange, SharedIsOneOfTwo, AtMostTwoShared, PartialsAreFew};
ghost use Rattle.tree_sums.specs.Partials.{CutsAreTrees, OwnersSum, UnheldIsNothing};
ghost use Rattle.tree_sums.specs.Totals.{AboveIsTold, TotalsBegin, MergingIsLowest, CorrectionAdds, CorrectedTotalsAreSums};
ghost use Rattle.tree_sums.specs.Bounds.{PartialsAreBetween, FirstPartialsAreBetween, CorrectedAreBetween, CorrectionIsSmall, SomeChildrenAreBetween};
ghost use Rattle.tree_sums.specs.Walks.{WalkSumsChildren};
ghost use Rattle.tree_sums.specs.Changes.{TotalsGiveValue, OwnersGiveValue, MeansLeaveOutShared, AddedGiveShared, MeansMakeSecondary};
ghost use Rattle.tree_sums.specs.Steps.{MeanWholeStep, MeanPlainStep};

/// The test of owners is right.
pub fn owned_is_told()
    ensures { OwnedIsTold }
{}

/// A cell is shared exactly where more than one tree holds it.
pub fn shared_is_held_twice()
    ensures { SharedIsHeldTwice }
{}

/// A tree tells by its own range whether a cell that it holds is shared.
pub fn shared_by_own_range()
    ensures { SharedByOwnRange }
{}

/// A shared cell that a tree holds is one of two of its level.
pub fn shared_is_one_of_two()
    ensures { SharedIsOneOfTwo }
{}

/// Of three shared cells of a tree on one level two are the same.
pub fn at_most_two_shared()
    ensures { AtMostTwoShared }
{}

/// So a tree has at most 24 partials.
pub fn partials_are_few()
    ensures { PartialsAreFew }
{}

/// The trees of cuts are trees over each of their grids.
pub fn cuts_are_trees()
    ensures { CutsAreTrees }
{}

/// The partial sum that the owner has of a cell that is not shared is the sum of the cell.
pub fn owners_sum()
    ensures { OwnersSum }
{}

/// A tree has nothing of a cell that it does not hold.
pub fn unheld_is_nothing()
    ensures { UnheldIsNothing }
{}

/// The test whether a cell lies above another is right.
pub fn above_is_told()
    ensures { AboveIsTold }
{}

/// The totals of cells begin with the merging cells that are not shared in place of their leaves.
pub fn totals_begin()
    ensures { TotalsBegin }
{}

/// Merging cells have leaves alone as children.
pub fn merging_is_lowest()
    ensures { MergingIsLowest }
{}

/// One merging cell more adds its correction to the sums of the cells above it, and changes no other.
pub fn correction_adds()
    ensures { CorrectionAdds }
{}

/// A total with all corrections, in any order, is the sum of the cell.
pub fn corrected_totals_are_sums()
    ensures { CorrectedTotalsAreSums }
{}

/// Partial sums lie between the bounds of the numbers times the weight.
pub fn partials_are_between()
    ensures { PartialsAreBetween }
{}

/// So do the sums of the partial sums of the first trees.
pub fn first_partials_are_between()
    ensures { FirstPartialsAreBetween }
{}

/// So do totals with some of the corrections.
pub fn corrected_are_between()
    ensures { CorrectedAreBetween }
{}

/// A correction takes away less than the weight.
pub fn correction_is_small()
    ensures { CorrectionIsSmall }
{}

/// Sums over some of the children lie between the bounds times the weight of the cell.
pub fn some_children_are_between()
    ensures { SomeChildrenAreBetween }
{}

/// A visitor that keeps one sum a level has at the leave of a cell the sum over its children.
pub fn walk_sums_children()
    ensures { WalkSumsChildren }
{}

/// A state with the floors of the corrected totals of a cell is its value in the next field.
pub fn totals_give_value()
    ensures { TotalsGiveValue }
{}

/// Where the cell is not shared, the floors of the owner's partial sums give it.
pub fn owners_give_value()
    ensures { OwnersGiveValue }
{}

/// After a secondary sweep by means a tree has the new values of its own cells but the shared ones.
pub fn means_leave_out_shared()
    ensures { MeansLeaveOutShared }
{}

/// The sums after it give these their new values.
pub fn added_give_shared()
    ensures { AddedGiveShared }
{}

/// The two together are a secondary sweep by the change of the step.
pub fn means_make_secondary()
    ensures { MeansMakeSecondary }
{}

/// A whole step by means leads from rest to rest.
pub fn mean_whole_step()
    ensures { MeanWholeStep }
{}

/// So does one without an adaptation.
pub fn mean_plain_step()
    ensures { MeanPlainStep }
{}
