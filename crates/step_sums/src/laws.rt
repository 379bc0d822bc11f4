//! Laws of the partials of all trees.
ghost use Rattle.step_sums.specs.Laws.{PartialsListMerging, PartialsMakeTotals, PartialsCanBeAdded, SumsAreAdded, SumsKeepLists};

/// The partials of all trees name each shared cell that merges, once.
pub fn partials_list_merging()
    ensures { PartialsListMerging }
{}

/// With these cells the totals over the partials are the corrected totals of shared cells.
pub fn partials_make_totals()
    ensures { PartialsMakeTotals }
{}

/// Where all new values are numbers of 64 bits, each tree can add the partials.
pub fn partials_can_be_added()
    ensures { PartialsCanBeAdded }
{}

/// In the store of each tree the shared cells of its own take the floors of their corrected totals, and no other slot changes.
pub fn sums_are_added()
    ensures { SumsAreAdded }
{}

/// What a sweep reads stays.
pub fn sums_keep_lists()
    ensures { SumsKeepLists }
{}
