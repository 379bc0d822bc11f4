//! Laws of views that show marks.
ghost use Rattle.adapt_marks.specs.Laws.{MarkedViewsExist};

/// For each grid, all marks and each cell there is a view that shows them, so the condition of the decisions can be met.
pub fn marked_views_exist()
    ensures { MarkedViewsExist }
{}
