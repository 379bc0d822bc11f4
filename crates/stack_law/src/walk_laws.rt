// The walk along the curve: its order, the faces of its boxes, its way back.

ghost use Rattle.stack_law.specs.WalkLaws.{EachCellOnce, WaysFollowTheOrder, RanksAreOfDigits, ExtentsArePowers, RanksTellCellsApart, ChildrenInTurn, VisitedChildrenInTurn, BackwardIsReversed, BackwardWalkIsReversed, BackwardWalkOfVisited, WalkOfVisitedDoesAll};

/// Each cell of a level is entered once and left once, in the order of the ranks.
pub fn each_cell_once()
    ensures { EachCellOnce }
{}

/// A face is entered where the neighbour across it comes before, left where it comes after, and a wall where there is none.
pub fn ways_follow_the_order()
    ensures { WaysFollowTheOrder }
{}

/// The order by splits is the order by digits, axis 0 slowest.
pub fn ranks_are_of_digits()
    ensures { RanksAreOfDigits }
{}

/// A level has three times as many cells along each axis as the level above.
pub fn extents_are_powers()
    ensures { ExtentsArePowers }
{}

/// Cells of one level have different ranks.
pub fn ranks_tell_cells_apart()
    ensures { RanksTellCellsApart }
{}

/// A cell is entered, its children are walked by the digits that the curve counts, and it is left.
pub fn children_in_turn()
    ensures { ChildrenInTurn }
{}

/// The same of a walk of some cells alone.
pub fn visited_children_in_turn()
    ensures { VisitedChildrenInTurn }
{}

/// The other way, ranks are counted from the other end.
pub fn backward_is_reversed()
    ensures { BackwardIsReversed }
{}

/// A walk the other way is the same walk reversed, with enters and leaves exchanged.
pub fn backward_walk_is_reversed()
    ensures { BackwardWalkIsReversed }
{}

/// The same of a walk of some cells alone.
pub fn backward_walk_of_visited()
    ensures { BackwardWalkOfVisited }
{}

/// A walk of the visited cells alone, below open cells alone, does what the walk of the full tree does.
pub fn walk_of_visited_does_all<T>()
    ensures { WalkOfVisitedDoesAll T }
{}
