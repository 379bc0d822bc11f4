//! Laws of storedness and sides from above, each for all grids and cells of both dimensions.
ghost use Rattle.hanging_nodes.specs.Laws.{ChildCornersHeld, StorednessFromAbove, NextStandsOnOld, AnchorTellsNeighbour, CentreIsStored, SiblingsRoundCentre, RestIsShown, ViewsExist};

/// The closed region of a cell holds each corner of each of its children.
pub fn child_corners_are_held()
    ensures { ChildCornersHeld }
{}

/// In one grid a vertex of a cell's children is stored exactly where the corner above is stored and each cell that
/// touches this corner, and whose closed region holds the vertex, is refined.
pub fn stored_by_the_corner_above()
    ensures { StorednessFromAbove }
{}

/// Where a vertex is stored in the next grid, the corner above is stored in the old one.
pub fn next_stands_on_old()
    ensures { NextStandsOnOld }
{}

/// Below the root, the anchor of a cell of the grid is stored exactly where the neighbour across the face is a cell.
pub fn anchor_tells_neighbour()
    ensures { AnchorTellsNeighbour }
{}

/// The corners of the centre child of a refined cell are stored.
pub fn centre_is_stored()
    ensures { CentreIsStored }
{}

/// Each child of a cell has a slot at a corner of the centre child.
pub fn siblings_stand_round_centre()
    ensures { SiblingsRoundCentre }
{}

/// A record before an adaptation has the slots that `stored_here` asks for.
pub fn rest_is_shown()
    ensures { RestIsShown }
{}

/// For all grids of a sweep and each cell there is a view that shows them, so the condition of `stored_here` can be met.
pub fn views_exist()
    ensures { ViewsExist }
{}
