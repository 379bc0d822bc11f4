// The vertices at the corners of cells: one way for each, and lanes that are stacks.

ghost use Rattle.stack_walks.specs.HandingLaws.{NeighboursTellTheRun, EachCornerHasOneWay};
ghost use Rattle.stack_walks.specs.CornerLaws.{CornersPassAlongLanes, VerticesPassAlongLanes, CornerLanesHoldTheRest};

/// What a cell finds among its neighbours is what the run of the vertex says, in both directions.
pub fn neighbours_tell_the_run()
    ensures { NeighboursTellTheRun }
{}

/// Each kept corner ends at its cell or goes on across one face; it begins there or has come across one face.
pub fn each_corner_has_one_way()
    ensures { EachCornerHasOneWay }
{}

/// Corners taken by falling and given by rising number use the lanes as stacks.
pub fn corners_pass_along_lanes<T>()
    ensures { CornersPassAlongLanes T }
{}

/// So does each kept vertex, from each visited cell round it to the next.
pub fn vertices_pass_along_lanes<T>()
    ensures { VerticesPassAlongLanes T }
{}

/// At each moment each lane holds the passings that were given and not taken, in the order in which they were given.
pub fn corner_lanes_hold_the_rest()
    ensures { CornerLanesHoldTheRest }
{}
