// Small trees that the checker computes.

ghost use Rattle.stack_walks.specs.Checks.{NineCellsLaneByLane, TwentySevenCellsLaneByLane, TwoLevelsLaneByLane, CountsOfSmallGrids, CentreFindsItsVertices};

/// Nine cells in the plane, lane by lane.
pub fn nine_cells_lane_by_lane()
    ensures { NineCellsLaneByLane }
{}

/// Twenty-seven cells in space, lane by lane.
pub fn twenty_seven_cells_lane_by_lane()
    ensures { TwentySevenCellsLaneByLane }
{}

/// Eighty-one cells below nine in the plane, lane by lane.
pub fn two_levels_lane_by_lane()
    ensures { TwoLevelsLaneByLane }
{}

/// How many vertices are given along the lanes and to the output in three small grids.
pub fn counts_of_small_grids()
    ensures { CountsOfSmallGrids }
{}

/// With the centre refined, the centre cell finds its own four vertices.
pub fn centre_finds_its_vertices()
    ensures { CentreFindsItsVertices }
{}
