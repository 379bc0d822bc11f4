//! Small sweeps, computed.
ghost use Rattle.sweep_streams.specs.Checks.{NineCells, RefinedCentre, RaisedCentre, CutCentre, OneMergesOneSplits, TwentySevenCells, LanesOfNineCells, CentreFindsItsVertices};

/// Nine cells in the plane.
pub fn nine_cells()
    ensures { NineCells }
{}

/// Nine cells with the centre refined once more, in both directions.
pub fn refined_centre()
    ensures { RefinedCentre }
{}

/// A raising sweep over them.
pub fn raised_centre()
    ensures { RaisedCentre }
{}

/// A range that ends inside the centre cell.
pub fn cut_centre()
    ensures { CutCentre }
{}

/// A sweep over two grids in which one cell merges and its neighbour splits.
pub fn one_merges_one_splits()
    ensures { OneMergesOneSplits }
{}

/// Twenty-seven cells in space.
pub fn twenty_seven_cells()
    ensures { TwentySevenCells }
{}

/// What nine cells push on each lane.
pub fn lanes_of_nine_cells()
    ensures { LanesOfNineCells }
{}

/// The centre cell, refined, finds its own four vertices.
pub fn centre_finds_its_vertices()
    ensures { CentreFindsItsVertices }
{}
