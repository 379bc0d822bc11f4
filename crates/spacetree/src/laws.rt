//! Laws of grids and fields: that there are opening ones and next ones, how many cells they have, and what sides and
//! stored vertices are.
ghost use Rattle.spacetree.specs.Laws.{EachShapeOpens, OpeningIsGrid, FillsOpen, NextGridExists, StepExists, EachStepLeadsOn, CellsAreCounted, OneCountOfCells, LeavesAreCounted, LeavesAreListed, OneGridOfLeaves, RowsAreLeaves, StoredIsCorner, CoarseSideIsOfLeaf, MergeTakesValue};

/// Each shape opens a grid.
pub fn each_shape_opens()
    ensures { EachShapeOpens }
{}

/// What a shape opens is a grid of its depth.
pub fn opening_is_grid()
    ensures { OpeningIsGrid }
{}

/// Fills open a field on each grid.
pub fn fills_open()
    ensures { FillsOpen }
{}

/// Marks always make a next grid.
pub fn next_grid_exists()
    ensures { NextGridExists }
{}

/// Where each leaf has a new state, there is a step.
pub fn step_exists()
    ensures { StepExists }
{}

/// From each grid and field a step is served, overflows at a leaf, or is crowded.
pub fn each_step_leads_on()
    ensures { EachStepLeadsOn }
{}

/// The cells of a grid are as many as the formula says.
pub fn cells_are_counted()
    ensures { CellsAreCounted }
{}

/// However they are counted.
pub fn one_count_of_cells()
    ensures { OneCountOfCells }
{}

/// The leaves of a grid are as many as its cells without the refined ones.
pub fn leaves_are_counted()
    ensures { LeavesAreCounted }
{}

/// A list of the leaves in key order, as `leaves` gives, is as long.
pub fn leaves_are_listed()
    ensures { LeavesAreListed }
{}

/// A grid is told by its leaves: no other one of its dimension has the same.
pub fn one_grid_of_leaves()
    ensures { OneGridOfLeaves }
{}

/// A field has as many rows as its grid has leaves.
pub fn rows_are_leaves()
    ensures { RowsAreLeaves }
{}

/// A stored vertex of the domain is a corner of a cell of the grid.
pub fn stored_is_corner()
    ensures { StoredIsCorner }
{}

/// A coarse side is the state of the one leaf in which the neighbour's place lies.
pub fn coarse_side_is_of_leaf()
    ensures { CoarseSideIsOfLeaf }
{}

/// A cell that merges takes its value in the field of new states, its mean.
pub fn merge_takes_value()
    ensures { MergeTakesValue }
{}
