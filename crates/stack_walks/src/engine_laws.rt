// The walks of the engine: one grid, two grids, a range, fluxes; input and output.

ghost use Rattle.stack_walks.specs.Instances.{KeptVerticesUseStacks, OneGridUsesStacks, TwoGridsUseStacks, RangesUseStacks, FluxesUseStacks, GridsAreClosed, RangeTestIsExact, StoredTestIsExact, NextWalkReadsTheOutput};
ghost use Rattle.stack_walks.specs.StreamLaws.{OutputTurnedIsInput};
ghost use Rattle.stack_walks.specs.Visited.{OneGridIsUnbroken, TwoGridsAreUnbroken, RangesAreUnbroken, RangesAreClosed, WalksAgreeRoundKept, VisitsHappenOnce};

/// A walk passes each kept vertex by stacks, where the visited cells are unbroken round it.
pub fn kept_vertices_use_stacks()
    ensures { KeptVerticesUseStacks }
{}

/// One grid, with vertices that are stored in it.
pub fn one_grid_uses_stacks()
    ensures { OneGridUsesStacks }
{}

/// The cells of an old or a new grid, with vertices that are stored in one of them.
pub fn two_grids_use_stacks()
    ensures { TwoGridsUseStacks }
{}

/// The cells that a tree's range meets, alone.
pub fn ranges_use_stacks()
    ensures { RangesUseStacks }
{}

/// One item for each face between two cells of a grid.
pub fn fluxes_use_stacks<T>()
    ensures { FluxesUseStacks T }
{}

/// Below a cell that is not refined a grid has no cells, and so for two grids.
pub fn grids_are_closed()
    ensures { GridsAreClosed }
{}

/// The test of a range is exact: the cell and the range have a position in common.
pub fn range_test_is_exact()
    ensures { RangeTestIsExact }
{}

/// The test of the grid cells round a vertex is exact.
pub fn stored_test_is_exact()
    ensures { StoredTestIsExact }
{}

/// The output of a walk, read from its end, is the input of the walk the other way.
pub fn output_turned_is_input<T>()
    ensures { OutputTurnedIsInput T }
{}

/// The same of walks of some cells alone.
pub fn next_walk_reads_the_output<T>()
    ensures { NextWalkReadsTheOutput T }
{}

/// Round a kept vertex the visited cells are unbroken where all cells of a grid are visited.
pub fn one_grid_is_unbroken()
    ensures { OneGridIsUnbroken }
{}

/// So they are where the cells of an old or a new grid are visited.
pub fn two_grids_are_unbroken()
    ensures { TwoGridsAreUnbroken }
{}

/// So they are where those cells alone are visited that a range holds.
pub fn ranges_are_unbroken()
    ensures { RangesAreUnbroken }
{}

/// Below a cell that is closed, or that the range does not hold, no visited cell lies.
pub fn ranges_are_closed()
    ensures { RangesAreClosed }
{}

/// Walks of the old grid, of both grids and of the new grid visit the same cells round the vertices that they hand on.
pub fn walks_agree_round_kept()
    ensures { WalksAgreeRoundKept }
{}

/// A walk of some cells enters no cell twice, and leaves none twice.
pub fn visits_happen_once()
    ensures { VisitsHappenOnce }
{}
