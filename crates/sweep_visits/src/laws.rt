//! Laws of the visits and moves of a sweep, for every depth up to 12, range, direction and dimension, every old grid or none, and every new grid.
ghost use Rattle.sweep_visits.specs.Laws.{LanesNeverMix, NextIsOfTheRun};
ghost use Rattle.sweep_visits.specs.Moments.{EachMoveFindsItsVertex, SweepBeginsAndEnds, VisitsSplitMoves, CornersInTurn};
ghost use Rattle.sweep_visits.specs.Ways.{EachCornerHasOneWay, TestsAreExact, CornersHaveRuns};

/// Lanes never mix: each pop finds its passing on top, and at the end all lanes are empty.
pub fn lanes_never_mix()
    ensures { LanesNeverMix }
{}

/// The next and the previous cell of a corner are those of its vertex's held run.
pub fn next_is_of_the_run()
    ensures { NextIsOfTheRun }
{}

/// At each moment the next move can be made, and leads to the next moment.
pub fn each_move_finds_its_vertex()
    ensures { EachMoveFindsItsVertex }
{}

/// A sweep begins and ends with empty lanes, and takes its whole input.
pub fn sweep_begins_and_ends()
    ensures { SweepBeginsAndEnds }
{}

/// Each kept corner has one way out and one way in: that by the held run of its vertex.
pub fn each_corner_has_one_way()
    ensures { EachCornerHasOneWay }
{}

/// The tests of held cells and of stored vertices are exact.
pub fn tests_are_exact()
    ensures { TestsAreExact }
{}

/// A corner of a held cell is a vertex, and the cell is one of its run.
pub fn corners_have_runs()
    ensures { CornersHaveRuns }
{}

/// Visits that were made and visits to come part the moves.
pub fn visits_split_moves()
    ensures { VisitsSplitMoves }
{}

/// A visit moves its corners one after another.
pub fn corners_in_turn()
    ensures { CornersInTurn }
{}
