//! Laws of the streams and records of a sweep, for every depth up to 12, range, direction and dimension, every old grid or none, and every new grid.
ghost use Rattle.sweep_streams.specs.Streams.{NextSweepReadsTheOutput, NoneTakenTwice};
ghost use Rattle.sweep_streams.specs.Records.{RecordsAreOfHeldCells, NextSweepReadsTheRecords, EachHeldCellOnce, ParentsAreVisited, BackwardSweepIsReversed};
ghost use Rattle.sweep_streams.specs.Counts.{StreamsAreStored, RunIsHeldRound, PushesAreRunsLessOne};

/// The output of a sweep, read from its end, is what the next sweep takes.
pub fn next_sweep_reads_the_output()
    ensures { NextSweepReadsTheOutput }
{}

/// No vertex is taken twice, and none is put twice.
pub fn none_taken_twice()
    ensures { NoneTakenTwice }
{}

/// A sweep takes each vertex of the tree that the old grid stores, and puts each that the new grid stores, once.
pub fn streams_are_stored()
    ensures { StreamsAreStored }
{}

/// The run of a vertex is the list of the cells that are held round it.
pub fn run_is_held_round()
    ensures { RunIsHeldRound }
{}

/// The pushes are the sum of run length less one over the kept vertices of the tree.
pub fn pushes_are_runs_less_one()
    ensures { PushesAreRunsLessOne }
{}

/// A sweep reads the record of each held cell of the old grid, and writes that of each held cell of the new one, once.
pub fn records_are_of_held_cells()
    ensures { RecordsAreOfHeldCells }
{}

/// The records that a sweep writes, read from their end, are those that the next sweep reads.
pub fn next_sweep_reads_the_records()
    ensures { NextSweepReadsTheRecords }
{}

/// Each held cell of the old or the new grid is entered once and left once.
pub fn each_held_cell_once()
    ensures { EachHeldCellOnce }
{}

/// The parent of a visited cell is visited, and the sweep goes below it.
pub fn parents_are_visited()
    ensures { ParentsAreVisited }
{}

/// A sweep the other way makes the same visits from the last to the first.
pub fn backward_sweep_is_reversed()
    ensures { BackwardSweepIsReversed }
{}
