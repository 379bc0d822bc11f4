//! How a run ended.
ghost use Rattle.std.specs.Prelude.{◌≡◌};
ghost use Rattle.peano_run.specs.Texts.{status_of};
ghost use Rattle.peano_run.specs.Left.{notes_of};

use grid_file::Place;
use peano_keys::CellKey;
use step_driver::World;
use vertex_stacks::SweepNote;
use volume_solver::AnySolver;

/// What a limit counts: the cells of the opening grid, or the leaf lines of the report.
#[derive(Clone, Copy, Debug, PartialEq, Eq)]
pub enum LimitKind {
    Cells,
    Lines,
}

/// How a run ended.
#[derive(Clone, Copy, Debug, PartialEq, Eq)]
pub enum Answer {
    /// The input was read to its end and the whole report was written.
    Done,
    /// The words are no command line.
    Usage,
    /// A read failed.
    ReadFault,
    /// More than 1,048,576 bytes stand before the end of the input.
    TooLong,
    /// The file is refused, with a code at a place.
    Malformed { code: u8, place: Place },
    /// The opening grid has more than 200,000 cells, or the report would have more than 500,000 leaf lines.
    Limit { which: LimitKind, number: u64 },
    /// In this step no leaf failed, and the next grid would have so many cells, more than 200,000.
    Crowded { step: u32, cells: u64 },
    /// In this step a value of this leaf left the range of `i64`; it is the least such leaf in key order.
    Overflow { step: u32, key: CellKey },
    /// A write failed after so many bytes of the report.
    WriteFault { written: u64 },
    /// Memory ran out.
    NoMemory,
}

/// What a run leaves: the status that the program ends with, the answer, and the world that ran. The world is there where
/// the run is done, where a write failed, and where a step was refused or a report has too many lines; it is not where no
/// plan was run or memory ran out.
#[derive(Drop)]
pub struct Outcome {
    pub status: u8,
    pub answer: Answer,
    pub world: Option<World<AnySolver>>,
}

impl Outcome {
    /// The notes of the world's sweeps in their order; none where there is no world.
    pub fn notes(&self) -> &[SweepNote]
        ensures { result.now ≡ notes_of self.now.world }
    {
        match &self.world {
            Some(world) => world.notes(),
            None => &[],
        }
    }
}

impl Answer {
    /// The status that the program ends with.
    pub fn status(&self) -> u8
        ensures { result ≡ status_of self.now }
    {
        match self {
            Answer::Done => 0,
            Answer::Usage => 2,
            Answer::ReadFault | Answer::TooLong => 3,
            Answer::Malformed { .. } => 4,
            Answer::Limit { .. } | Answer::Crowded { .. } => 5,
            Answer::Overflow { .. } => 6,
            Answer::WriteFault { .. } => 7,
            Answer::NoMemory => 8,
        }
    }
}
