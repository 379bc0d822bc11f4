//! Laws of what stores stand for, from the start to the end of a run.
ghost use Rattle.step_world.specs.Worlds.{StandForOne, StartStands, StepStands, PlainStepStands, RunGoesOn, RunEnds};

/// Stores stand for at most one grid and field.
pub fn stand_for_one()
    ensures { StandForOne }
{}

/// Raised stores stand for the grid and the field that they were raised from, once the opening exchange is over.
pub fn start_stands()
    ensures { StartStands }
{}

/// The sweeps and exchanges of a step lead to stores that stand for the next grid and field.
pub fn step_stands()
    ensures { StepStands }
{}

/// So do those of a step without an adaptation, where the solver keeps each leaf.
pub fn plain_step_stands()
    ensures { PlainStepStands }
{}

/// One more step is one more step of the evaluation.
pub fn run_goes_on()
    ensures { RunGoesOn }
{}

/// Where a step is refused, the evaluation is.
pub fn run_ends()
    ensures { RunEnds }
{}
