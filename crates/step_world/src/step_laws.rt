//! Laws of next grids and next fields.
ghost use Rattle.step_world.specs.Steps.{NextIsCut, NewStatesAreField, StepKeepsParts, KeptGridStays};

/// The next grid is one for the same trees.
pub fn next_is_cut()
    ensures { NextIsCut }
{}

/// The new states of a grid's leaves are a field on it, with states of as many values as the old ones.
pub fn new_states_are_field()
    ensures { NewStatesAreField }
{}

/// The states of the next field have as many values as those of the old one.
pub fn step_keeps_parts()
    ensures { StepKeepsParts }
{}

/// Where each leaf is to be kept, the grid stays.
pub fn kept_grid_stays()
    ensures { KeptGridStays }
{}
