//! Small sweeps, computed.
ghost use Rattle.sweep_visits.specs.Checks.{OneCell, NineChildren, MiddleChild, RunOfFour};

/// One cell alone.
pub fn one_cell()
    ensures { OneCell }
{}

/// A root with nine children.
pub fn nine_children()
    ensures { NineChildren }
{}

/// The run of a vertex between four cells.
pub fn run_of_four()
    ensures { RunOfFour }
{}

/// The middle one of nine children.
pub fn middle_child()
    ensures { MiddleChild }
{}
