//! Laws of the calls of visitors.
ghost use Rattle.step_calls.specs.Visitors.{PrimaryCalls, SecondaryCalls, ParentFinds};

/// The calls of a primary visitor make a primary sweep.
pub fn primary_calls()
    ensures { PrimaryCalls }
{}

/// The calls of a secondary visitor make a secondary sweep.
pub fn secondary_calls()
    ensures { SecondaryCalls }
{}

/// A cell finds at its leave what its centre child told.
pub fn parent_finds()
    ensures { ParentFinds }
{}
