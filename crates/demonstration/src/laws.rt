//! What holds of each demonstration: its plan is valid, its opening grid small, and no step of it is refused.
ghost use Rattle.demonstration.specs.Document.{IsOfDocument};
ghost use Rattle.demonstration.specs.Laws.{IsValid, OpensSmall, NeverTooLarge, StaysBetween, OpensWithin, StaysThroughout, NeverRefused};

/// The plan of a demonstration is within the ranges of a file's plan.
pub fn is_valid()
    ensures { IsValid }
{}

/// The plan of a demonstration is what a document means, so a file could ask for it too.
pub fn is_of_document()
    ensures { IsOfDocument }
{}

/// The opening grid of a demonstration has at most 1,540 cells.
pub fn opens_small()
    ensures { OpensSmall }
{}

/// The opening grid of a demonstration is never too large to be built.
pub fn never_too_large()
    ensures { NeverTooLarge }
{}

/// In each step a leaf has a new value, which lies between the least and the greatest that the leaf sees.
pub fn stays_between()
    ensures { StaysBetween }
{}

/// The opening values of a demonstration lie from -1000 to 1000.
pub fn opens_within()
    ensures { OpensWithin }
{}

/// After any number of steps the values lie where the opening values and 0 do.
pub fn stays_throughout()
    ensures { StaysThroughout }
{}

/// No step of a demonstration overflows or is crowded, however many are taken.
pub fn never_refused()
    ensures { NeverRefused }
{}
