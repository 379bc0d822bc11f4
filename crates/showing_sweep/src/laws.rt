//! Laws of what trees show, each for all keys and grids.
ghost use Rattle.showing_sweep.specs.Laws.{AmountsAreOne, AmountsExist, TrafficIsExact};

/// The numbers of a tree are one.
pub fn amounts_are_one()
    ensures { AmountsAreOne }
{}

/// Each tree has such numbers.
pub fn amounts_exist()
    ensures { AmountsExist }
{}

/// In a grid as large as the engine serves, traffic tells each number as it is.
pub fn traffic_is_exact()
    ensures { TrafficIsExact }
{}
