// A walk uses its lanes as stacks, whatever its cells pass to each other.

ghost use Rattle.stack_law.specs.LaneLaws.{SubtreesTakeAndLeave, LanesAreStacks, NoPopFails, StacksHoldWhatWasNotTaken, LanesHoldTheRest};

/// What a subtree takes from a lane and what it leaves on it.
pub fn subtrees_take_and_leave<T>()
    ensures { SubtreesTakeAndLeave T }
{}

/// On all lanes at once a walk takes empty stacks to empty stacks, and each pop finds the item that it wants.
pub fn lanes_are_stacks<T>()
    ensures { LanesAreStacks T }
{}

/// What succeeds as a whole succeeds at each moment.
pub fn no_pop_fails<T>()
    ensures { NoPopFails T }
{}

/// A stack to which nothing is given twice holds what was given and not taken.
pub fn stacks_hold_what_was_not_taken<T>()
    ensures { StacksHoldWhatWasNotTaken T }
{}

/// At each moment of a walk each lane holds what was given and not taken, in the order in which it was given.
pub fn lanes_hold_the_rest<T>()
    ensures { LanesHoldTheRest T }
{}
