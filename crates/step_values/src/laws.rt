//! Laws of the changes that steps make.
ghost use Rattle.step_values.specs.Values.{AnyValueIsChange, AnyLeafTakesNewState, ValueShowsLeaves, ValueSplitsEvenly, StepIsChange, LeafTakesNewState};
ghost use Rattle.step_values.specs.Sums.{SumsComplete};

/// By any value that splits evenly a step makes a change.
pub fn any_value_is_change()
    ensures { AnyValueIsChange }
{}

/// By any value that also shows the states of leaves, the new value of a leaf is what the solver makes of it.
pub fn any_leaf_takes_new_state()
    ensures { AnyLeafTakesNewState }
{}

/// The value of a leaf is its state.
pub fn value_shows_leaves()
    ensures { ValueShowsLeaves }
{}

/// After a step a leaf that was split has the value of each of its children.
pub fn value_splits_evenly()
    ensures { ValueSplitsEvenly }
{}

/// A step makes a change.
pub fn step_is_change()
    ensures { StepIsChange }
{}

/// The new value of a leaf is what the solver makes of it.
pub fn leaf_takes_new_state()
    ensures { LeafTakesNewState }
{}

/// Sums complete what a secondary sweep leaves out.
pub fn sums_complete()
    ensures { SumsComplete }
{}
