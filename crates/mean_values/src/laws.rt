//! Laws of sums over next fields, and of steps.
ghost use Rattle.mean_values.specs.Curves.{CurveSumsChildren};
ghost use Rattle.mean_values.specs.Lists.{LeavesMakeSum};
ghost use Rattle.mean_values.specs.NextSums.{NextIsMean, SameTestsSameSums, NextSumsAreBetween};
ghost use Rattle.mean_values.specs.Steps.{OneFieldOfNewStates, StepGivesNumbers, NextFieldIsField, SumsGiveValue};

/// The sum over the children of a cell along the curve, either way, is that over all of them.
pub fn curve_sums_children()
    ensures { CurveSumsChildren }
{}

/// The sum of a cell is that over any list of the leaves below it, each once.
pub fn leaves_make_sum()
    ensures { LeavesMakeSum }
{}

/// The floor of the next sum of a cell is its mean in the next field.
pub fn next_is_mean()
    ensures { NextIsMean }
{}

/// Tests of merging cells that agree give the same sums.
pub fn same_tests_same_sums()
    ensures { SameTestsSameSums }
{}

/// A field of new states is one alone.
pub fn one_field_of_new_states()
    ensures { OneFieldOfNewStates }
{}

/// The components of the next field are next numbers.
pub fn step_gives_numbers()
    ensures { StepGivesNumbers }
{}

/// The next field is a field on the next grid, with states of as many values.
pub fn next_field_is_field()
    ensures { NextFieldIsField }
{}

/// A state with the floors of the next sums of a cell is its value in the next field.
pub fn sums_give_value()
    ensures { SumsGiveValue }
{}

/// Next sums lie between the bounds of the numbers times the weight.
pub fn next_sums_are_between()
    ensures { NextSumsAreBetween }
{}
