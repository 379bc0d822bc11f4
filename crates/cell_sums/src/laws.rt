//! Laws of sums over children and over leaves, of means, and bounds on them.
ghost use Rattle.cell_sums.specs.SumLaws.{NumbersSumChildren, WeightIsPower, MeanByAnyDepth, ValueByAnyDepth, ComponentsAreMeans};
ghost use Rattle.cell_sums.specs.Bounds.{FloorIsBetween, MeansAreBetween, SumsStayBelow, MeansFit};

/// The sum over the children of a cell by number is that over their digits.
pub fn numbers_sum_children()
    ensures { NumbersSumChildren }
{}

/// A weight is a power of three.
pub fn weight_is_power()
    ensures { WeightIsPower }
{}

/// A mean does not depend on the depth by which leaves are weighed.
pub fn mean_by_any_depth()
    ensures { MeanByAnyDepth }
{}

/// So the value of a cell is the same under the depth of its grid.
pub fn value_by_any_depth()
    ensures { ValueByAnyDepth }
{}

/// Each component of a value is the mean of that component.
pub fn components_are_means()
    ensures { ComponentsAreMeans }
{}

/// The floor of a sum lies between the bounds by which the sum weighs.
pub fn floor_is_between()
    ensures { FloorIsBetween }
{}

/// A mean lies between the least and the greatest number.
pub fn means_are_between()
    ensures { MeansAreBetween }
{}

/// Sums of numbers of 64 bits stay below 2^121.
pub fn sums_stay_below()
    ensures { SumsStayBelow }
{}

/// Where all components of a field fit in 64 bits, those of the values of its cells do.
pub fn means_fit()
    ensures { MeansFit }
{}
