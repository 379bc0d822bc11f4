//! Weights, products of numbers and weights, and quotients rounded down.
ghost use Rattle.std.specs.Prelude.{◌≡◌, ◌<◌, ◌≤◌, ◌*ℤ◌, pos};
ghost use Rattle.peano_keys.specs.Sums.{weight, floor_of};
ghost use Rattle.cell_sums.specs.Bounds.{WeighsBetween, least_word, greatest_word};

use peano_keys::{Dim, child_count};

/// The weight of a cell so many levels above the depth: how many cells of that depth fill it.
#[tactic(auto, using(crate::proofs::Bounds::weight_most, crate::proofs::Sums::weight_positive))]
pub fn weight(dim: Dim, levels: u32) -> u64
    requires { levels ≤ 12 }
    ensures value { result ≡ weight dim levels }
    ensures some { 0 < result }
    ensures most { result ≤ 150094635296999121 }
{
    u64::from(child_count(dim)).pow(levels)
}

/// A number times a weight.
pub fn weighed(number: i64, weight: u64) -> i128
    requires { weight ≤ 150094635296999121 }
    ensures value { result ≡ number *ℤ pos weight }
    ensures between { WeighsBetween least_word greatest_word weight result }
{
    i128::from(number) * i128::from(weight)
}

/// A sum of numbers of 64 bits divided by its weight and rounded down.
pub fn floor(sum: i128, weight: u64) -> i64
    requires some { 0 < weight }
    requires between { WeighsBetween least_word greatest_word weight sum }
    ensures { result ≡ floor_of sum weight }
{
    sum.div_euclid(i128::from(weight)) as i64
}
