//! Exact arithmetic on values: products in 128 bits, quotients rounded down, and sums that are tested.
ghost use Rattle.std.specs.Prelude.{◌≡◌, ◌≤◌, ◌^◌, ◌<◌, ◌*◌, ◌+◌, ◌+ℤ◌, ◌-ℤ◌, ◌*ℤ◌, pos};
ghost use Rattle.std.specs.Int.{int_div_euclid};
ghost use Rattle.std.specs.Int.RustNames.{unsigned_abs};
ghost use Rattle.peano_keys.specs.State.{value_at};
ghost use Rattle.volume_solver.specs.Ranges.{IsDivisor};
ghost use Rattle.volume_solver.specs.Kernel.{fitted, single_of, pair_of};
ghost use Rattle.volume_solver.specs.Counts.{AnswerHas};

use peano_keys::State;

// The first value of a state.
#[tactic(auto, using(crate::proofs::Bounds::count_positive))]
pub(crate) fn first(state: State) -> i64
    ensures { result ≡ value_at state 0 }
{
    state.get(0)
}

// How far the first value of a state lies above that of another.
pub(crate) fn excess(there: State, own: State) -> i128
    ensures value { result ≡ value_at there 0 -ℤ value_at own 0 }
    ensures bound { unsigned_abs result < 2 ^ 64 }
{
    i128::from(first(there)) - i128::from(first(own))
}

// A coefficient times the scale of a level.
pub(crate) fn scaled(coefficient: i64, scale: u64) -> i128
    requires coefficient { unsigned_abs coefficient ≤ 1000000 }
    requires scale { scale ≤ 282429536481 }
    ensures value { result ≡ coefficient *ℤ pos scale }
    ensures bound { unsigned_abs result ≤ 282429536481000000 }
{
    i128::from(coefficient) * i128::from(scale)
}

// That times a sum of values.
pub(crate) fn product(factor: i128, sum: i128) -> i128
    requires factor { unsigned_abs factor ≤ 282429536481000000 }
    requires sum { unsigned_abs sum < 2 ^ 67 }
    ensures value { result ≡ factor *ℤ sum }
    ensures bound { unsigned_abs result ≤ 282429536481000000 * unsigned_abs sum }
{
    factor * sum
}

// A number for each of three axes, added.
pub(crate) fn sum_of_three(first: i128, second: i128, third: i128) -> i128
    requires first { unsigned_abs first < 2 ^ 122 }
    requires second { unsigned_abs second < 2 ^ 122 }
    requires third { unsigned_abs third < 2 ^ 122 }
    ensures value { result ≡ (first +ℤ second) +ℤ third }
    ensures bound { unsigned_abs result
        ≤ unsigned_abs first + unsigned_abs second + unsigned_abs third }
{
    first + second + third
}

// A number divided by `b` and rounded down.
#[tactic(auto, using(crate::proofs::Bounds::floor_bound))]
pub(crate) fn quotient(number: i128, b: i64) -> i128
    requires divisor { IsDivisor b }
    requires number { unsigned_abs number < 2 ^ 125 }
    ensures value { result ≡ int_div_euclid number b }
    ensures bound { unsigned_abs result ≤ unsigned_abs number }
{
    number.div_euclid(i128::from(b))
}

// A number as an `i64`, none where it is none.
fn fitted(number: i128) -> Option<i64>
    ensures { result ≡ fitted number }
{
    match i64::try_from(number) {
        Ok(value) => Some(value),
        Err(_) => None,
    }
}

// The state of one number, none where it is no `i64`.
pub(crate) fn single(number: i128) -> Option<State>
    ensures value { result ≡ single_of (fitted number) }
    ensures parts { AnswerHas 1 result }
{
    match fitted(number) {
        Some(value) => Some(State::Single(value)),
        None => None,
    }
}

// The state of two numbers, none where one of them is no `i64`.
pub(crate) fn pair(first: i128, second: i128) -> Option<State>
    ensures value { result ≡ pair_of (fitted first) (fitted second) }
    ensures parts { AnswerHas 2 result }
{
    match (fitted(first), fitted(second)) {
        (Some(value), Some(speed)) => Some(State::Pair(value, speed)),
        _ => None,
    }
}
