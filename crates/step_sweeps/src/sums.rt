//! The sums of what lies below cells.
ghost use Rattle.std.specs.Prelude.{◌≡◌, ◌≤◌, ◌<◌, ◌+ℤ◌};
ghost use Rattle.std.specs.Int.{w64, w128, int_wrap};
ghost use Rattle.std.specs.Int.RustNames.{FitsSigned};
ghost use Rattle.peano_keys.specs.Cell.{IsCell};
ghost use Rattle.peano_keys.specs.State.{value_at, count_of};
ghost use Rattle.peano_keys.specs.Sums.{floor_of};
ghost use Rattle.curve_cuts.specs.Keys.{cuts_of};
ghost use Rattle.mean_values.specs.NextSums.{rounded};
ghost use Rattle.tree_sums.specs.Trees.{is_within};
ghost use Rattle.step_sweeps.specs.Secondaries.{sum_of, added, weighed, all_rounded, HasMeans, with_partial};

use curve_cuts::Keys;
use peano_curve::interval;
use peano_keys::{CellKey, State};
use peano_records::{Partial, Partials};

// Whether a tree has a cell whole, so that no other tree holds it.
pub(crate) fn is_within(keys: &Keys, tree: u32, cell: CellKey) -> bool
    requires cell { IsCell keys.now.dim cell }
    requires level { cell.level ≤ keys.now.depth }
    requires tree { tree < (cuts_of keys.now).trees }
    ensures { result ≡ is_within (cuts_of keys.now) tree cell }
{
    let own = interval(keys.dim(), cell, keys.depth());
    let range = keys.range(tree);
    range.lo <= own.lo && own.hi <= range.hi
}

// Two numbers added in 128 bits.
fn plus(one: i128, other: i128) -> i128
    ensures { result ≡ int_wrap w128 (one +ℤ other) }
{
    one.wrapping_add(other)
}

// Sums added.
pub(crate) fn added(x: &[i128; 4], y: &[i128; 4]) -> [i128; 4]
    ensures { result ≡ added x.now y.now }
{
    [
        plus(x[0], y[0]),
        plus(x[1], y[1]),
        plus(x[2], y[2]),
        plus(x[3], y[3]),
    ]
}

// A component of a state, 0 where it has none.
fn component(state: &State, i: u32) -> i64
    ensures { result ≡ value_at state.now i }
{
    if i < state.count() { state.get(i) } else { 0 }
}

// A state times a weight.
pub(crate) fn weighed(state: &State, weight: u64) -> [i128; 4]
    requires { weight ≤ 150094635296999121 }
    ensures { result ≡ weighed state.now weight }
{
    [
        cell_sums::weighed(component(state, 0), weight),
        cell_sums::weighed(component(state, 1), weight),
        cell_sums::weighed(component(state, 2), weight),
        cell_sums::weighed(component(state, 3), weight),
    ]
}

// A sum with its floor in its place.
fn rounded(sum: i128, weight: u64) -> i128
    requires { 0 < weight }
    ensures { result ≡ int_wrap w128 (rounded sum weight) }
{
    let weight = i128::from(weight);
    sum.div_euclid(weight).wrapping_mul(weight)
}

// Sums with their floors in their places.
pub(crate) fn all_rounded(x: &[i128; 4], weight: u64) -> [i128; 4]
    requires { 0 < weight }
    ensures { result ≡ all_rounded x.now weight }
{
    [
        rounded(x[0], weight),
        rounded(x[1], weight),
        rounded(x[2], weight),
        rounded(x[3], weight),
    ]
}

// The floor of a sum.
fn floor(sum: i128, weight: u64) -> i64
    requires { 0 < weight }
    ensures { FitsSigned w64 (floor_of sum weight) → result ≡ floor_of sum weight }
{
    i64::try_from(sum.div_euclid(i128::from(weight))).unwrap_or(0)
}

// The floor of a component.
fn floor_at(x: &[i128; 4], i: usize, weight: u64) -> i64
    requires component { i < 4 }
    requires weight { 0 < weight }
    ensures { FitsSigned w64 (floor_of (sum_of x.now i) weight)
        → result ≡ floor_of (sum_of x.now i) weight }
{
    floor(x[i], weight)
}

// The state of three floors of sums.
fn three_means(x: &[i128; 4], weight: u64) -> State
    requires { 0 < weight }
    ensures { HasMeans 3 weight x.now result }
{
    State::Triple(
        floor_at(x, 0, weight),
        floor_at(x, 1, weight),
        floor_at(x, 2, weight),
    )
}

// And that of four.
fn four_means(x: &[i128; 4], weight: u64) -> State
    requires { 0 < weight }
    ensures { HasMeans 4 weight x.now result }
{
    State::Quadruple(
        floor_at(x, 0, weight),
        floor_at(x, 1, weight),
        floor_at(x, 2, weight),
        floor_at(x, 3, weight),
    )
}

// The state of so many values that are the floors of sums.
pub(crate) fn means(parts: u32, x: &[i128; 4], weight: u64) -> State
    requires least { 1 ≤ parts }
    requires most { parts ≤ 4 }
    requires weight { 0 < weight }
    ensures { HasMeans parts weight x.now result }
{
    match parts {
        1 => State::Single(floor_at(x, 0, weight)),
        2 => State::Pair(floor_at(x, 0, weight), floor_at(x, 1, weight)),
        3 => three_means(x, weight),
        _ => four_means(x, weight),
    }
}

// A partial more, as long as there is a place.
pub(crate) fn hand_out(partials: &mut Partials, partial: Partial)
    ensures { partials.new ≡ with_partial partials.old partial }
{
    if partials.as_slice().len() < 24 {
        partials.push(partial);
    }
}

// The same partials once more.
pub(crate) fn copied(partials: &Partials) -> Partials
    ensures { result ≡ partials.now }
{
    let items = partials.as_slice();
    let mut copy = Partials::new();
    for partial in items {
        copy.push(*partial);
    }
    copy
}
