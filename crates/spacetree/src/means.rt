//! The value of a cell: the state of a leaf, and of a refined cell the means over the leaves below it.
ghost use Rattle.std.specs.Prelude.{◌≡◌, ◌-◌, ◌^◌, ◌<◌, ◌≤◌, ◌+ℤ◌, ℕ, ℤ, pos, true};
ghost use Rattle.std.specs.Int.RustNames.{unsigned_abs};
ghost use Rattle.peano_keys.specs.declared.state.State.TheVariants.{Quadruple};
ghost use Rattle.peano_keys.specs.Cell.{IsCell};
ghost use Rattle.peano_keys.specs.State.{count_of};
ghost use Rattle.peano_keys.specs.Grid.{IsGrid, has_cell};
ghost use Rattle.peano_keys.specs.Sums.{cell_weight, floor_of};
ghost use Rattle.peano_keys.specs.Field.{centre_state, state_at, state_like, value_of};
ghost use Rattle.spacetree.specs.Fields.{IsFieldOn};
ghost use Rattle.spacetree.specs.Means.{AreSums, AreSmall, added, by_component, field_sums, state_sums};

use crate::digits::nth_digits;
use crate::field::Field;
use crate::grid::Grid;
use cell_sums::{floor, weighed, weight};
use peano_keys::{CellKey, Dim, State, child, child_count};

// Two numbers, added.
fn plus(one: i128, other: i128) -> i128
    requires one { unsigned_abs one < 2 ^ 126 }
    requires other { unsigned_abs other < 2 ^ 126 }
    ensures value { result ≡ one +ℤ other }
    ensures bound { unsigned_abs result < 2 ^ 127 }
{
    one + other
}

// A sum for each of the four components that a state may have.
#[derive(Clone, Copy)]
struct FourSums {
    first: i128,
    second: i128,
    third: i128,
    fourth: i128,
}

impl FourSums {
    // Nothing summed up.
    fn none() -> FourSums
        ensures { result ≡ by_component (λ i. pos 0) }
    {
        FourSums {
            first: 0,
            second: 0,
            third: 0,
            fourth: 0,
        }
    }

    // The values of a state, each times a weight.
    fn of(state: State, weight: u64) -> FourSums
        requires { weight ≤ 150094635296999121 }
        ensures value { result ≡ state_sums state weight }
        ensures sums { AreSums weight result }
    {
        match state {
            State::Single(a) => FourSums::of_numbers(a, 0, 0, 0, weight),
            State::Pair(a, b) => FourSums::of_numbers(a, b, 0, 0, weight),
            State::Triple(a, b, c) => FourSums::of_numbers(a, b, c, 0, weight),
            State::Quadruple(a, b, c, d) => FourSums::of_numbers(a, b, c, d, weight),
        }
    }

    // Four numbers, each times a weight.
    fn of_numbers(a: i64, b: i64, c: i64, d: i64, weight: u64) -> FourSums
        requires { weight ≤ 150094635296999121 }
        ensures value { result ≡ state_sums (Quadruple a b c d) weight }
        ensures sums { AreSums weight result }
    {
        FourSums {
            first: weighed(a, weight),
            second: weighed(b, weight),
            third: weighed(c, weight),
            fourth: weighed(d, weight),
        }
    }

    // These sums and others.
    fn with(self, other: FourSums) -> FourSums
        requires own { AreSmall self }
        requires other { AreSmall other }
        ensures { result ≡ added self other }
    {
        FourSums {
            first: plus(self.first, other.first),
            second: plus(self.second, other.second),
            third: plus(self.third, other.third),
            fourth: plus(self.fourth, other.fourth),
        }
    }

    // The state that has as many values as another, each a sum divided by a weight and rounded down.
    fn means(self, like: State, weight: u64) -> State
        requires some { 0 < weight }
        requires sums { AreSums weight self }
        ensures { (m : ℕ → ℤ) → self ≡ by_component m
            → result ≡ state_like like (λ i. floor_of (m i) weight) }
    {
        match like {
            State::Single(_) => State::Single(floor(self.first, weight)),
            State::Pair(_, _) => State::Pair(floor(self.first, weight), floor(self.second, weight)),
            State::Triple(_, _, _) => State::Triple(
                floor(self.first, weight),
                floor(self.second, weight),
                floor(self.third, weight),
            ),
            State::Quadruple(_, _, _, _) => State::Quadruple(
                floor(self.first, weight),
                floor(self.second, weight),
                floor(self.third, weight),
                floor(self.fourth, weight),
            ),
        }
    }
}

// The state of a leaf.
pub(crate) fn state(field: &Field, key: &CellKey) -> State
    ensures { result ≡ state_at field.now key.now }
{
    field.get(key).unwrap_or(State::Single(0))
}

// The state of the centre leaf below a cell, which tells how many values the cell has.
fn centre(grid: &Grid, field: &Field, key: CellKey) -> State
    requires { IsCell grid.now.dim key }
    ensures { result ≡ centre_state (12 - key.level) grid.now field.now key }
{
    if key.level == 12 || !grid.is_refined(&key) {
        return state(field, &key);
    }
    let third = match grid.dim() {
        Dim::Two => 0,
        Dim::Three => 1,
    };
    centre(grid, field, child(key, [1, 1, third]))
}

// The sums over the leaves below a cell of the values of their states times their weights.
fn sums(grid: &Grid, field: &Field, key: CellKey) -> FourSums
    requires { IsCell grid.now.dim key }
    ensures value { result ≡ field_sums grid.now field.now (12 - key.level) key }
    ensures sums { AreSums (cell_weight 12 grid.now.dim key) result }
{
    let dim = grid.dim();
    if key.level == 12 || !grid.is_refined(&key) {
        return FourSums::of(state(field, &key), weight(dim, 12 - key.level));
    }
    let mut total = FourSums::none();
    for n in 0..child_count(dim) {
        total = sums(grid, field, child(key, nth_digits(dim, n))).with(total);
    }
    total
}

// The value of a cell: the state of a leaf, and the means of a refined cell.
pub(crate) fn value(grid: &Grid, field: &Field, key: CellKey) -> State
    requires { IsCell grid.now.dim key }
    ensures value { result ≡ value_of grid.now field.now key }
    ensures parts { (n : ℕ) → IsGrid 12 grid.now → IsFieldOn n grid.now field.now
        → has_cell grid.now key ≡ true → count_of result ≡ n }
{
    if !grid.is_refined(&key) {
        return state(field, &key);
    }
    let weight = weight(grid.dim(), 12 - key.level);
    sums(grid, field, key).means(centre(grid, field, key), weight)
}
