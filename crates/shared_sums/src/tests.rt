//! Totals and means of worked examples.
ghost use Rattle.std.specs.Prelude.{◌≡◌, ◌<◌, ◌≤◌, IsTrue, All, length};
ghost use Rattle.std.specs.Int.{w64};
ghost use Rattle.std.specs.Int.RustNames.{unsigned_abs, FitsSigned};
ghost use Rattle.peano_keys.specs.Sums.{floor_of};
ghost use Rattle.shared_sums.specs.Totals.{sum_at, IsPartial, ArePartials};

use crate::adding::state_like;
use crate::totals::{corrected_total, mean, weight};
use peano_keys::{CellKey, Dim, State, is_cell, root};
use peano_records::{Partial, Partials};
use std::process::Abort;

fn cell(level: u32, x: [u32; 3]) -> CellKey {
    CellKey { level, x }
}

fn partial(key: CellKey, sums: [i128; 4]) -> Partial {
    Partial {
        key,
        sums,
        merges: false,
    }
}

fn merging(key: CellKey, sums: [i128; 4]) -> Partial {
    Partial {
        key,
        sums,
        merges: true,
    }
}

// The partials of a tree.
fn tree(rows: &[Partial]) -> Partials
    requires { length rows.now ≤ 24 }
{
    let mut partials = Partials::new();
    for row in rows {
        partials.push(*row);
    }
    partials
}

fn is_small(sum: i128) -> bool
    ensures { IsTrue result → unsigned_abs sum ≤ 9223372036854775808 }
{
    -0x4000_0000_0000_0000 <= sum && sum <= 0x4000_0000_0000_0000
}

fn is_small_at(partial: &Partial, i: usize) -> bool
    requires { i < 4 }
    ensures { IsTrue result → unsigned_abs (sum_at i partial.now) ≤ 9223372036854775808 }
{
    is_small(partial.sums[i])
}

fn is_partial(dim: Dim, depth: u32, partial: &Partial) -> bool
    ensures { IsTrue result → IsPartial depth dim partial.now }
{
    if !is_cell(dim, &partial.key) || depth < partial.key.level {
        return false;
    }
    if !is_small_at(partial, 0) || !is_small_at(partial, 1) {
        return false;
    }
    if !is_small_at(partial, 2) || !is_small_at(partial, 3) {
        return false;
    }
    true
}

fn have_partials(dim: Dim, depth: u32, partials: &[Partial]) -> bool
    ensures { IsTrue result → All (IsPartial depth dim) partials.now }
{
    for partial in partials {
        if !is_partial(dim, depth, partial) {
            return false;
        }
    }
    true
}

fn are_partials(dim: Dim, depth: u32, all: &[Partials]) -> bool
    ensures { IsTrue result → ArePartials depth dim all.now }
{
    for partials in all {
        if !have_partials(dim, depth, partials.as_slice()) {
            return false;
        }
    }
    true
}

fn has_floor(sum: i128, weight: u64) -> bool
    requires { 0 < weight }
    ensures { IsTrue result → FitsSigned w64 (floor_of sum weight) }
{
    i64::try_from(sum.div_euclid(i128::from(weight))).is_ok()
}

// A component of a cell has this sum and this mean.
fn has(
    rt: &impl Abort,
    (dim, depth): (Dim, u32),
    all: &[Partials],
    (key, i): (CellKey, usize),
    sum: i128,
    value: i64,
) {
    assert!(rt; depth <= 12);
    assert!(rt; key.level <= depth);
    assert!(rt; i < 4);
    assert!(rt; all.len() <= 64);
    assert!(rt; are_partials(dim, depth, all));
    let total = corrected_total(dim, depth, all, key, i);
    assert_eq!(rt; total, sum);
    assert!(rt; has_floor(total, weight(dim, depth - key.level)));
    assert_eq!(rt; mean(dim, depth, all, key, i), value);
}

#[test]
fn totals_over_trees(rt: HostRuntime) {
    let middle = cell(1, [1, 1, 0]);
    let other = cell(1, [0, 2, 0]);
    let plane = (Dim::Two, 2);
    let all = [
        tree(&[partial(other, [7, 0, 0, 0])]),
        tree(&[
            partial(root(), [5, 0, 0, 0]),
            partial(middle, [180, -1, -10, 4]),
        ]),
        tree(&[partial(middle, [720, 0, 0, 4])]),
    ];
    for (key, i, sum, value) in [
        (middle, 0, 900, 100),
        (middle, 1, -1, -1),
        (middle, 2, -10, -2),
        (middle, 3, 8, 0),
        (other, 0, 7, 0),
        (root(), 0, 5, 0),
        (cell(2, [1, 1, 0]), 0, 0, 0),
    ] {
        has(&rt, plane, &all, (key, i), sum, value);
    }
}

#[test]
fn merging_cells_below(rt: HostRuntime) {
    let middle = cell(1, [1, 1, 0]);
    let low = cell(2, [3, 3, 0]);
    let high = cell(2, [4, 4, 0]);
    let plane = (Dim::Two, 3);
    let kept = [
        tree(&[partial(middle, [40, 3, 0, 0]), partial(low, [4, 0, 0, 0])]),
        tree(&[
            partial(middle, [42, 0, 0, 0]),
            partial(low, [10, 0, 0, 0]),
            partial(high, [5, 0, 0, 0]),
        ]),
    ];
    has(&rt, plane, &kept, (middle, 0), 82, 1);
    let all = [
        tree(&[
            partial(root(), [1, 0, 0, 0]),
            partial(middle, [40, -4, 0, 0]),
            partial(low, [4, -4, 0, 0]),
        ]),
        tree(&[
            partial(middle, [42, 0, 0, 0]),
            merging(low, [10, 0, 0, 0]),
            merging(high, [5, 0, 0, 0]),
        ]),
    ];
    for (key, i, sum, value) in [
        (middle, 0, 72, 0),
        (middle, 1, -9, -1),
        (low, 0, 14, 1),
        (high, 0, 5, 0),
        (root(), 0, -9, -1),
        (cell(1, [0, 1, 0]), 0, 0, 0),
    ] {
        has(&rt, plane, &all, (key, i), sum, value);
    }
}

#[test]
fn totals_in_space(rt: HostRuntime) {
    let deep = cell(1, [2, 0, 1]);
    let all = [
        tree(&[partial(deep, [53, 27, 0, 0])]),
        tree(&[merging(deep, [0, 1, 0, -1])]),
    ];
    for (key, i, sum, value) in [
        (deep, 0, 53, 1),
        (deep, 1, 28, 1),
        (deep, 3, -1, -1),
        (root(), 0, -26, -1),
    ] {
        has(&rt, (Dim::Three, 2), &all, (key, i), sum, value);
    }
}

#[test]
fn states_take_as_many_values(rt: HostRuntime) {
    for (state, want) in [
        (State::Single(9), State::Single(1)),
        (State::Pair(9, 9), State::Pair(1, -2)),
        (State::Triple(9, 9, 9), State::Triple(1, -2, 3)),
        (State::Quadruple(9, 9, 9, 9), State::Quadruple(1, -2, 3, -4)),
    ] {
        assert_eq!(rt; state_like(state, [1, -2, 3, -4]), want);
    }
}
