//! The totals of shared cells over the partials of all trees.
ghost use Rattle.std.specs.Prelude.{◌≡◌, ◌-◌, ◌+◌, ◌*◌, ◌^◌, ◌<◌, ◌≤◌, length, All, pos, ◌+ℤ◌};
ghost use Rattle.std.specs.Int.{w64};
ghost use Rattle.std.specs.Int.RustNames.{unsigned_abs, FitsSigned};
ghost use Rattle.peano_keys.specs.Sums.{weight, floor_of};
ghost use Rattle.mean_values.specs.Lists.{list_sum};
ghost use Rattle.tree_sums.specs.Partials.{correction};
ghost use Rattle.tree_sums.specs.Totals.{is_above, added_by};
ghost use Rattle.shared_sums.specs.Totals.{partial_of, sum_in, total_in, merging_of, merging_in, added_of, corrected_in, mean_in, ArePartials, IsPartial};
ghost use Rattle.shared_sums.specs.Bounds.{most_of_one, HasSmallSums, HaveSmallSums};

use peano_keys::{CellKey, Dim, child_count, extent};
use peano_records::{Partial, Partials};

// The partial of a cell among those of a tree.
fn partial_of(partials: &[Partial], key: CellKey) -> Option<Partial>
    ensures { result ≡ partial_of key partials.now }
{
    for partial in partials {
        if partial.key == key {
            return Some(*partial);
        }
    }
    None
}

// What a tree has of a cell.
fn sum_in(partials: &[Partial], key: CellKey, i: usize) -> i128
    requires component { i < 4 }
    requires small { All HasSmallSums partials.now }
    ensures value { result ≡ sum_in key i partials.now }
    ensures bound { unsigned_abs result ≤ most_of_one }
{
    match partial_of(partials, key) {
        Some(partial) => partial.sums[i],
        None => 0,
    }
}

// Two numbers added.
fn add(one: i128, other: i128) -> i128
    requires { unsigned_abs one + unsigned_abs other < 2 ^ 127 }
    ensures value { result ≡ one +ℤ other }
    ensures bound { unsigned_abs result ≤ unsigned_abs one + unsigned_abs other }
{
    one + other
}

// The total of a cell: what all trees have of it.
fn total_in(all: &[Partials], key: CellKey, i: usize) -> i128
    requires component { i < 4 }
    requires trees { length all.now ≤ 64 }
    requires small { HaveSmallSums all.now }
    ensures value { result ≡ total_in all.now i key }
    ensures bound { unsigned_abs result ≤ 64 * most_of_one }
{
    let mut total = 0;
    for partials in all {
        total = add(total, sum_in(partials.as_slice(), key, i));
    }
    total
}

// The weight of a cell that lies so many levels above the depth.
#[tactic(auto, using(peano_curve::proofs::Ranks::children_pow_12, peano_curve::proofs::Ranks::width_positive))]
pub(crate) fn weight(dim: Dim, levels: u32) -> u64
    requires { levels ≤ 12 }
    ensures value { result ≡ weight dim levels }
    ensures some { 0 < result }
    ensures most { result ≤ 150094635296999121 }
{
    u64::from(child_count(dim)).pow(levels)
}

// What a shared merging cell adds to the totals of the cells above it.
fn correction(total: i128, weight: u64) -> i128
    requires total { unsigned_abs total < 2 ^ 127 }
    requires some { 0 < weight }
    requires most { weight ≤ 150094635296999121 }
    ensures value { result ≡ correction total weight }
    ensures bound { unsigned_abs result ≤ 150094635296999121 }
{
    -total.rem_euclid(i128::from(weight))
}

// Whether a cell lies strictly above another.
fn is_above(cell: CellKey, lower: CellKey) -> bool
    requires { lower.level ≤ 12 }
    ensures { result ≡ is_above cell lower }
{
    if lower.level <= cell.level {
        return false;
    }
    let width = extent(lower.level - cell.level);
    let above = CellKey {
        level: cell.level,
        x: [lower.x[0] / width, lower.x[1] / width, lower.x[2] / width],
    };
    above == cell
}

// What a partial adds to the total of a cell: the correction of its cell, where that merges and lies strictly below.
fn added_by(
    dim: Dim,
    depth: u32,
    all: &[Partials],
    partial: &Partial,
    key: CellKey,
    i: usize,
) -> i128
    requires component { i < 4 }
    requires depth { depth ≤ 12 }
    requires trees { length all.now ≤ 64 }
    requires small { HaveSmallSums all.now }
    requires level { partial.now.key.level ≤ depth }
    ensures value { result ≡ added_of (added_by depth dim (total_in all.now i) key) partial.now }
    ensures bound { unsigned_abs result ≤ 150094635296999121 }
{
    if !partial.merges {
        return 0;
    }
    if !is_above(key, partial.key) {
        return 0;
    }
    let weight = weight(dim, depth - partial.key.level);
    correction(total_in(all, partial.key, i), weight)
}

// What the partials of a tree add to the total of a cell.
fn added_of(
    dim: Dim,
    depth: u32,
    all: &[Partials],
    partials: &[Partial],
    key: CellKey,
    i: usize,
) -> i128
    requires component { i < 4 }
    requires depth { depth ≤ 12 }
    requires trees { length all.now ≤ 64 }
    requires small { HaveSmallSums all.now }
    requires levels { All (IsPartial depth dim) partials.now }
    requires few { length partials.now ≤ 24 }
    ensures value { result
        ≡ list_sum (added_by depth dim (total_in all.now i) key) (merging_of partials.now) }
    ensures bound { unsigned_abs result ≤ 24 * 150094635296999121 }
{
    let mut sum = 0;
    for partial in partials {
        sum = add(sum, added_by(dim, depth, all, partial, key, i));
    }
    sum
}

// What the merging cells strictly below a cell add to its total.
fn added_in(dim: Dim, depth: u32, all: &[Partials], key: CellKey, i: usize) -> i128
    requires component { i < 4 }
    requires depth { depth ≤ 12 }
    requires trees { length all.now ≤ 64 }
    requires small { HaveSmallSums all.now }
    requires partials { ArePartials depth dim all.now }
    ensures value { result
        ≡ list_sum (added_by depth dim (total_in all.now i) key) (merging_in all.now) }
    ensures bound { unsigned_abs result ≤ 64 * (24 * 150094635296999121) }
{
    let mut sum = 0;
    for partials in all {
        sum = add(sum, added_of(dim, depth, all, partials.as_slice(), key, i));
    }
    sum
}

// The total of a cell with the corrections of the merging cells strictly below it.
pub(crate) fn corrected_total(
    dim: Dim,
    depth: u32,
    all: &[Partials],
    key: CellKey,
    i: usize,
) -> i128
    requires component { i < 4 }
    requires depth { depth ≤ 12 }
    requires trees { length all.now ≤ 64 }
    requires partials { ArePartials depth dim all.now }
    ensures { result ≡ corrected_in depth dim all.now i key }
{
    add(total_in(all, key, i), added_in(dim, depth, all, key, i))
}

// A sum divided by a weight and rounded down.
fn floor(sum: i128, weight: u64) -> i64
    requires some { 0 < weight }
    requires fits { FitsSigned w64 (floor_of sum weight) }
    ensures { result ≡ floor_of sum weight }
{
    sum.div_euclid(i128::from(weight)) as i64
}

/// The mean of a shared cell: a component of its total over the partials of all trees, with the corrections of the
/// merging cells strictly below it, divided by the weight of the cell and rounded down.
pub(crate) fn mean(dim: Dim, depth: u32, all: &[Partials], key: CellKey, i: usize) -> i64
    requires component { i < 4 }
    requires depth { depth ≤ 12 }
    requires level { key.level ≤ depth }
    requires trees { length all.now ≤ 64 }
    requires partials { ArePartials depth dim all.now }
    requires fits { FitsSigned w64 (mean_in depth dim all.now i key) }
    ensures { result ≡ mean_in depth dim all.now i key }
{
    let total = corrected_total(dim, depth, all, key, i);
    floor(total, weight(dim, depth - key.level))
}
