//! The order of cells along the curve.
ghost use Rattle.std.specs.Prelude.{◌≡◌, ◌+◌, ◌^◌, ◌<◌, ◌≤◌, MatchOption, IfSome};
ghost use Rattle.peano_keys.specs.Dim.{children};
ghost use Rattle.peano_keys.specs.Cell.{IsCell, parent_of};
ghost use Rattle.stack_law.specs.Digits.{turned};
ghost use Rattle.peano_curve.specs.Order.{sibling_place, place_along, counted, child_along, nth_child, rank_of, width_of, interval_of, centre_of, curve_cmp};

use crate::range::Range;
use peano_keys::{CellKey, Dim, child, child_count, parent};
use std::cmp::Ordering;

/// Which way the curve is followed.
#[derive(Clone, Copy, Debug, PartialEq, Eq)]
pub enum Direction {
    Forward,
    Backward,
}

// A digit as the curve counts it.
pub(crate) fn turn(sum: u32, digit: u32) -> u32
    requires { digit < 3 }
    ensures value { result ≡ turned sum digit }
    ensures digit { result < 3 }
{
    if sum % 2 == 0 { digit } else { 2 - digit }
}

// The place of a cell among its siblings.
fn place(dim: Dim, key: CellKey) -> u32
    requires cell { IsCell dim key }
    ensures value { result ≡ sibling_place dim key }
    ensures below { result < children dim }
{
    let [x0, x1, x2] = [key.x[0] / 3, key.x[1] / 3, key.x[2] / 3];
    let [k0, k1, k2] = [key.x[0] % 3, key.x[1] % 3, key.x[2] % 3];
    match dim {
        Dim::Two => 3 * turn(x1, k0) + turn(x0 + k0, k1),
        Dim::Three => {
            9 * turn(x1 + x2, k0) + 3 * turn(x0 + x2 + k0, k1) + turn(x0 + x1 + k0 + k1, k2)
        }
    }
}

// A place counted along a direction.
fn count(dim: Dim, dir: Direction, place: u32) -> u32
    requires { place < children dim }
    ensures value { result ≡ counted dir dim place }
    ensures below { result < children dim }
    ensures back { counted dir dim result ≡ place }
{
    match dir {
        Direction::Forward => place,
        Direction::Backward => child_count(dim) - 1 - place,
    }
}

// The child of a cell at a place among its siblings.
#[tactic(auto, using(peano_keys::proofs::Powers::pow3_by_12))]
fn child_at(dim: Dim, cell: CellKey, place: u32) -> CellKey
    requires cell { IsCell dim cell }
    requires above { cell.level < 12 }
    requires place { place < children dim }
    ensures value { result ≡ nth_child dim cell place }
    ensures parent { parent_of result ≡ cell }
    ensures place { sibling_place dim result ≡ place }
    ensures cell { IsCell dim result }
{
    let [x0, x1, x2] = cell.x;
    match dim {
        Dim::Two => {
            let k0 = turn(x1, place / 3);
            let k1 = turn(x0 + k0, place % 3);
            child(cell, [k0, k1, 0])
        }
        Dim::Three => {
            let k0 = turn(x1 + x2, place / 9);
            let k1 = turn(x0 + x2 + k0, place / 3 % 3);
            let k2 = turn(x0 + x1 + k0 + k1, place % 3);
            child(cell, [k0, k1, k2])
        }
    }
}

/// The first child of a cell along a direction.
pub fn first_child(dim: Dim, cell: CellKey, dir: Direction) -> CellKey
    requires cell { IsCell dim cell }
    requires above { cell.level < 12 }
    ensures value { result ≡ child_along dir dim cell 0 }
    ensures parent { parent_of result ≡ cell }
    ensures first { place_along dir dim result ≡ 0 }
    ensures cell { IsCell dim result }
{
    child_at(dim, cell, count(dim, dir, 0))
}

/// The next child of the same parent along a direction, none after the last.
pub fn next_child(dim: Dim, child: CellKey, dir: Direction) -> Option<CellKey>
    requires cell { IsCell dim child }
    requires below_root { 1 ≤ child.level }
    ensures last { MatchOption result (place_along dir dim child + 1 ≡ children dim)
        (λ next. place_along dir dim next ≡ place_along dir dim child + 1) }
    ensures parent { IfSome result (λ next. parent_of next ≡ parent_of child) }
    ensures value { IfSome result
        (λ next. next ≡ child_along dir dim (parent_of child) (place_along dir dim child + 1)) }
    ensures cell { IfSome result (λ next. IsCell dim next) }
{
    let from = count(dim, dir, place(dim, child));
    if from + 1 == child_count(dim) {
        None
    } else {
        Some(child_at(dim, parent(child), count(dim, dir, from + 1)))
    }
}

// The rank of a cell among the cells of its level.
#[tactic(auto, using(crate::proofs::Ranks::children_pow_12, crate::proofs::Ranks::steps))]
fn rank(dim: Dim, key: CellKey) -> u64
    requires cell { IsCell dim key }
    ensures value { result ≡ rank_of dim key }
    ensures below { result < children dim ^ key.level }
{
    if key.level == 0 {
        0
    } else {
        u64::from(child_count(dim)) * rank(dim, parent(key)) + u64::from(place(dim, key))
    }
}

// How many cells of level `depth` a cell of level `level` has below it.
#[tactic(auto, using(crate::proofs::Ranks::children_pow_12, crate::proofs::Ranks::width_positive))]
fn width(dim: Dim, level: u32, depth: u32) -> u64
    requires { depth ≤ 12 }
    ensures value { result ≡ width_of dim level depth }
    ensures positive { 0 < result }
{
    u64::from(child_count(dim)).pow(depth.saturating_sub(level))
}

/// The positions of a cell's descendants of level `depth` among all cells of that level.
/// A position needs 64 bits: at depth 12 in space there are 3^36 of them.
#[tactic(auto, using(crate::proofs::Ranks::children_pow_12))]
pub fn interval(dim: Dim, cell: CellKey, depth: u32) -> Range
    requires cell { IsCell dim cell }
    requires above { cell.level ≤ depth }
    requires depth { depth ≤ 12 }
    ensures value { result ≡ interval_of dim cell depth }
    ensures within { result.hi ≤ children dim ^ depth }
    ensures wide { children dim ^ depth < 2 ^ 64 }
{
    let width = width(dim, cell.level, depth);
    let lo = rank(dim, cell) * width;
    Range { lo, hi: lo + width }
}

/// The middle position of a cell's interval.
pub fn centre(dim: Dim, cell: CellKey, depth: u32) -> u64
    requires cell { IsCell dim cell }
    requires above { cell.level ≤ depth }
    requires depth { depth ≤ 12 }
    ensures { result ≡ centre_of dim cell depth }
{
    let range = interval(dim, cell, depth);
    range.lo + (range.hi - range.lo) / 2
}

/// The order along the curve: by intervals, and an ancestor before its descendants.
pub fn compare(dim: Dim, a: &CellKey, b: &CellKey) -> Ordering
    requires first { IsCell dim a.now }
    requires second { IsCell dim b.now }
    ensures { result ≡ curve_cmp dim a.now b.now }
{
    let common = a.level.min(b.level);
    let first = rank(dim, *a) / width(dim, common, a.level);
    let second = rank(dim, *b) / width(dim, common, b.level);
    match first.cmp(&second) {
        Ordering::Equal => a.level.cmp(&b.level),
        other => other,
    }
}
