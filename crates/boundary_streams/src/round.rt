//! The positions round a vertex along the curve: which ranges meet them, and who owns them.
ghost use Rattle.std.specs.Prelude.{◌≡◌, ◌^◌, ◌<◌, ◌≤◌, length};
ghost use Rattle.peano_keys.specs.Dim.{corners, children};
ghost use Rattle.curve_cuts.specs.Keys.{cuts_of};
ghost use Rattle.sweep_visits.specs.Plan.{ranges_meet};
ghost use Rattle.boundary_streams.specs.Trees.{IsKeyOf};
ghost use Rattle.boundary_streams.specs.Mails.{IsOwnerAt};
ghost use Rattle.boundary_streams.specs.Sendings.{AreWithin, interval_round, intervals_round, is_any_met, is_met_first};

use curve_cuts::Keys;
use peano_curve::{Range, interval};
use peano_keys::{Dim, VertexKey, adjacent};

// How many adjacent positions a vertex has.
fn position_count(dim: Dim) -> u32
    ensures { result ≡ corners dim }
{
    match dim {
        Dim::Two => 4,
        Dim::Three => 8,
    }
}

// The interval of an adjacent position, empty where there is none.
fn interval_at(keys: &Keys, vertex: VertexKey, n: u32) -> Range
    requires { IsKeyOf (cuts_of keys.now) vertex }
    ensures value { result ≡ interval_round (cuts_of keys.now) vertex n }
    ensures within { result.hi ≤ children keys.now.dim ^ keys.now.depth }
{
    let dim = keys.dim();
    if n >= position_count(dim) {
        return Range { lo: 0, hi: 0 };
    }
    match adjacent(dim, vertex, n) {
        Some(cell) => interval(dim, cell, keys.depth()),
        None => Range { lo: 0, hi: 0 },
    }
}

/// The intervals of all adjacent positions.
pub(crate) fn intervals(keys: &Keys, vertex: VertexKey) -> [Range; 8]
    requires { IsKeyOf (cuts_of keys.now) vertex }
    ensures value { result ≡ intervals_round (cuts_of keys.now) vertex }
    ensures within { AreWithin (cuts_of keys.now) result }
    ensures eight { length result ≡ 8 }
{
    [
        interval_at(keys, vertex, 0),
        interval_at(keys, vertex, 1),
        interval_at(keys, vertex, 2),
        interval_at(keys, vertex, 3),
        interval_at(keys, vertex, 4),
        interval_at(keys, vertex, 5),
        interval_at(keys, vertex, 6),
        interval_at(keys, vertex, 7),
    ]
}

// Whether two ranges share a position.
fn meets(one: &Range, other: &Range) -> bool
    ensures { result ≡ ranges_meet one.now other.now }
{
    one.lo.max(other.lo) < one.hi.min(other.hi)
}

// Whether some of these intervals shares a position with a range.
fn some_meets(intervals: &[Range], range: &Range) -> bool
    ensures { result ≡ is_any_met range.now intervals.now }
{
    intervals.iter().any(|interval| meets(interval, range))
}

/// Whether another tree than the sender has a position of interval number `n`, and none of an earlier one.
pub(crate) fn is_met_first(
    keys: &Keys,
    intervals: &[Range; 8],
    n: usize,
    tree: u32,
    other: u32,
) -> bool
    requires eight { length intervals.now ≡ 8 }
    requires place { n < 8 }
    requires other { other < (cuts_of keys.now).trees }
    ensures { result ≡ is_met_first (cuts_of keys.now) tree intervals.now n other }
{
    if other == tree {
        return false;
    }
    let range = keys.range(other);
    if some_meets(&intervals[..n], &range) {
        return false;
    }
    meets(&intervals[n], &range)
}

/// The tree that owns the cell at an adjacent position; the tree itself where there is none.
pub(crate) fn owner_at(keys: &Keys, vertex: VertexKey, n: u32, tree: u32) -> u32
    requires { IsKeyOf (cuts_of keys.now) vertex }
    ensures { IsOwnerAt (cuts_of keys.now) tree vertex n result }
{
    let dim = keys.dim();
    if n >= position_count(dim) {
        return tree;
    }
    match adjacent(dim, vertex, n) {
        Some(cell) => keys.owner(cell),
        None => tree,
    }
}
