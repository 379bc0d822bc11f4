//! The state that a leaf opens with.
ghost use Rattle.std.specs.Prelude.{◌≡◌, ◌<◌, ◌≤◌, ◌*◌, ◌^◌, All};
ghost use Rattle.peano_keys.specs.Cell.{IsCell};
ghost use Rattle.peano_keys.specs.State.{count_of};
ghost use Rattle.spacetree.specs.Opening.{opening_state, is_between, lies_in, zeros, IsBox, IsFill};

use crate::shape::Fill;
use peano_keys::{CellKey, Dim, State, pow3};

// The state of so many zeros.
fn zeros(parts: u32) -> State
    requires least { 1 ≤ parts }
    requires most { parts ≤ 4 }
    ensures value { result ≡ zeros parts }
    ensures count { count_of result ≡ parts }
{
    match parts {
        1 => State::Single(0),
        2 => State::Pair(0, 0),
        3 => State::Triple(0, 0, 0),
        _ => State::Quadruple(0, 0, 0, 0),
    }
}

// A number of half cells of a level in the finest unit.
#[tactic(auto, using(crate::proofs::Boxes::scaled_fits))]
fn scaled(n: u64, level: u32) -> u64
    requires number { n ≤ 1062883 }
    requires level { level ≤ 12 }
    ensures { result ≡ n * 3 ^ level }
{
    n * pow3(level)
}

// Whether the centre of a cell of a level lies, on one axis, in the interval of cells of another level.
#[tactic(auto, using(peano_keys::proofs::Powers::pow3_by_12))]
fn is_between(level: u32, x: u32, box_level: u32, from: u32, to: u32) -> bool
    requires level { level ≤ 12 }
    requires box_level { box_level ≤ 12 }
    requires inside { x < 3 ^ level }
    requires order { from ≤ to }
    requires end { to ≤ 3 ^ box_level }
    ensures { result ≡ is_between level x box_level from to }
{
    let centre = scaled(2 * u64::from(x) + 1, box_level);
    let start = scaled(u64::from(from) * 2, level);
    let end = scaled(u64::from(to) * 2, level);
    start < centre && centre < end
}

// Whether a leaf lies in the box of a fill.
fn lies_in(dim: Dim, key: &CellKey, fill: &Fill) -> bool
    requires cell { IsCell dim key.now }
    requires fill { IsBox fill.now }
    ensures { result ≡ lies_in dim key.now fill.now }
{
    let third = match dim {
        Dim::Two => true,
        Dim::Three => is_between(key.level, key.x[2], fill.level, fill.from[2], fill.to[2]),
    };
    is_between(key.level, key.x[0], fill.level, fill.from[0], fill.to[0])
        && is_between(key.level, key.x[1], fill.level, fill.from[1], fill.to[1])
        && third
}

// The state that a leaf opens with.
pub(crate) fn opening_state(dim: Dim, fills: &[Fill], parts: u32, key: &CellKey) -> State
    requires cell { IsCell dim key.now }
    requires least { 1 ≤ parts }
    requires most { parts ≤ 4 }
    requires fills { All (IsFill parts) fills.now }
    ensures value { result ≡ opening_state dim fills.now parts key.now }
    ensures count { count_of result ≡ parts }
{
    let mut state = zeros(parts);
    for fill in fills {
        if lies_in(dim, key, fill) {
            state = fill.value;
        }
    }
    state
}
