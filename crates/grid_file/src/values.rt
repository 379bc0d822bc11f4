//! What may stand at each key.
ghost use Rattle.std.specs.Prelude.{◌≡◌, ◌≤◌, ◌^◌, IfSome, Some, length, option_map, slice_index, unsigned_abs};
ghost use Rattle.peano_keys.specs.State.{count_of};
ghost use Rattle.volume_solver.specs.Ranges.{IsWind, EdgeHas};
ghost use Rattle.toml.specs.View.{view, items_view};
ghost use Rattle.grid_file.specs.Tree.{seen};
ghost use Rattle.grid_file.specs.Values.{parts_of, axes_seen, dimension_in, solver_named, solver_in, axes_in, speed_in, third_speed, speeds_in, wind_in, corner_within, from_in, to_in, values_in, state_in, fixed_named, fixed_in, edge_in, every_in};

use crate::limits::{MOST_RATE, MOST_STEPS};
use crate::solver::SolverName;
use crate::tree::{items, number, number_or, text};
use peano_keys::{Dim, State, extent};
use toml::Value;
use volume_solver::EdgeRule;

pub fn dim(found: Option<&Value>) -> Option<Dim>
    ensures { result ≡ dimension_in (seen found.entry) }
{
    let number = number(found, 2, 3)?;
    Some(if number == 2 { Dim::Two } else { Dim::Three })
}

fn solver_named(name: &str) -> Option<SolverName>
    ensures { result ≡ solver_named name.now }
{
    if name == "diffuse" {
        Some(SolverName::Diffuse)
    } else if name == "advect" {
        Some(SolverName::Advect)
    } else if name == "wave" {
        Some(SolverName::Wave)
    } else {
        None
    }
}

pub fn solver(found: Option<&Value>) -> Option<SolverName>
    ensures { result ≡ solver_in (seen found.entry) }
{
    solver_named(text(found)?)
}

// Exactly two items.
fn flat_axes<'a>(items: &'a [Value]) -> Option<(&'a Value, &'a Value, Option<&'a Value>)>
    ensures { option_map axes_seen result ≡ axes_in Dim.Two (items_view items.now) }
{
    match items {
        [x, y] => Some((x, y, None)),
        _ => None,
    }
}

// Exactly three items.
fn solid_axes<'a>(items: &'a [Value]) -> Option<(&'a Value, &'a Value, Option<&'a Value>)>
    ensures { option_map axes_seen result ≡ axes_in Dim.Three (items_view items.now) }
{
    match items {
        [x, y, z] => Some((x, y, Some(z))),
        _ => None,
    }
}

// The items of an array that has as many as there are axes.
fn axes<'a>(dim: Dim, items: &'a [Value]) -> Option<(&'a Value, &'a Value, Option<&'a Value>)>
    ensures { option_map axes_seen result ≡ axes_in dim (items_view items.now) }
{
    match dim {
        Dim::Two => flat_axes(items),
        Dim::Three => solid_axes(items),
    }
}

// A speed of at most a million in either direction.
fn speed(value: &Value) -> Option<i64>
    ensures value { result ≡ speed_in (view value.now) }
    ensures most { IfSome result (λ z. unsigned_abs z ≤ MOST_RATE) }
{
    let speed = value.as_integer()?;
    if speed.unsigned_abs() <= MOST_RATE {
        Some(speed)
    } else {
        None
    }
}

// The speed on an axis, none on an unused one.
fn third_speed(found: Option<&Value>) -> Option<i64>
    ensures value { result ≡ third_speed (seen found.entry) }
    ensures most { IfSome result (λ z. unsigned_abs z ≤ MOST_RATE) }
{
    match found {
        None => Some(0),
        Some(value) => speed(value),
    }
}

// A speed on each axis.
fn speeds(dim: Dim, items: &[Value]) -> Option<[i64; 3]>
    ensures value { result ≡ speeds_in dim (items_view items.now) }
    ensures ranges { IfSome result IsWind }
{
    let (x, y, z) = axes(dim, items)?;
    Some([speed(x)?, speed(y)?, third_speed(z)?])
}

/// The wind, none on any axis where the key is absent.
pub fn wind(dim: Dim, found: Option<&Value>) -> Option<[i64; 3]>
    ensures value { result ≡ wind_in dim (seen found.entry) }
    ensures ranges { IfSome result IsWind }
{
    if found.is_none() {
        return Some([0, 0, 0]);
    }
    speeds(dim, items(found)?)
}

// A coordinate on each axis, from its `low` to `high`, and 0 on an unused one.
fn corner(dim: Dim, low: [u32; 3], high: u32, items: &[Value]) -> Option<[u32; 3]>
    ensures value { result ≡ corner_within dim low high (items_view items.now) }
    ensures first { IfSome result (λ x. slice_index x 0 ≤ high) }
    ensures second { IfSome result (λ x. slice_index x 1 ≤ high) }
    ensures third { IfSome result (λ x. slice_index x 2 ≤ high) }
{
    let (x, y, z) = axes(dim, items)?;
    let high = u64::from(high);
    let first = number(Some(x), u64::from(low[0]), high)?;
    let second = number(Some(y), u64::from(low[1]), high)?;
    let third = number_or(0, u64::from(low[2]), high, z)?;
    Some([first as u32, second as u32, third as u32])
}

/// The low corner of a box: a cell of the level.
pub fn from(dim: Dim, level: u32, found: Option<&Value>) -> Option<[u32; 3]>
    requires { level ≤ 12 }
    ensures value { result ≡ from_in dim level (seen found.entry) }
    ensures first { IfSome result (λ x. slice_index x 0 ≤ 3 ^ level) }
    ensures second { IfSome result (λ x. slice_index x 1 ≤ 3 ^ level) }
    ensures third { IfSome result (λ x. slice_index x 2 ≤ 3 ^ level) }
{
    corner(dim, [0, 0, 0], extent(level) - 1, items(found)?)
}

/// The high corner of a box: beyond the low one on each axis, and at most the level's end.
pub fn to(dim: Dim, level: u32, from: [u32; 3], found: Option<&Value>) -> Option<[u32; 3]>
    requires level { level ≤ 12 }
    requires first { slice_index from 0 ≤ 3 ^ level }
    requires second { slice_index from 1 ≤ 3 ^ level }
    requires third { slice_index from 2 ≤ 3 ^ level }
    ensures { result ≡ to_in dim level from (seen found.entry) }
{
    let end = extent(level);
    let low = [from[0] + 1, from[1] + 1, from[2] + 1];
    corner(dim, low, end, items(found)?)
}

// As many integers as a state of the solver has values.
fn values(solver: SolverName, items: &[Value]) -> Option<State>
    ensures value { result ≡ values_in solver (items_view items.now) }
    ensures parts { IfSome result (λ s. count_of s ≡ parts_of solver) }
{
    match (solver, items) {
        (SolverName::Wave, [x, y]) => Some(State::Pair(x.as_integer()?, y.as_integer()?)),
        (SolverName::Diffuse | SolverName::Advect, [x]) => Some(State::Single(x.as_integer()?)),
        _ => None,
    }
}

/// A state of the solver.
pub fn state(solver: SolverName, found: Option<&Value>) -> Option<State>
    ensures value { result ≡ state_in solver (seen found.entry) }
    ensures parts { IfSome result (λ s. count_of s ≡ parts_of solver) }
{
    values(solver, items(found)?)
}

fn fixed_named(name: &str) -> Option<bool>
    ensures { result ≡ fixed_named name.now }
{
    if name == "copy" {
        Some(false)
    } else if name == "fixed" {
        Some(true)
    } else {
        None
    }
}

/// Whether the domain's edge is fixed, and no copy.
pub fn fixed(found: Option<&Value>) -> Option<bool>
    ensures { result ≡ fixed_in (seen found.entry) }
{
    if found.is_none() {
        return Some(false);
    }
    fixed_named(text(found)?)
}

/// The rule at the domain's edge: a fixed one has a state, and a copy has none.
pub fn edge(solver: SolverName, fixed: bool, found: Option<&Value>) -> Option<EdgeRule>
    ensures value { result ≡ edge_in solver fixed (seen found.entry) }
    ensures parts { IfSome result (EdgeHas (parts_of solver)) }
{
    if fixed {
        Some(EdgeRule::Fixed(state(solver, found)?))
    } else if found.is_none() {
        Some(EdgeRule::Copy)
    } else {
        None
    }
}

/// A number of steps from 1 on, none where the key is absent.
pub fn every(found: Option<&Value>) -> Option<Option<u32>>
    ensures { result ≡ every_in (seen found.entry) }
{
    if found.is_none() {
        return Some(None);
    }
    Some(Some(number(found, 1, MOST_STEPS)? as u32))
}
