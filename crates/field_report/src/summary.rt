//! The summary of a demonstration.
ghost use Rattle.std.specs.Prelude.{◌≡◌, ◌<◌, ◌++◌, [], ◌∷◌, int_lt, length, IfOk, OnOk, string_bytes};
ghost use Rattle.std.specs.List.{flat_map};
ghost use Rattle.peano_keys.specs.State.{value_at};
ghost use Rattle.field_report.specs.Summary.{IsLow, IsHigh, IsSummary, count_level, level_line, demo_lines, count_lines, range_lines};

use peano_keys::State;
use spacetree::Row;
use std::alloc::{AllocError, Global};

// The levels of a demonstration.
const LEVELS: [u32; 6] = [0, 1, 2, 3, 4, 5];

// Whether the first value of a state is below another one's.
fn is_below(one: &State, other: &State) -> bool
    ensures { result ≡ int_lt (value_at one.now 0) (value_at other.now 0) }
{
    one.get(0) < other.get(0)
}

// The state of a leaf whose first value is the least.
fn lowest(rows: &[Row]) -> State
    requires { 0 < length rows.now }
    ensures { IsLow rows.now (value_at result 0) }
{
    let mut low = rows[0].value;
    for row in rows {
        if is_below(&row.value, &low) {
            low = row.value;
        }
    }
    low
}

// The state of a leaf whose first value is the greatest.
fn highest(rows: &[Row]) -> State
    requires { 0 < length rows.now }
    ensures { IsHigh rows.now (value_at result 0) }
{
    let mut high = rows[0].value;
    for row in rows {
        high = if is_below(&row.value, &high) {
            high
        } else {
            row.value
        };
    }
    high
}

// How many leaves are of a level.
fn leaves_of(rows: &[Row], level: u32) -> usize
    ensures { result ≡ count_level rows.now level }
{
    rows.iter().filter(|row| row.key.level == level).count()
}

// Appends the line of a level.
fn push_level(text: &mut String, rows: &[Row], level: u32) -> Result<(), AllocError>
    ensures { OnOk result
        (string_bytes text.new ≡ string_bytes text.old ++ level_line rows.now level) }
{
    let leaves = leaves_of(rows, level);
    writeln!(text, "level {level} leaves {leaves}")
}

// Appends the lines of all levels.
fn push_levels(text: &mut String, rows: &[Row]) -> Result<(), AllocError>
    ensures { OnOk result
        (string_bytes text.new
        ≡ string_bytes text.old
        ++ flat_map (level_line rows.now) (0 ∷ 1 ∷ 2 ∷ 3 ∷ 4 ∷ 5 ∷ [])) }
{
    for level in LEVELS {
        push_level(text, rows, level)?;
    }
    Ok(())
}

// Appends the lines of the demonstration's number and its steps.
fn push_demo(text: &mut String, n: u64) -> Result<(), AllocError>
    ensures { OnOk result (string_bytes text.new ≡ string_bytes text.old ++ demo_lines n) }
{
    writeln!(text, "demo {n}\nsteps 20")
}

// Appends the lines of counts.
fn push_counts(text: &mut String, cells: u64, leaves: usize) -> Result<(), AllocError>
    ensures { OnOk result
        (string_bytes text.new ≡ string_bytes text.old ++ count_lines cells leaves) }
{
    writeln!(text, "cells {cells}\nleaves {leaves}")
}

// Appends the lines of the least and the greatest value.
fn push_range(text: &mut String, low: i64, high: i64) -> Result<(), AllocError>
    ensures { OnOk result (string_bytes text.new ≡ string_bytes text.old ++ range_lines low high) }
{
    writeln!(text, "low {low}\nhigh {high}")
}

/// The summary of demonstration `n`: how many cells and leaves the last grid has, the least and the greatest first value
/// of a leaf, and how many leaves each level has. The rows are those of the last step; there is one at least.
pub fn summary_text(alloc: Global, n: u64, rows: &[Row], cells: u64) -> Result<Vec<u8>, AllocError>
    requires { 0 < length rows.now }
    ensures { IfOk result (λ text. IsSummary n cells rows.now text.items) }
{
    let mut text = String::new(alloc);
    push_demo(&mut text, n)?;
    push_counts(&mut text, cells, rows.len())?;
    push_range(&mut text, lowest(rows).get(0), highest(rows).get(0))?;
    push_levels(&mut text, rows)?;
    Ok(text.into_bytes())
}
