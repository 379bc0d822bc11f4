//! The field block of a printed step.
ghost use Rattle.std.specs.Prelude.{◌≡◌, ◌++◌, ◌∷◌, [], IfOk, OnOk, string_bytes};
ghost use Rattle.std.specs.List.{flat_map};
ghost use Rattle.peano_keys.specs.State.{values_of};
ghost use Rattle.field_report.specs.Block.{key_text, spaced_value, row_line, head_line, field_block};

use peano_keys::{CellKey, Dim, State};
use spacetree::Row;
use std::alloc::{AllocError, Global};

// Appends a cell: its level, then a coordinate for each axis.
fn push_key(text: &mut String, dim: Dim, key: &CellKey) -> Result<(), AllocError>
    ensures { OnOk result (string_bytes text.new ≡ string_bytes text.old ++ key_text dim key.now) }
{
    let level = key.level;
    let [x, y, z] = key.x;
    match dim {
        Dim::Two => write!(text, "{level} {x} {y}"),
        Dim::Three => write!(text, "{level} {x} {y} {z}"),
    }
}

// Appends a value after a space.
fn push_value(text: &mut String, value: i64) -> Result<(), AllocError>
    ensures { OnOk result (string_bytes text.new ≡ string_bytes text.old ++ spaced_value value) }
{
    write!(text, " {value}")
}

// Appends the values of a state.
fn push_values(text: &mut String, state: &State) -> Result<(), AllocError>
    ensures { OnOk result
        (string_bytes text.new
        ≡ string_bytes text.old ++ flat_map spaced_value (values_of state.now)) }
{
    for i in 0..state.count() {
        push_value(text, state.get(i))?;
    }
    Ok(())
}

// Appends the line of a leaf.
fn push_row(text: &mut String, dim: Dim, row: &Row) -> Result<(), AllocError>
    ensures { OnOk result (string_bytes text.new ≡ string_bytes text.old ++ row_line dim row.now) }
{
    push_key(text, dim, &row.key)?;
    push_values(text, &row.value)?;
    text.push('\n')
}

// Appends the head line.
fn push_head(text: &mut String, step: u32, leaves: usize) -> Result<(), AllocError>
    ensures { OnOk result (string_bytes text.new ≡ string_bytes text.old ++ head_line step leaves) }
{
    writeln!(text, "step {step} leaves {leaves}")
}

/// The field block of a step: a head line, then a line for each row, in order.
pub fn field_text(alloc: Global, dim: Dim, step: u32, rows: &[Row]) -> Result<Vec<u8>, AllocError>
    ensures { IfOk result (λ text. text.items ≡ field_block dim step rows.now) }
{
    let mut text = String::new(alloc);
    push_head(&mut text, step, rows.len())?;
    for row in rows {
        push_row(&mut text, dim, row)?;
    }
    Ok(text.into_bytes())
}
