//! The two lists of a file: fills, and boxes to refine.
ghost use Rattle.std.specs.Prelude.{ℕ, List, ◌≤◌, length};
ghost use Rattle.toml.specs.Data.{Members};
ghost use Rattle.toml.specs.View.{table_view, items_view};
ghost use Rattle.grid_file.specs.declared.head.Head.{Head};
ghost use Rattle.grid_file.specs.declared.place.Part.{Part};
ghost use Rattle.grid_file.specs.declared.place.Part.TheVariants.{FillList, RefineList};
ghost use Rattle.grid_file.specs.Tree.{seen};
ghost use Rattle.grid_file.specs.Faults.{Check, Gives, first};
ghost use Rattle.grid_file.specs.Keys.{listed, in_each};
ghost use Rattle.grid_file.specs.Boxes.{read_each, list_checks, box_checks, box_of, fill_checks, fill_from, zone_checks, zone_from};

use crate::fault::{PlanFault, refused};
use crate::head::Head;
use crate::keys::at;
use crate::limits::{DEEPEST, MOST_TABLES};
use crate::place::{KeyName, Part};
use crate::tree::{list, number};
use crate::values::{from, state, to};
use spacetree::{Fill, Listed, Zone};
use std::alloc::Global;
use toml::{Table, Value};

/// A box of cells of one level.
#[derive(Clone, Copy)]
pub struct CellBox {
    pub level: u32,
    pub from: [u32; 3],
    pub to: [u32; 3],
}

// The box of a fill, or of a box to refine.
fn cell_box(
    code: u8,
    part: Part,
    head: Head,
    index: u32,
    table: &Table,
) -> Result<CellBox, PlanFault>
    requires { head.depth ≤ DEEPEST }
    ensures { Gives result
        (first code (box_checks head.dim head.depth part index (table_view table.now)))
        (box_of head.dim head.depth (table_view table.now)) }
{
    let most = u64::from(head.depth);
    let level = number(at(table, KeyName::Level), 0, most).ok_or(refused(
        code,
        part,
        index,
        KeyName::Level,
    ))? as u32;
    let from = from(head.dim, level, at(table, KeyName::From)).ok_or(refused(
        code,
        part,
        index,
        KeyName::From,
    ))?;
    let to = to(head.dim, level, from, at(table, KeyName::To)).ok_or(refused(
        code,
        part,
        index,
        KeyName::To,
    ))?;
    Ok(CellBox { level, from, to })
}

/// What a table of one of the two lists says.
pub trait Row: Drop {
    // With which code the list and its tables are refused, and the place of the list as a whole.
    ghost CODE: { ℕ };

    ghost LIST: { Part };

    // What is checked in a table, by its number, and what it says.
    ghost checks: { Head → ℕ → Members → List Check };

    ghost says: { Head → Members → Self };

    const CODE: u8;

    const LIST: Part;

    /// Reads the table of a number.
    fn read(head: Head, index: u32, table: &Table) -> Result<Self, PlanFault>
        requires { head.depth ≤ DEEPEST }
        ensures { Gives result (first CODE (checks head index (table_view table.now)))
            (says head (table_view table.now)) };
}

impl Row for Fill {
    ghost CODE = { 10 };

    ghost LIST = { FillList };

    ghost checks = { λ h. fill_checks h.dim h.depth h.solver };

    ghost says = { λ h. fill_from h.dim h.depth h.solver };

    const CODE: u8 = 10;

    const LIST: Part = Part::FillList;

    fn read(head: Head, index: u32, table: &Table) -> Result<Fill, PlanFault> {
        let CellBox { level, from, to } = cell_box(10, Part::Fill, head, index, table)?;
        let value = state(head.solver, at(table, KeyName::Value)).ok_or(refused(
            10,
            Part::Fill,
            index,
            KeyName::Value,
        ))?;
        Ok(Fill {
            level,
            from,
            to,
            value,
        })
    }
}

impl Row for Zone {
    ghost CODE = { 11 };

    ghost LIST = { RefineList };

    ghost checks = { λ h. zone_checks h.dim h.depth };

    ghost says = { λ h. zone_from h.dim h.depth };

    const CODE: u8 = 11;

    const LIST: Part = Part::RefineList;

    fn read(head: Head, index: u32, table: &Table) -> Result<Zone, PlanFault> {
        let CellBox { level, from, to } = cell_box(11, Part::Refine, head, index, table)?;
        let most = u64::from(head.depth);
        let until = number(at(table, KeyName::Until), 1, most).ok_or(refused(
            11,
            Part::Refine,
            index,
            KeyName::Until,
        ))?;
        Ok(Zone {
            level,
            from,
            to,
            until: until as u32,
        })
    }
}

// What the tables of a list say.
#[tactic(auto, using(crate::proofs::Searches::first_append))]
fn rows_in<R: Row>(alloc: Global, head: Head, items: &[Value]) -> Result<Listed<R>, PlanFault>
    requires depth { head.depth ≤ DEEPEST }
    requires few { length items.now ≤ MOST_TABLES }
    ensures { Gives result (first R.CODE (in_each (R.checks head) 0 (items_view items.now)))
        (read_each (R.says head) (items_view items.now)) }
{
    let mut rows = Vec::new(alloc);
    for (index, item) in items.iter().enumerate() {
        let Some(table) = item.as_table() else {
            continue;
        };
        rows.push(R::read(head, index as u32, table)?)?;
    }
    Ok(Listed::new(rows))
}

/// What a list of a file says: its fills, or its boxes to refine.
pub fn rows<R: Row>(
    alloc: Global,
    head: Head,
    found: Option<&Value>,
) -> Result<Listed<R>, PlanFault>
    requires { head.depth ≤ DEEPEST }
    ensures { Gives result
        (first R.CODE (list_checks R.LIST (R.checks head) (seen found.entry)))
        (read_each (R.says head) (listed (seen found.entry))) }
{
    match list(found) {
        None => Err(refused(R::CODE, R::LIST, 0, KeyName::Whole)),
        Some(items) => rows_in(alloc, head, items),
    }
}
