//! Keys that are not listed for their table, and needed keys that are missing.
ghost use Rattle.std.specs.Prelude.{◌≡◌, ◌≤◌, length, option_map};
ghost use Rattle.toml.specs.View.{table_view, items_view};
ghost use Rattle.grid_file.specs.Tree.{seen};
ghost use Rattle.grid_file.specs.Faults.{first};
ghost use Rattle.grid_file.specs.Keys.{listed, missing_among, in_table, in_each, in_tables};
ghost use Rattle.grid_file.specs.Stages.{code_of, checks_of};

use crate::fault::Malformed;
use crate::keys::{at, has_only_listed, needed};
use crate::limits::MOST_TABLES;
use crate::place::{KeyName, Part};
use crate::tree::{list, table};
use toml::{Table, Value};

/// What is looked for in each table, before any value is looked at.
#[derive(Clone, Copy)]
pub enum Pass {
    Unlisted,
    Missing,
}

// The first of some keys that a table lacks.
fn missing_among(keys: &[KeyName], part: Part, index: u32, table: &Table) -> Option<Malformed>
    ensures { result ≡ first 3 (missing_among keys.now part index (table_view table.now)) }
{
    for key in keys {
        if at(table, *key).is_none() {
            return Some(Malformed::at(3, part, index, *key));
        }
    }
    None
}

// What a pass finds in a table.
fn found_in(pass: Pass, part: Part, index: u32, table: &Table) -> Option<Malformed>
    ensures { result ≡ first (code_of pass) (checks_of pass part index (table_view table.now)) }
{
    match pass {
        Pass::Missing => missing_among(needed(part), part, index, table),
        Pass::Unlisted => {
            if has_only_listed(part, table) {
                return None;
            }
            Some(Malformed::at(2, part, index, KeyName::Whole))
        }
    }
}

// What a pass finds where there may be a table.
fn found_at(pass: Pass, part: Part, index: u32, table: Option<&Table>) -> Option<Malformed>
    ensures { result
        ≡ first (code_of pass)
        (in_table (checks_of pass part) index
        (option_map (λ t. table_view t.now) table.entry)) }
{
    found_in(pass, part, index, table?)
}

// What a pass finds first in the tables of a list.
#[tactic(auto, using(crate::proofs::Searches::first_append))]
fn found_in_each(pass: Pass, part: Part, items: &[Value]) -> Option<Malformed>
    requires { length items.now ≤ MOST_TABLES }
    ensures { result
        ≡ first (code_of pass) (in_each (checks_of pass part) 0 (items_view items.now)) }
{
    for (index, item) in items.iter().enumerate() {
        if let Some(fault) = found_at(pass, part, index as u32, item.as_table()) {
            return Some(fault);
        }
    }
    None
}

// The tables of a list, none where the list is not of its form.
fn listed<'a>(found: Option<&'a Value>) -> &'a [Value]
    ensures value { items_view result.now ≡ listed (seen found.entry) }
    ensures few { length result.now ≤ MOST_TABLES }
{
    match list(found) {
        None => &[],
        Some(items) => items,
    }
}

/// What a pass finds first in the tables of a file.
#[tactic(auto, using(crate::proofs::Searches::first_append))]
pub fn found_in_tables(pass: Pass, document: &Table) -> Option<Malformed>
    ensures { result ≡ first (code_of pass) (in_tables (checks_of pass) (table_view document.now)) }
{
    let found = found_in(pass, Part::Document, 0, document);
    if found.is_some() {
        return found;
    }
    let criterion = table(at(document, KeyName::Criterion));
    let found = found_at(pass, Part::Criterion, 0, criterion);
    if found.is_some() {
        return found;
    }
    let found = found_in_each(pass, Part::Fill, listed(at(document, KeyName::Fill)));
    if found.is_some() {
        return found;
    }
    found_in_each(pass, Part::Refine, listed(at(document, KeyName::Refine)))
}
