//! What stands in a document: its tree, numbers in a range, texts, tables and lists.
ghost use Rattle.std.specs.Prelude.{◌≡◌, ◌≤◌, IfOk, IfSome, length, option_map, option_copied};
ghost use Rattle.toml.specs.View.{view, table_view, items_view};
ghost use Rattle.grid_file.specs.Tree.{tree_of, seen, whole_in, number_in, number_or, items_at, string_at, table_at, are_tables, tables_within, list_in};

use crate::limits::MOST_TABLES;
use std::alloc::{AllocError, Global};
use toml::{Table, Value};

// The tree of the bytes, none where they are no document.
pub fn tree(alloc: Global, text: &[u8]) -> Result<Option<Table>, AllocError>
    ensures { IfOk result (λ tree. option_map table_view tree ≡ tree_of text.now) }
{
    match toml::table_from_slice(alloc, text) {
        Ok(table) => Ok(Some(table)),
        Err(fault) => {
            if fault.is_memory() {
                Err(AllocError)
            } else {
                Ok(None)
            }
        }
    }
}

// The number itself where it is a whole one in a range.
fn whole(z: i64, low: u64, high: u64) -> Option<u64>
    ensures value { result ≡ whole_in low high z }
    ensures least { IfSome result (λ n. low ≤ n) }
    ensures most { IfSome result (λ n. n ≤ high) }
{
    let n = u64::try_from(z).ok()?;
    if low <= n && n <= high { Some(n) } else { None }
}

// An integer in a range.
pub fn number(found: Option<&Value>, low: u64, high: u64) -> Option<u64>
    ensures value { result ≡ number_in low high (seen found.entry) }
    ensures least { IfSome result (λ n. low ≤ n) }
    ensures most { IfSome result (λ n. n ≤ high) }
{
    match found {
        None => None,
        Some(value) => match value.as_integer() {
            None => None,
            Some(z) => whole(z, low, high),
        },
    }
}

// The items, where what stands there is an array.
pub fn items<'a>(found: Option<&'a Value>) -> Option<&'a [Value]>
    ensures { option_map (λ s. items_view s.now) result ≡ items_at (seen found.entry) }
{
    match found?.as_array() {
        None => None,
        Some(items) => Some(items.as_slice()),
    }
}

// The text, where what stands there is one.
pub fn text<'a>(found: Option<&'a Value>) -> Option<&'a str>
    ensures { option_copied result ≡ string_at (seen found.entry) }
{
    found?.as_str()
}

// The table, where what stands there is one.
pub fn table<'a>(found: Option<&'a Value>) -> Option<&'a Table>
    ensures { option_map (λ t. table_view t.now) result ≡ table_at (seen found.entry) }
{
    found?.as_table()
}

// An integer in a range, or another number where the key is absent.
pub fn number_or(default: u64, low: u64, high: u64, found: Option<&Value>) -> Option<u64>
    requires { default ≤ high }
    ensures value { result ≡ number_or default low high (seen found.entry) }
    ensures most { IfSome result (λ n. n ≤ high) }
{
    match found {
        None => Some(default),
        Some(_) => number(found, low, high),
    }
}

// Whether each item is a table.
fn are_tables(items: &[Value]) -> bool
    ensures { result ≡ are_tables (items_view items.now) }
{
    for item in items {
        if item.as_table().is_none() {
            return false;
        }
    }
    true
}

// At most a thousand items, each a table.
fn tables_within<'a>(items: &'a [Value]) -> Option<&'a [Value]>
    ensures value { option_map (λ s. items_view s.now) result
        ≡ tables_within (items_view items.now) }
    ensures few { IfSome result (λ s. length s.now ≤ MOST_TABLES) }
{
    if items.len() > MOST_TABLES {
        return None;
    }
    if !are_tables(items) {
        return None;
    }
    Some(items)
}

// The items of a list: none where it is absent, else at most a thousand tables.
pub fn list<'a>(found: Option<&'a Value>) -> Option<&'a [Value]>
    ensures value { option_map (λ s. items_view s.now) result ≡ list_in (seen found.entry) }
    ensures few { IfSome result (λ s. length s.now ≤ MOST_TABLES) }
{
    if found.is_none() {
        return Some(&[]);
    }
    tables_within(items(found)?)
}
