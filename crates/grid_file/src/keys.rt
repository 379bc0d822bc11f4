//! Keys of tables: what stands at one, which are listed for a part, and which it needs.
ghost use Rattle.std.specs.Prelude.{◌≡◌, option_map};
ghost use Rattle.toml.specs.Data.{get_member};
ghost use Rattle.toml.specs.View.{view, table_view};
ghost use Rattle.grid_file.specs.Keys.{at_key, document_keys, listed_keys, needed_keys, is_among, has_only};

use crate::place::{KeyName, Part, spelled};
use crate::version::{Version, version_of};
use toml::{Table, Value};

// What stands at a text.
fn entry<'a>(table: &'a Table, text: &str) -> Option<&'a Value>
    ensures { option_map (λ v. view v.now) result ≡ get_member text.now (table_view table.now) }
{
    table.get(text)
}

/// What stands at a key of a table.
pub fn at<'a>(table: &'a Table, key: KeyName) -> Option<&'a Value>
    ensures { option_map (λ v. view v.now) result ≡ at_key key (table_view table.now) }
{
    entry(table, spelled(key))
}

// The keys that a document may have, the last of them in the second version alone.
const DOCUMENT: [KeyName; 16] = [
    KeyName::Dim,
    KeyName::Depth,
    KeyName::Base,
    KeyName::Solver,
    KeyName::Version,
    KeyName::A,
    KeyName::B,
    KeyName::Wind,
    KeyName::Criterion,
    KeyName::Fill,
    KeyName::Refine,
    KeyName::Edge,
    KeyName::EdgeValue,
    KeyName::Steps,
    KeyName::PrintEvery,
    KeyName::RecutEvery,
];

// The keys that a document of a version may have.
fn in_document(version: Version) -> &'static [KeyName]
    ensures { result.now ≡ document_keys version }
{
    match version {
        Version::First => &DOCUMENT[..15],
        Version::Second => &DOCUMENT,
    }
}

// The keys that a table may have.
fn listed(part: Part, table: &Table) -> &'static [KeyName]
    ensures { result.now ≡ listed_keys part (table_view table.now) }
{
    match part {
        Part::Document => in_document(version_of(table)),
        Part::Criterion => &[KeyName::Hi, KeyName::Lo, KeyName::Watch],
        Part::Fill => &[KeyName::Level, KeyName::From, KeyName::To, KeyName::Value],
        Part::Refine => &[KeyName::Level, KeyName::From, KeyName::To, KeyName::Until],
        Part::FillList | Part::RefineList => &[],
    }
}

/// The keys that a table needs.
pub fn needed(part: Part) -> &'static [KeyName]
    ensures { result.now ≡ needed_keys part }
{
    match part {
        Part::Document => &[
            KeyName::Dim,
            KeyName::Depth,
            KeyName::Base,
            KeyName::Solver,
            KeyName::B,
            KeyName::Steps,
        ],
        Part::Criterion => &[KeyName::Hi, KeyName::Lo],
        Part::Fill => &[KeyName::Level, KeyName::From, KeyName::To, KeyName::Value],
        Part::Refine => &[KeyName::Level, KeyName::From, KeyName::To, KeyName::Until],
        Part::FillList | Part::RefineList => &[],
    }
}

// Whether a text is one of these keys.
#[tactic(auto, unfolding(crate::specs::Keys::is_among))]
fn is_among(keys: &[KeyName], text: &str) -> bool
    ensures { result ≡ is_among keys.now text.now }
{
    for key in keys {
        if spelled(*key) == text {
            return true;
        }
    }
    false
}

/// Whether a table has no other keys than those that are listed for its part.
pub fn has_only_listed(part: Part, table: &Table) -> bool
    ensures { result ≡ has_only (listed_keys part (table_view table.now)) (table_view table.now) }
{
    let listed = listed(part, table);
    table.keys().all(|key| is_among(listed, key.as_str()))
}
