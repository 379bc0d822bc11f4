//! The version of a file, and what depends on it.
ghost use Rattle.std.specs.Prelude.{◌≡◌, ◌≤◌};
ghost use Rattle.toml.specs.View.{table_view};
ghost use Rattle.grid_file.specs.Keys.{version_of};
ghost use Rattle.grid_file.specs.Head.{deepest_of};

use crate::keys::at;
use crate::limits::{DEEPEST, DEEPEST_OF_FIRST};
use crate::place::KeyName;
use crate::tree::number;
use toml::Table;

/// The version by which a file is read.
#[derive(Clone, Copy, Debug, PartialEq, Eq)]
pub enum Version {
    First,
    Second,
}

/// The version of a document: the second where its key `version` says so, else the first.
pub fn version_of(document: &Table) -> Version
    ensures { result ≡ version_of (table_view document.now) }
{
    match number(at(document, KeyName::Version), 2, 2) {
        None => Version::First,
        Some(_) => Version::Second,
    }
}

/// The deepest level that a file of a version may ask for.
pub fn deepest_of(version: Version) -> u64
    ensures value { result ≡ deepest_of version }
    ensures most { result ≤ DEEPEST }
{
    match version {
        Version::First => DEEPEST_OF_FIRST,
        Version::Second => DEEPEST,
    }
}
