//! The plan that a file means.
ghost use Rattle.std.specs.Prelude.{◌≡◌, IfOk};
ghost use Rattle.toml.specs.View.{table_view};
ghost use Rattle.grid_file.specs.Faults.{Reads, Gives};
ghost use Rattle.grid_file.specs.Plan.{plan_of, plan_in};
ghost use Rattle.grid_file.specs.Stages.{first_fault};
ghost use Rattle.grid_file.specs.Valid.{IsPlan};

use crate::body::read_body;
use crate::fault::{PlanFault, refused};
use crate::head::read_head;
use crate::passes::{Pass, found_in_tables};
use crate::place::{KeyName, Part};
use crate::plan::Plan;
use crate::tree::tree;
use std::alloc::Global;
use toml::Table;

// The plan of a document.
fn plan_in(alloc: Global, document: &Table) -> Result<Plan, PlanFault>
    ensures { Gives result (first_fault (table_view document.now))
        (plan_in (table_view document.now)) }
{
    if let Some(fault) = found_in_tables(Pass::Unlisted, document) {
        return Err(PlanFault::Malformed(fault));
    }
    if let Some(fault) = found_in_tables(Pass::Missing, document) {
        return Err(PlanFault::Malformed(fault));
    }
    let head = read_head(document)?;
    read_body(alloc, head, document)
}

/// The plan of a file, within its ranges, or the least code that applies to its bytes and in it the first place.
/// Nothing but want of memory stands beside these.
pub fn read_plan(alloc: Global, text: &[u8]) -> Result<Plan, PlanFault>
    ensures value { Reads result (plan_of text.now) }
    ensures valid { IfOk result IsPlan }
{
    match tree(alloc, text)? {
        None => Err(refused(1, Part::Document, 0, KeyName::Whole)),
        Some(document) => plan_in(alloc, &document),
    }
}
