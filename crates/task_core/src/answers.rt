//! The answers of kernels, by leaf.
ghost use Rattle.std.specs.Prelude.{◌≡◌, OnOk, OnErr};
ghost use Rattle.std.specs.FinMap as fin;

use peano_keys::{CellKey, State};
use std::alloc::{AllocError, Global};
use std::collections::BTreeMap;
use std::marker::Model;

// The answers so far. An answer is none where a new value leaves its range.
#[derive(Drop)]
pub(crate) struct AnswerMap {
    found: BTreeMap<CellKey, Option<State>>,
}

impl Model for AnswerMap {
    ghost use Rattle.std.specs.FinMap as map;
    ghost use Rattle.std.specs.Coded.{coded_option};
    ghost use Rattle.peano_keys.specs.Cell.{coded_cell, key_cmp};
    ghost use Rattle.peano_keys.specs.contracts.state.State as state;
    ghost use Rattle.task_core.specs.Core.{Answers};

    ghost Value = { Answers };

    ghost coded = { map.code coded_cell (coded_option state.the_row.coded) };

    ghost view = { λ a. map.from_entries {R = key_cmp} a.found.entries };
}

impl AnswerMap {
    // No answers.
    pub(crate) fn empty(alloc: Global) -> AnswerMap
        ensures { result ≡ fin.empty }
    {
        AnswerMap {
            found: BTreeMap::new(alloc),
        }
    }

    // The answer on a leaf, none where there is none yet.
    pub(crate) fn get(&self, key: &CellKey) -> Option<Option<State>>
        ensures { result ≡ fin.get self.now key.now }
    {
        self.found.get(key).copied()
    }

    // Sets the answer on a leaf.
    pub(crate) fn put(&mut self, key: CellKey, answer: Option<State>) -> Result<(), AllocError>
        ensures ok { OnOk result (self.new ≡ fin.insert self.old key answer) }
        ensures err { OnErr result (self.new ≡ self.old) }
    {
        self.found.insert(key, answer)?;
        Ok(())
    }
}
