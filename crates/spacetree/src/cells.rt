//! Sets of cells in key order.
ghost use Rattle.std.specs.Prelude.{◌≡◌, ◌↔◌, ◌+◌, ◌≤◌, IfOk, IsTrue, OnOk, OnErr};
ghost use Rattle.std.specs.FinSet as set;
ghost use Rattle.std.specs.List.Sorted.{IsStrictlySortedBy};
ghost use Rattle.peano_keys.specs.Cell.{key_cmp};
ghost use Rattle.spacetree.specs.Leaves.{ListsCells};

use peano_keys::CellKey;
use std::alloc::{AllocError, Global};
use std::collections::BTreeSet;
use std::marker::Model;

// A set of cells.
#[derive(Drop)]
pub(crate) struct CellSet {
    keys: BTreeSet<CellKey>,
}

impl Model for CellSet {
    ghost use Rattle.std.specs.FinSet as set;
    ghost use Rattle.peano_keys.specs.Cell.{coded_cell, key_cmp};
    ghost use Rattle.peano_keys.specs.Grid.{Cells};

    ghost Value = { Cells };

    ghost coded = { set.code coded_cell };

    ghost view = { λ s. set.from_list {R = key_cmp} s.keys.keys };
}

// The cells of a set, in order.
fn in_order(alloc: Global, keys: &BTreeSet<CellKey>) -> Result<Vec<CellKey>, AllocError>
    ensures value { IfOk result (λ cells. cells.items ≡ keys.now.keys) }
    ensures order { IsStrictlySortedBy key_cmp keys.now.keys }
{
    keys.iter().copied().collect(alloc)
}

impl CellSet {
    pub(crate) fn new(alloc: Global) -> CellSet
        ensures { result ≡ set.empty }
    {
        CellSet {
            keys: BTreeSet::new(alloc),
        }
    }

    pub(crate) fn contains(&self, key: &CellKey) -> bool
        ensures { result ≡ set.contains self.now key.now }
    {
        self.keys.contains(key)
    }

    pub(crate) fn len(&self) -> u64
        ensures { result ≡ set.len self.now }
    {
        self.keys.len() as u64
    }

    pub(crate) fn is_empty(&self) -> bool
        ensures { IsTrue result ↔ (self.now ≡ set.empty) }
    {
        self.len() == 0
    }

    pub(crate) fn insert(&mut self, key: CellKey) -> Result<(), AllocError>
        ensures ok { OnOk result (self.new ≡ set.insert self.old key) }
        ensures err { OnErr result (self.new ≡ self.old) }
    {
        self.keys.insert(key)?;
        Ok(())
    }

    // The cells, in key order.
    pub(crate) fn cells(&self, alloc: Global) -> Result<Vec<CellKey>, AllocError>
        ensures { IfOk result (λ cells. ListsCells self.now cells.items) }
    {
        in_order(alloc, &self.keys)
    }

    // The set again.
    pub(crate) fn copied(&self) -> Result<CellSet, AllocError>
        ensures { IfOk result (λ copy. copy ≡ self.now) }
    {
        let keys = self.keys.clone()?;
        Ok(CellSet { keys })
    }
}
