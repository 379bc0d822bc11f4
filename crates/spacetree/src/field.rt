//! Fields: maps from leaves to states.
ghost use Rattle.std.specs.Prelude.{◌≡◌, ◌≤◌, ℕ, length, map, OnOk, OnErr, IfOk, IfSome, SomeIff, All};
ghost use Rattle.std.specs.FinMap as fin;
ghost use Rattle.std.specs.List.{zip};
ghost use Rattle.std.specs.List.Sorted.{IsStrictlySortedBy};
ghost use Rattle.peano_keys.specs.Cell.{key_cmp};
ghost use Rattle.peano_keys.specs.State.{count_of};
ghost use Rattle.peano_keys.specs.Grid.{IsGrid};
ghost use Rattle.peano_keys.specs.Field.{value_of};
ghost use Rattle.spacetree.specs.Leaves.{IsCellOf};
ghost use Rattle.spacetree.specs.Fields.{rows_of, row_of, IsFieldOn, IsMadeAgain};
ghost use Rattle.spacetree.specs.Opening.{OpensField, IsFill};

use crate::grid::Grid;
use crate::means::value;
use crate::opening::opening_state;
use crate::row::Row;
use crate::shape::Fill;
use peano_keys::{CellKey, State};
use std::alloc::{AllocError, Global};
use std::collections::BTreeMap;
use std::marker::Model;

/// A field: each leaf of a grid has a state.
#[derive(Drop)]
pub struct Field {
    states: BTreeMap<CellKey, State>,
}

impl Model for Field {
    ghost use Rattle.std.specs.FinMap as map;
    ghost use Rattle.peano_keys.specs.Cell.{coded_cell, key_cmp};
    ghost use Rattle.peano_keys.specs.Field.{States};
    ghost use Rattle.peano_keys.specs.contracts.state.State as state;

    ghost Value = { States };

    ghost coded = { map.code coded_cell state.the_row.coded };

    ghost view = { λ f. map.from_entries {R = key_cmp} f.states.entries };
}

// The rows of a map, in order.
fn rows_in(alloc: Global, states: &BTreeMap<CellKey, State>) -> Result<Vec<Row>, AllocError>
    ensures value { IfOk result (λ rows. rows.items ≡ map row_of states.now.entries) }
    ensures order { IsStrictlySortedBy key_cmp (map (λ e. e.0) states.now.entries) }
{
    states
        .iter()
        .map(|(key, value)| Row {
            key: *key,
            value: *value,
        })
        .collect(alloc)
}

impl Field {
    // The field of no leaf.
    pub(crate) fn empty(alloc: Global) -> Field
        ensures { result ≡ fin.empty }
    {
        Field {
            states: BTreeMap::new(alloc),
        }
    }

    /// The opening field of a grid: each leaf has the value of the last fill in which it lies, or `parts` zeros.
    pub fn opening(
        alloc: Global,
        grid: &Grid,
        fills: &[Fill],
        parts: u32,
    ) -> Result<Field, AllocError>
        requires least { 1 ≤ parts }
        requires most { parts ≤ 4 }
        requires fills { All (IsFill parts) fills.now }
        ensures opening { IfOk result (λ field. OpensField grid.now fills.now parts field) }
        ensures field { IfOk result (λ field. IsFieldOn parts grid.now field) }
    {
        let dim = grid.dim();
        let leaves = grid.leaves(alloc)?;
        let mut field = Field::empty(alloc);
        for leaf in leaves.as_slice() {
            field.set(*leaf, opening_state(dim, fills, parts, leaf))?;
        }
        Ok(field)
    }

    /// The field that gives each of some leaves, in key order, the state at its place in the list of states.
    pub fn of_states(alloc: Global, keys: &[CellKey], states: &[State]) -> Result<Field, AllocError>
        requires lengths { length keys.now ≡ length states.now }
        requires order { IsStrictlySortedBy key_cmp keys.now }
        ensures entries { IfOk result (λ field. fin.entries field ≡ zip keys.now states.now) }

        // So a field is made again from its keys and its states.
        ensures same { IfOk result (λ field. IsMadeAgain keys.now states.now field) }
    {
        let mut field = Field::empty(alloc);
        for (key, state) in keys.iter().zip(states) {
            field.set(*key, *state)?;
        }
        Ok(field)
    }

    /// The state of a leaf, none where the key is no leaf of the field.
    pub fn get(&self, key: &CellKey) -> Option<State>
        ensures { result ≡ fin.get self.now key.now }
    {
        self.states.get(key).copied()
    }

    /// The value of a cell of the grid that the field is on: the state of a leaf, and of a refined cell the mean of each
    /// component over the leaves below it, rounded down. None exactly where the key is no cell of the grid.
    pub fn value_of(&self, grid: &Grid, key: &CellKey) -> Option<State>
        requires { (parts : ℕ) × IsFieldOn parts grid.now self.now }
        ensures value { SomeIff result (IsCellOf grid.now key.now)
            (value_of grid.now self.now key.now) }

        // It has as many values as the states of the field.
        ensures parts { (parts : ℕ) → IsGrid 12 grid.now → IsFieldOn parts grid.now self.now
            → IfSome result (λ s. count_of s ≡ parts) }
    {
        if !grid.is_cell(key) {
            return None;
        }
        Some(value(grid, self, *key))
    }

    /// How many leaves there are.
    pub fn len(&self) -> u64
        ensures { result ≡ fin.len self.now }
    {
        self.states.len() as u64
    }

    /// The rows, in key order.
    pub fn rows(&self, alloc: Global) -> Result<Vec<Row>, AllocError>
        ensures { IfOk result (λ rows. rows.items ≡ rows_of self.now) }
    {
        rows_in(alloc, &self.states)
    }

    // Sets the state of a leaf.
    pub(crate) fn set(&mut self, key: CellKey, value: State) -> Result<(), AllocError>
        ensures ok { OnOk result (self.new ≡ fin.insert self.old key value) }
        ensures err { OnErr result (self.new ≡ self.old) }
    {
        self.states.insert(key, value)?;
        Ok(())
    }
}
