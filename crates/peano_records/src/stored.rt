//! The record of a stored vertex: its key, and a slot for each adjacent position.
ghost use Rattle.std.specs.Prelude.{◌≡◌, ◌<◌, length};
ghost use Rattle.peano_keys.specs.Vertex.{IsVertex};
ghost use Rattle.peano_keys.specs.Dim.{corners};
ghost use Rattle.peano_records.specs.Slots.{slot_at, with_slot, fresh_slot, fresh, untold};
ghost use Rattle.peano_records.specs.Columns.{record_of};
ghost use Rattle.peano_records.specs.Tells.{slot_tells};

use crate::columns::{FourSlots, More, Near};
use crate::slot::{Slot, Status};
use peano_keys::{Dim, State, VertexKey, adjacent};
use std::marker::Model;
use std::mem::size_of;

/// The record of a stored vertex. It is moved from list to list and never copied. Contracts see its key and its eight
/// slots; in two dimensions the last four are not in use.
#[derive(Drop)]
pub struct Stored {
    near: Near,
    far: FourSlots,
    more: More,
}

impl Model for Stored {
    ghost use Rattle.peano_records.specs.Columns.{record_of};
    ghost use Rattle.peano_records.specs.Slots.{VertexRecord};

    ghost Value = { VertexRecord };

    ghost view = { λ s. record_of s.near s.far s.more };
}

// A record is moved at each visit of its vertex, so it stays small.
const _: () = prove!(size_of::<Stored>() <= 600);

/// A copy of a vertex record as plain data, which one tree hands to another.
#[derive(Clone, Copy, Debug, PartialEq, Eq)]
pub struct Parcel {
    pub key: VertexKey,
    pub slots: [Slot; 8],
}

// How many adjacent positions a vertex has.
fn position_count(dim: Dim) -> u32
    ensures { result ≡ corners dim }
{
    match dim {
        Dim::Two => 4,
        Dim::Three => 8,
    }
}

// Slot `n` of a new record.
fn opening_slot(dim: Dim, key: VertexKey, n: u32) -> Slot
    requires vertex { IsVertex dim key }
    requires slot { n < 8 }
    ensures { result ≡ fresh_slot dim key n }
{
    if n < position_count(dim) && adjacent(dim, key, n).is_none() {
        Slot::blank(Status::Outside)
    } else {
        Slot::blank(Status::Unset)
    }
}

impl Stored {
    /// The record of the vertex of level 0 at the origin, of whose slots nothing is known: a place to take a record into.
    pub fn blank() -> Stored
        ensures { result ≡ untold }
    {
        Stored {
            near: Near::blank(),
            far: FourSlots::blank(),
            more: More::blank(),
        }
    }

    /// The record of a vertex of which nothing is known yet but which positions lie outside the domain.
    pub fn new(dim: Dim, key: VertexKey) -> Stored
        requires { IsVertex dim key }
        ensures { result ≡ fresh dim key }
    {
        let mut record = Stored::blank();
        record.near.key = key;
        record.set(0, opening_slot(dim, key, 0));
        record.set(1, opening_slot(dim, key, 1));
        record.set(2, opening_slot(dim, key, 2));
        record.set(3, opening_slot(dim, key, 3));
        match dim {
            // A plane has no slots beyond these, so their column is not used.
            Dim::Two => record,
            Dim::Three => {
                record.set(4, opening_slot(dim, key, 4));
                record.set(5, opening_slot(dim, key, 5));
                record.set(6, opening_slot(dim, key, 6));
                record.set(7, opening_slot(dim, key, 7));
                record
            }
        }
    }

    /// The vertex.
    pub fn key(&self) -> VertexKey
        ensures { result ≡ self.now.key }
    {
        self.near.key
    }

    /// Slot number `n`, which is below 8.
    pub fn slot(&self, n: u32) -> Slot
        requires { n < 8 }
        ensures value { result ≡ slot_at self.now n }
        ensures eight { length self.now.slots ≡ 8 }
    {
        self.near.slot(&self.far, &self.more, n)
    }

    /// The value in slot number `n`, which is below 8.
    pub fn value(&self, n: u32) -> State
        requires { n < 8 }
        ensures { result ≡ (slot_at self.now n).value }
    {
        self.near.value(&self.far, &self.more, n)
    }

    /// Whether slot number `n`, which is below 8, tells that its cell is refined in the old grid, or with `after` in the new
    /// one.
    pub fn tells(&self, n: u32, after: bool) -> bool
        requires { n < 8 }
        ensures { result ≡ slot_tells after (slot_at self.now n) }
    {
        self.near.tells(&self.far, n, after)
    }

    /// Changes slot number `n`, which is below 8, and nothing else.
    pub fn set(&mut self, n: u32, slot: Slot)
        requires { n < 8 }
        ensures value { self.new ≡ with_slot self.old n slot }
        ensures eight { length self.old.slots ≡ 8 }
    {
        self.near.set(&mut self.far, &mut self.more, n, slot);
    }

    /// The record as plain data.
    pub fn parcel(&self) -> Parcel
        ensures key { result.key ≡ self.now.key }
        ensures slots { result.slots ≡ self.now.slots }
        ensures eight { length result.slots ≡ 8 }
    {
        self.near.parcel(&self.far, &self.more)
    }

    /// Writes the record into three columns. What it does not use is not written.
    pub fn lay(&self, near: &mut Near, far: &mut FourSlots, more: &mut More)
        ensures { record_of near.new far.new more.new ≡ self.now }
    {
        *near = self.near;
        if self.near.has_far {
            *far = self.far;
        }
        if self.near.has_more {
            *more = self.more;
        }
    }

    /// Takes the record that three columns hold. What it does not use is not read.
    pub fn lift(&mut self, near: &Near, far: &FourSlots, more: &More)
        ensures { self.new ≡ record_of near.now far.now more.now }
    {
        self.near = *near;
        if near.has_far {
            self.far = *far;
        }
        if near.has_more {
            self.more = *more;
        }
    }
}
