//! Piles: lists of vertices in pages, which grow and shrink at their end.
ghost use Rattle.std.specs.Prelude.{◌≡◌, ◌+◌, ◌/◌, ◌%◌, ◌<◌, ◌≤◌, true, false, [], ◌∷◌, ◌++◌, take, length, slice_index_or, slice_set, vec_len, vec_capacity, OnOk, IsTrue, ◌↔◌};
ghost use Rattle.peano_records.specs.declared.stored.Stored.{Stored};
ghost use Rattle.peano_records.specs.Slots.{slot_at, with_slot};
ghost use Rattle.vertex_stacks.specs.Lists.{pages_for, parcel_of};
ghost use Rattle.vertex_stacks.specs.Piles.{AreWhole, flat};

use crate::page::{Page, Pool};
use peano_keys::VertexKey;
use peano_records::{Parcel, Slot, Stored};
use std::alloc::{AllocError, Global};
use std::marker::Model;

/// A list of vertices in pages. All pages but the last are full, and the last holds a vertex.
#[derive(Drop)]
pub(crate) struct Pile {
    pages: Vec<Page>,
    count: usize,
}

impl Model for Pile {
    ghost use Rattle.std.specs.Prelude.{◌≡◌, take, vec_len, vec_capacity};
    ghost use Rattle.vertex_stacks.specs.Lists.{pages_for};
    ghost use Rattle.vertex_stacks.specs.Piles.{PileSeen, AreWhole, flat};

    ghost Value = { PileSeen };

    ghost view = { λ p. record {
      items = take p.count (flat p.pages.items);
      reach = vec_capacity p.pages;
    } };

    ghost invariant = { λ p. (vec_len p.pages ≡ pages_for p.count) × AreWhole p.pages.items };
}

// Gives pages a place for one vertex more: a page of the pool where all are full.
fn open_place(pages: &mut Vec<Page>, pool: &mut Pool, count: usize)
    requires whole { AreWhole pages.old.items }
    requires len { vec_len pages.old ≡ pages_for count }
    requires page { count % 64 ≡ 0
        → (0 < pool.old.count) × (vec_len pages.old < vec_capacity pages.old) }
    ensures whole { AreWhole pages.new.items }
    ensures len { vec_len pages.new ≡ count / 64 + 1 }
    ensures items { take count (flat pages.new.items) ≡ take count (flat pages.old.items) }
    ensures capacity { vec_capacity pages.new ≡ vec_capacity pages.old }
    ensures pool { (pool.new.count + vec_len pages.new ≡ pool.old.count + vec_len pages.old)
        × (pool.new.reach ≡ pool.old.reach) }
{
    if count % 64 == 0 {
        pages.push_reserved(pool.take());
    }
}

// Gives the last page back to the pool where it holds no vertex any more.
fn close_place(pages: &mut Vec<Page>, pool: &mut Pool, count: usize)
    requires whole { AreWhole pages.old.items }
    requires len { vec_len pages.old ≡ count / 64 + 1 }
    requires reach { pool.old.count < pool.old.reach }
    ensures whole { AreWhole pages.new.items }
    ensures len { vec_len pages.new ≡ pages_for count }
    ensures items { take count (flat pages.new.items) ≡ take count (flat pages.old.items) }
    ensures capacity { vec_capacity pages.new ≡ vec_capacity pages.old }
    ensures pool { (pool.new.count + vec_len pages.new ≡ pool.old.count + vec_len pages.old)
        × (pool.new.reach ≡ pool.old.reach) }
{
    if count % 64 == 0 {
        if let Some(page) = pages.pop() {
            pool.give(page);
        }
    }
}

impl Pile {
    /// A list that holds nothing.
    pub(crate) fn new(alloc: Global) -> Pile
        ensures { result.items ≡ [] }
    {
        Pile {
            pages: Vec::new(alloc),
            count: 0,
        }
    }

    /// How many vertices it holds.
    pub(crate) fn len(&self) -> usize
        ensures { result ≡ length self.now.items }
    {
        self.count
    }

    /// Whether it holds nothing.
    pub(crate) fn is_empty(&self) -> bool
        ensures yes { result ≡ true → self.now.items ≡ [] }
        ensures no { result ≡ false → 0 < length self.now.items }
    {
        self.count == 0
    }

    /// Whether its next vertex takes a page.
    pub(crate) fn is_full(&self) -> bool
        ensures { IsTrue result ↔ (length self.now.items % 64 ≡ 0) }
    {
        self.count % 64 == 0
    }

    /// Makes room for so many pages in all.
    pub(crate) fn reserve(&mut self, pages: usize) -> Result<(), AllocError>
        ensures items { self.new.items ≡ self.old.items }
        ensures grows { self.old.reach ≤ self.new.reach }
        ensures ok { OnOk result (pages ≤ self.new.reach) }
    {
        self.pages.reserve(pages.saturating_sub(self.pages.len()))
    }

    /// Puts a vertex at the end. The pool gives a page where the last one is full.
    pub(crate) fn push(&mut self, pool: &mut Pool, v: &Stored)
        requires { length self.old.items % 64 ≡ 0
            → (0 < pool.old.count) × (pages_for (length self.old.items) < self.old.reach) }
        ensures items { self.new.items ≡ self.old.items ++ v.now ∷ [] }
        ensures reach { (self.new.reach ≡ self.old.reach) × (pool.new.reach ≡ pool.old.reach) }
        ensures pages { pool.new.count + pages_for (length self.new.items)
            ≡ pool.old.count + pages_for (length self.old.items) }
    {
        let count = self.count;
        open_place(&mut self.pages, pool, count);
        self.pages[count / 64].lay(count % 64, v);
        self.count = count + 1;
    }

    /// Takes the vertex at the end; false where there is none. A page that is emptied goes to the pool.
    pub(crate) fn pop(&mut self, pool: &mut Pool, v: &mut Stored) -> bool
        requires { 0 < length self.old.items → pool.old.count < pool.old.reach }
        ensures none { result ≡ false
            → (self.old.items ≡ []) × (self.new ≡ self.old) × (v.new ≡ v.old)
            × (pool.new ≡ pool.old) }
        ensures last { result ≡ true → self.old.items ≡ self.new.items ++ v.new ∷ [] }
        ensures reach { (self.new.reach ≡ self.old.reach) × (pool.new.reach ≡ pool.old.reach) }
        ensures pages { pool.new.count + pages_for (length self.new.items)
            ≡ pool.old.count + pages_for (length self.old.items) }
    {
        if self.count == 0 {
            return false;
        }
        let count = self.count - 1;
        self.pages[count / 64].lift(count % 64, v);
        close_place(&mut self.pages, pool, count);
        self.count = count;
        true
    }

    /// Changes one slot of the vertex at a place, counted from the oldest.
    pub(crate) fn set_slot(&mut self, place: usize, n: u32, slot: Slot)
        requires place { place < length self.old.items }
        requires slot { n < 8 }
        ensures items { (d : Stored)
            → self.new.items
            ≡ slice_set self.old.items place
            (with_slot (slice_index_or self.old.items place d) n slot) }
        ensures eight { (d : Stored) → length (slice_index_or self.old.items place d).slots ≡ 8 }
        ensures reach { self.new.reach ≡ self.old.reach }
    {
        self.pages[place / 64].set_slot(place % 64, n, slot);
    }

    /// The key of the vertex at a place, counted from the oldest.
    pub(crate) fn key(&self, place: usize) -> VertexKey
        requires { place < length self.now.items }
        ensures { (d : Stored) → result ≡ (slice_index_or self.now.items place d).key }
    {
        self.pages[place / 64].key(place % 64)
    }

    /// One slot of the vertex at a place, counted from the oldest.
    pub(crate) fn slot(&self, place: usize, n: u32) -> Slot
        requires place { place < length self.now.items }
        requires slot { n < 8 }
        ensures value { (d : Stored) → result ≡ slot_at (slice_index_or self.now.items place d) n }
        ensures eight { (d : Stored) → length (slice_index_or self.now.items place d).slots ≡ 8 }
    {
        self.pages[place / 64].slot(place % 64, n)
    }

    /// The vertex at a place, counted from the oldest, as plain data.
    pub(crate) fn parcel(&self, place: usize) -> Parcel
        requires { place < length self.now.items }
        ensures vertex { (d : Stored) → result ≡ parcel_of (slice_index_or self.now.items place d) }
        ensures eight { length result.slots ≡ 8 }
    {
        self.pages[place / 64].parcel(place % 64)
    }
}
