//! Pages: 64 places for vertices, in columns, and the pool of free ones.
ghost use Rattle.std.specs.Prelude.{◌≡◌, ◌+◌, ◌<◌, ◌≤◌, true, false, length, slice_index_or, slice_set, IfOk, OnOk, OnErr};
ghost use Rattle.peano_records.specs.declared.stored.Stored.{Stored};
ghost use Rattle.peano_records.specs.Slots.{slot_at, with_slot};
ghost use Rattle.vertex_stacks.specs.Lists.{parcel_of};

use peano_keys::VertexKey;
use peano_records::{FourSlots, More, Near, Parcel, Slot, Stored};
use std::alloc::{AllocError, Global};
use std::marker::Model;

/// How many vertices a page has places for.
pub(crate) const PLACES: usize = 64;

/// Places for 64 vertices. What every vertex uses, what only space uses, and what only states of
/// more than one value use lie apart from each other.
#[derive(Drop)]
pub(crate) struct Page {
    near: Vec<Near>,
    far: Vec<FourSlots>,
    more: Vec<More>,
}

impl Model for Page {
    ghost use Rattle.std.specs.Prelude.{◌≡◌, List, length};
    ghost use Rattle.peano_records.specs.declared.stored.Stored.{Stored};
    ghost use Rattle.vertex_stacks.specs.Piles.{records_of};

    ghost Value = { List Stored };

    ghost view = { λ p. records_of p.near.items p.far.items p.more.items };

    ghost invariant = { λ p. (length p.near.items ≡ 64) × (length p.far.items ≡ 64)
        × (length p.more.items ≡ 64) };
}

impl Page {
    // A page whose vertices are of no account.
    fn new(alloc: Global) -> Result<Page, AllocError>
        ensures { IfOk result (λ page. length page ≡ 64) }
    {
        Ok(Page {
            near: vec![in alloc; Near::blank(); PLACES]?,
            far: vec![in alloc; FourSlots::blank(); PLACES]?,
            more: vec![in alloc; More::blank(); PLACES]?,
        })
    }

    /// Writes a vertex to a place.
    pub(crate) fn lay(&mut self, place: usize, v: &Stored)
        requires { place < 64 }
        ensures { self.new ≡ slice_set self.old place v.now }
    {
        v.lay(
            &mut self.near[place],
            &mut self.far[place],
            &mut self.more[place],
        );
    }

    /// Reads the vertex of a place.
    pub(crate) fn lift(&self, place: usize, v: &mut Stored)
        requires { place < 64 }
        ensures { (d : Stored) → v.new ≡ slice_index_or self.now place d }
    {
        v.lift(&self.near[place], &self.far[place], &self.more[place]);
    }

    /// Changes one slot of the vertex of a place.
    pub(crate) fn set_slot(&mut self, place: usize, n: u32, slot: Slot)
        requires place { place < 64 }
        requires slot { n < 8 }
        ensures value { (d : Stored)
            → self.new
            ≡ slice_set self.old place (with_slot (slice_index_or self.old place d) n slot) }
        ensures eight { (d : Stored) → length (slice_index_or self.old place d).slots ≡ 8 }
    {
        self.near[place].set(&mut self.far[place], &mut self.more[place], n, slot);
    }

    /// The key of the vertex of a place.
    pub(crate) fn key(&self, place: usize) -> VertexKey
        requires { place < 64 }
        ensures { (d : Stored) → result ≡ (slice_index_or self.now place d).key }
    {
        self.near[place].key
    }

    /// One slot of the vertex of a place.
    pub(crate) fn slot(&self, place: usize, n: u32) -> Slot
        requires place { place < 64 }
        requires slot { n < 8 }
        ensures value { (d : Stored) → result ≡ slot_at (slice_index_or self.now place d) n }
        ensures eight { (d : Stored) → length (slice_index_or self.now place d).slots ≡ 8 }
    {
        self.near[place].slot(&self.far[place], &self.more[place], n)
    }

    /// The vertex of a place as plain data.
    pub(crate) fn parcel(&self, place: usize) -> Parcel
        requires { place < 64 }
        ensures vertex { (d : Stored) → result ≡ parcel_of (slice_index_or self.now place d) }
        ensures eight { length result.slots ≡ 8 }
    {
        self.near[place].parcel(&self.far[place], &self.more[place])
    }
}

/// Free pages. The one that was given last is the first to be taken.
#[derive(Drop)]
pub(crate) struct Pool {
    pages: Vec<Page>,
}

impl Model for Pool {
    ghost use Rattle.std.specs.Prelude.{vec_len, vec_capacity};
    ghost use Rattle.vertex_stacks.specs.Piles.{PoolSeen, AreWhole};

    ghost Value = { PoolSeen };

    ghost view = { λ p. record { count = vec_len p.pages; reach = vec_capacity p.pages } };

    ghost invariant = { λ p. AreWhole p.pages.items };
}

impl Pool {
    /// No page.
    pub(crate) fn new(alloc: Global) -> Pool
        ensures { result.count ≡ 0 }
    {
        Pool {
            pages: Vec::new(alloc),
        }
    }

    /// Whether there is no free page.
    pub(crate) fn is_empty(&self) -> bool
        ensures yes { result ≡ true → self.now.count ≡ 0 }
        ensures no { result ≡ false → 0 < self.now.count }
    {
        self.pages.is_empty()
    }

    /// Takes a page.
    pub(crate) fn take(&mut self) -> Page
        requires { 0 < self.old.count }
        ensures page { length result ≡ 64 }
        ensures count { self.new.count + 1 ≡ self.old.count }
        ensures reach { self.new.reach ≡ self.old.reach }
    {
        self.pages.pop().unwrap()
    }

    /// Gives a page.
    pub(crate) fn give(&mut self, page: Page)
        requires reach { self.old.count < self.old.reach }
        requires page { length page ≡ 64 }
        ensures count { self.new.count ≡ self.old.count + 1 }
        ensures reach { self.new.reach ≡ self.old.reach }
    {
        self.pages.push_reserved(page);
    }

    /// Makes room for so many pages in all.
    pub(crate) fn reserve(&mut self, pages: usize) -> Result<(), AllocError>
        ensures count { self.new.count ≡ self.old.count }
        ensures grows { self.old.reach ≤ self.new.reach }
        ensures ok { OnOk result (pages ≤ self.new.reach) }
    {
        self.pages.reserve(pages.saturating_sub(self.pages.len()))
    }

    /// Makes so many new pages. Where memory is wanting there are as many as before.
    pub(crate) fn grow(&mut self, alloc: Global, more: usize) -> Result<(), AllocError>
        requires { self.old.count + more ≤ self.old.reach }
        ensures reach { self.new.reach ≡ self.old.reach }
        ensures ok { OnOk result (self.new.count ≡ self.old.count + more) }
        ensures err { OnErr result (self.new.count ≡ self.old.count) }
    {
        let had = self.pages.len();
        for i in 0..more {
            match Page::new(alloc) {
                Ok(page) => self.pages.push_reserved(page),
                Err(wanting) => {
                    self.pages.truncate(had);
                    return Err(wanting);
                }
            }
        }
        Ok(())
    }
}
