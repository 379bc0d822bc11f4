//! Lanes: the input, the output and the temporary stacks of a sweep, in pages that go from list to
//! list, with what was moved between them; and the note of a sweep, which only lanes that are
//! drained give.
ghost use Rattle.std.specs.Prelude.{◌≡◌, ℕ, ◌+◌, ◌*◌, ◌^◌, ◌%◌, ◌<◌, ◌≤◌, ◌↔◌, pos, ◌<ℤ◌, ◌≤ℤ◌, ◌+ℤ◌, ◌-ℤ◌, max};
ghost use Rattle.std.specs.Prelude.{IsOk, IsTrue, IsFalse, IfErr, OnOk, OnErr, IfSome, IsSomeAnd, All};
ghost use Rattle.std.specs.Prelude.{[], ◌∷◌, ◌++◌, map, reverse, length, slice_set, slice_get};
ghost use Rattle.peano_keys.specs.Dim.{axes};
ghost use Rattle.peano_records.specs.Slots.{slot_at, with_slot};
ghost use Rattle.vertex_stacks.specs.Lists.{IsDrained, held, held_by, lane_at, lists_of, nothing_moved, pages_for, pages_live, pages_of, pages_used, parcel_of, places_of, room_of};
ghost use Rattle.vertex_stacks.specs.Piles.{Reach, items_of};
ghost use Rattle.vertex_stacks.specs.Tales.{capped, with_note};

use crate::kind::Kind;
use crate::page::Pool;
use crate::pile::Pile;
use crate::tale::Tale;
use peano_keys::{Dim, VertexKey};
use peano_records::{Parcel, Slot, Stored};
use std::alloc::{AllocError, Global};
use std::marker::Model;

#[cfg(test)]
mod tests;

/// The note of a sweep that ended. `Lanes::turn` alone makes one, so its counts are those of the
/// vertices that were moved.
#[derive(Clone, Copy, Debug, PartialEq, Eq)]
pub struct SweepNote {
    step: u32,
    kind: Kind,
    tree: u32,
    taken: u64,
    put: u64,
    pushed: u64,
}

impl Model for SweepNote {
    ghost use Rattle.vertex_stacks.specs.Notes.{Note};

    ghost Value = { Note };

    ghost view = { λ n. record {
      step = n.step;
      kind = n.kind;
      tree = n.tree;
      taken = n.taken;
      put = n.put;
      pushed = n.pushed;
    } };

    ghost inverse = { λ n. record {
      step = n.step;
      kind = n.kind;
      tree = n.tree;
      taken = n.taken;
      put = n.put;
      pushed = n.pushed;
    } };
}

impl SweepNote {
    /// The step of the run in which the sweep was made.
    pub fn step(&self) -> u32
        ensures { result ≡ self.now.step }
    {
        self.step
    }

    /// What the sweep was for.
    pub fn kind(&self) -> Kind
        ensures { result ≡ self.now.kind }
    {
        self.kind
    }

    /// The number of the tree that was swept.
    pub fn tree(&self) -> u32
        ensures { result ≡ self.now.tree }
    {
        self.tree
    }

    /// How many vertices were taken from the input.
    pub fn taken(&self) -> u64
        ensures { result ≡ self.now.taken }
    {
        self.taken
    }

    /// How many vertices were put on the output.
    pub fn put(&self) -> u64
        ensures { result ≡ self.now.put }
    {
        self.put
    }

    /// How many vertices were pushed on lanes.
    pub fn pushed(&self) -> u64
        ensures { result ≡ self.now.pushed }
    {
        self.pushed
    }
}

/// An input stream, an output stream and temporary stacks of vertices, the lanes: four in a plane,
/// six in space. Each is a list of pages of 64 vertices. A page that is emptied goes to the pool of
/// free pages, from which every list takes. The input has the vertex that is taken next at its end.
#[derive(Drop)]
pub struct Lanes {
    alloc: Global,
    dim: Dim,
    // How many pages there are, in the lists and free. Each list and the pool have room for all.
    pages: u64,
    pool: Pool,
    input: Pile,
    output: Pile,
    lanes: [Pile; 6],
    taken: u64,
    put: u64,
    pushed: u64,
    tale: Tale,
}

impl Model for Lanes {
    ghost use Rattle.std.specs.Prelude.{map, reverse};
    ghost use Rattle.vertex_stacks.specs.Lists.{SweepLists, lists_seen};
    ghost use Rattle.vertex_stacks.specs.Piles.{AreInPages, items_of};

    ghost Value = { SweepLists };

    ghost view = { λ l. lists_seen l.dim l.pages
        (reverse l.input.items) l.output.items (map items_of l.lanes)
        l.taken l.put l.pushed l.tale };

    ghost invariant = { λ l. AreInPages l.dim l.pages l.pool l.input l.output l.lanes };
}

// No machine has memory for more pages.
const MOST_PAGES: u64 = 1 << 50;

// Whether no list holds a vertex.
fn are_empty(piles: &[Pile; 6]) -> bool
    ensures { IsTrue result ↔ All (λ pile. pile.items ≡ []) piles.now }
{
    piles.iter().all(|pile| pile.is_empty())
}

// How many vertices the lists hold together.
fn count(piles: &[Pile; 6]) -> u64
    requires { held_by (map items_of piles.now) < 2 ^ 64 }
    ensures { result ≡ held_by (map items_of piles.now) }
{
    let mut sum: u64 = 0;
    for pile in piles {
        sum += pile.len() as u64;
    }
    sum
}

// Makes room for so many pages in each list.
fn reach_all(piles: &mut [Pile; 6], pages: usize) -> Result<(), AllocError>
    requires { length piles.old ≡ 6 }
    ensures count { length piles.new ≡ 6 }
    ensures items { map items_of piles.new ≡ map items_of piles.old }
    ensures kept { (had : ℕ) → Reach had piles.old → Reach had piles.new }
    ensures ok { OnOk result (Reach pages piles.new) }
{
    for i in 0..6 {
        piles[i].reserve(pages)?;
    }
    Ok(())
}

// Makes room for so many pages in each list and in the pool.
fn reach(
    pool: &mut Pool,
    input: &mut Pile,
    output: &mut Pile,
    lanes: &mut [Pile; 6],
    pages: usize,
) -> Result<(), AllocError>
    requires { length lanes.old ≡ 6 }
    ensures pool { (pool.new.count ≡ pool.old.count) × (pool.old.reach ≤ pool.new.reach) }
    ensures input { (input.new.items ≡ input.old.items) × (input.old.reach ≤ input.new.reach) }
    ensures output { (output.new.items ≡ output.old.items) × (output.old.reach ≤ output.new.reach) }
    ensures six { length lanes.new ≡ 6 }
    ensures lanes { map items_of lanes.new ≡ map items_of lanes.old }
    ensures kept { (had : ℕ) → Reach had lanes.old → Reach had lanes.new }
    ensures ok { OnOk result ((pages ≤ pool.new.reach) × (pages ≤ input.new.reach)
        × (pages ≤ output.new.reach)) }
    ensures all { OnOk result (Reach pages lanes.new) }
{
    pool.reserve(pages)?;
    input.reserve(pages)?;
    output.reserve(pages)?;
    reach_all(lanes, pages)
}

impl Lanes {
    /// Lanes that hold nothing. Takes no memory.
    pub fn new(alloc: Global, dim: Dim) -> Lanes
        ensures value { result ≡ nothing_moved dim (pos 0) }
        ensures six { length result.lanes ≡ 6 }
        ensures pages { pages_of result ≡ 0 }
    {
        Lanes {
            alloc,
            dim,
            pages: 0,
            pool: Pool::new(alloc),
            input: Pile::new(alloc),
            output: Pile::new(alloc),
            lanes: [
                Pile::new(alloc),
                Pile::new(alloc),
                Pile::new(alloc),
                Pile::new(alloc),
                Pile::new(alloc),
                Pile::new(alloc),
            ],
            taken: 0,
            put: 0,
            pushed: 0,
            tale: Tale::empty(),
        }
    }

    /// How many pages there are. Takes no memory.
    pub fn pages(&self) -> u64
        ensures value { result ≡ pages_of self.now }
        ensures spare { self.now.spare
            ≡ (pos (places_of self.now.dim (pages_of self.now)) -ℤ pos (held self.now)) }
        ensures used { pages_used self.now ≤ pages_of self.now }
        ensures six { length self.now.lanes ≡ 6 }
    {
        self.pages
    }

    /// How many vertices have room however they lie in the lists: every page but one of each list
    /// is full then. Takes no memory.
    pub fn room(&self) -> u64
        ensures value { result ≡ room_of self.now }
        ensures spare { (pos (room_of self.now) -ℤ pos (held self.now)) ≤ℤ self.now.spare }
        ensures six { length self.now.lanes ≡ 6 }
    {
        64 * self.pages.saturating_sub(self.list_count())
    }

    // How many lists may hold vertices.
    fn list_count(&self) -> u64
        ensures { result ≡ lists_of self.now.dim }
    {
        match self.dim {
            Dim::Two => 6,
            Dim::Three => 8,
        }
    }

    // How many vertices have a place for certain: one in the last page of each list, 64 in others.
    fn places(&self) -> u64
        ensures value { result ≡ places_of self.now.dim (pages_of self.now) }
        ensures spare { self.now.spare ≡ (pos result -ℤ pos (held self.now)) }
        ensures six { length self.now.lanes ≡ 6 }
    {
        let lists = self.list_count();
        self.pages.min(lists) + 64 * self.pages.saturating_sub(lists)
    }

    // How many vertices all lists hold.
    fn held(&self) -> u64
        ensures { result ≡ held self.now }
    {
        self.input.len() as u64 + self.output.len() as u64 + count(&self.lanes)
    }

    // Makes so many new pages. Where memory is wanting there are as many as before.
    fn add_pages(&mut self, more: u64) -> Result<(), AllocError>
        ensures lists { self.new ≡ record self.old { spare = self.new.spare } }
        ensures kept { self.old.spare ≤ℤ self.new.spare }
        ensures pages { OnOk result (pages_of self.new ≡ pages_of self.old + more) }
        ensures spare { (pos (room_of self.new) -ℤ pos (held self.new)) ≤ℤ self.new.spare }
        ensures err { OnErr result (self.new ≡ self.old) }
        ensures six { (length self.old.lanes ≡ 6) × (length self.new.lanes ≡ 6) }
    {
        let pages = self.pages.saturating_add(more);
        if pages > MOST_PAGES {
            return Err(AllocError);
        }
        reach(
            &mut self.pool,
            &mut self.input,
            &mut self.output,
            &mut self.lanes,
            pages as usize,
        )?;
        self.pool.grow(self.alloc, more as usize)?;
        self.pages = pages;
        Ok(())
    }

    // Makes sure that a page is free where a list needs one.
    fn make_ready(&mut self, is_full: bool) -> Result<(), AllocError>
        ensures lists { self.new ≡ record self.old { spare = self.new.spare } }
        ensures kept { self.old.spare ≤ℤ self.new.spare }
        ensures fits { pages_used self.old ≤ pages_of self.old }
        ensures ready { OnOk result (IsTrue is_full → pages_used self.new < pages_of self.new) }
        ensures grows { OnOk result (IsTrue is_full
            → pages_of self.new ≡ max (pages_of self.old) (pages_used self.old + 1)) }
        ensures stays { IsFalse is_full → self.new ≡ self.old }
        ensures err { OnErr result (self.new ≡ self.old) }
        ensures room { pos 0 <ℤ self.old.spare → IsOk result × (self.new ≡ self.old) }
        ensures live { held self.old < room_of self.old → IsOk result × (self.new ≡ self.old) }
        ensures six { (length self.old.lanes ≡ 6) × (length self.new.lanes ≡ 6) }
    {
        if !is_full || !self.pool.is_empty() {
            return Ok(());
        }
        self.add_pages(1)
    }

    /// Makes room for so many vertices more than are held, wherever they come to lie. Where memory
    /// is wanting all lists are as before.
    pub fn reserve(&mut self, vertices: u64) -> Result<(), AllocError>
        ensures lists { self.new ≡ record self.old { spare = self.new.spare } }
        ensures kept { self.old.spare ≤ℤ self.new.spare }
        ensures ok { OnOk result (pos vertices ≤ℤ self.new.spare) }
        ensures covered { pos vertices ≤ℤ self.old.spare → IsOk result × (self.new ≡ self.old) }
        ensures err { OnErr result (self.new ≡ self.old) }
        ensures six { (length self.old.lanes ≡ 6) × (length self.new.lanes ≡ 6) }
    {
        let places = self.places();
        let Some(wanted) = self.held().checked_add(vertices) else {
            return Err(AllocError);
        };
        if wanted <= places {
            return Ok(());
        }
        self.reserve_live(wanted)?;
        Ok(())
    }

    /// Makes pages until so many vertices have room in all lists together, however they lie. Takes
    /// no memory where they have. Where memory is wanting all is as before.
    pub fn reserve_live(&mut self, vertices: u64) -> Result<(), AllocError>
        ensures lists { self.new ≡ record self.old { spare = self.new.spare } }
        ensures kept { self.old.spare ≤ℤ self.new.spare }
        ensures pages { OnOk result
            (pages_of self.new ≡ max (pages_of self.old) (pages_live self.old.dim vertices)) }
        ensures room { OnOk result (vertices ≤ room_of self.new) }
        ensures spare { (pos (room_of self.new) -ℤ pos (held self.new)) ≤ℤ self.new.spare }
        ensures covered { vertices ≤ room_of self.old → IsOk result × (self.new ≡ self.old) }
        ensures err { OnErr result (self.new ≡ self.old) }
        ensures six { (length self.old.lanes ≡ 6) × (length self.new.lanes ≡ 6) }
    {
        if vertices <= self.room() {
            return Ok(());
        }
        let wanted = (vertices - 1) / 64 + 1 + self.list_count();
        self.add_pages(wanted - self.pages())?;
        Ok(())
    }

    /// Takes the next vertex of the input into a place, over what lies there; false where the input
    /// is empty. Takes no memory.
    pub fn take_input_into(&mut self, v: &mut Stored) -> bool
        ensures none { IsFalse result
            → (self.old.input ≡ []) × (self.new ≡ self.old) × (v.new ≡ v.old) }
        ensures first { IsTrue result → self.old.input ≡ v.new ∷ self.new.input }
        ensures others { IsTrue result → self.new ≡ record self.old {
          input = self.new.input;
          spare = self.new.spare;
          taken = capped (self.old.taken + 1);
        } }
        ensures spare { IsTrue result → (self.old.spare +ℤ pos 1) ≤ℤ self.new.spare }
        ensures pages { pages_of self.new ≡ pages_of self.old }
        ensures six { (length self.old.lanes ≡ 6) × (length self.new.lanes ≡ 6) }
    {
        if !self.input.pop(&mut self.pool, v) {
            return false;
        }
        self.taken = self.taken.saturating_add(1);
        true
    }

    /// Takes the last vertex of a lane into a place, over what lies there; false where the lane is
    /// empty. Takes no memory.
    pub fn pop_into(&mut self, lane: u32, v: &mut Stored) -> bool
        requires { lane < 2 * axes self.old.dim }
        ensures none { IsFalse result
            → (lane_at self.old lane ≡ []) × (self.new ≡ self.old) × (v.new ≡ v.old) }
        ensures last { IsTrue result → lane_at self.old lane ≡ lane_at self.new lane ++ v.new ∷ [] }
        ensures others { IsTrue result → self.new ≡ record self.old {
          lanes = slice_set self.old.lanes lane (lane_at self.new lane);
          spare = self.new.spare;
        } }
        ensures spare { IsTrue result → (self.old.spare +ℤ pos 1) ≤ℤ self.new.spare }
        ensures pages { pages_of self.new ≡ pages_of self.old }
        ensures six { (length self.old.lanes ≡ 6) × (length self.new.lanes ≡ 6) }
    {
        self.lanes[lane as usize].pop(&mut self.pool, v)
    }

    /// Takes the next vertex of the input; none where the input is empty. Takes no memory.
    pub fn take_input(&mut self) -> Option<Stored>
        ensures none { result ≡ None → (self.old.input ≡ []) × (self.new ≡ self.old) }
        ensures first { IfSome result (λ v. self.old.input ≡ v ∷ self.new.input) }
        ensures others { IfSome result (λ _. self.new ≡ record self.old {
          input = self.new.input;
          spare = self.new.spare;
          taken = capped (self.old.taken + 1);
        }) }
        ensures spare { IfSome result (λ _. (self.old.spare +ℤ pos 1) ≤ℤ self.new.spare) }
        ensures pages { pages_of self.new ≡ pages_of self.old }
        ensures six { (length self.old.lanes ≡ 6) × (length self.new.lanes ≡ 6) }
    {
        let mut v = Stored::blank();
        if !self.take_input_into(&mut v) {
            return None;
        }
        Some(v)
    }

    /// Takes the last vertex of a lane; none where the lane is empty. Takes no memory.
    pub fn pop(&mut self, lane: u32) -> Option<Stored>
        requires { lane < 2 * axes self.old.dim }
        ensures none { result ≡ None → (lane_at self.old lane ≡ []) × (self.new ≡ self.old) }
        ensures last { IfSome result
            (λ v. lane_at self.old lane ≡ lane_at self.new lane ++ v ∷ []) }
        ensures others { IfSome result (λ _. self.new ≡ record self.old {
          lanes = slice_set self.old.lanes lane (lane_at self.new lane);
          spare = self.new.spare;
        }) }
        ensures spare { IfSome result (λ _. (self.old.spare +ℤ pos 1) ≤ℤ self.new.spare) }
        ensures pages { pages_of self.new ≡ pages_of self.old }
        ensures six { (length self.old.lanes ≡ 6) × (length self.new.lanes ≡ 6) }
    {
        let mut v = Stored::blank();
        if !self.pop_into(lane, &mut v) {
            return None;
        }
        Some(v)
    }

    // Whether the next vertex of a lane takes a page.
    fn is_lane_full(&self, lane: u32) -> bool
        requires { lane < 2 * axes self.now.dim }
        ensures { IsTrue result ↔ (length (lane_at self.now lane) % 64 ≡ 0) }
    {
        self.lanes[lane as usize].is_full()
    }

    // Puts a vertex behind the output, where a page is free if it takes one.
    fn put_ready(&mut self, v: &Stored)
        requires { length self.old.output % 64 ≡ 0 → pages_used self.old < pages_of self.old }
        ensures lists { self.new ≡ record self.old {
          output = self.old.output ++ v.now ∷ [];
          spare = self.new.spare;
          put = capped (self.old.put + 1);
        } }
        ensures spare { self.old.spare ≡ (self.new.spare +ℤ pos 1) }
        ensures pages { pages_of self.new ≡ pages_of self.old }
        ensures used { pages_used self.new + pages_for (length self.old.output)
            ≡ pages_used self.old + pages_for (length self.old.output + 1) }
        ensures six { length self.new.lanes ≡ 6 }
    {
        self.output.push(&mut self.pool, v);
        self.put = self.put.saturating_add(1);
    }

    // Puts a vertex on top of a lane, where a page is free if it takes one.
    fn push_ready(&mut self, lane: u32, v: &Stored)
        requires lane { lane < 2 * axes self.old.dim }
        requires page { length (lane_at self.old lane) % 64 ≡ 0
            → pages_used self.old < pages_of self.old }
        ensures lists { self.new ≡ record self.old {
          lanes = slice_set self.old.lanes lane (lane_at self.old lane ++ v.now ∷ []);
          spare = self.new.spare;
          pushed = capped (self.old.pushed + 1);
        } }
        ensures spare { self.old.spare ≡ (self.new.spare +ℤ pos 1) }
        ensures pages { pages_of self.new ≡ pages_of self.old }
        ensures used { pages_used self.new + pages_for (length (lane_at self.old lane))
            ≡ pages_used self.old + pages_for (length (lane_at self.old lane) + 1) }
        ensures six { length self.new.lanes ≡ 6 }
    {
        self.lanes[lane as usize].push(&mut self.pool, v);
        self.pushed = self.pushed.saturating_add(1);
    }

    /// Puts the vertex of a place behind the output; what stays in the place may be written over.
    /// Where memory is wanting nothing changes; never so while there is room to spare.
    pub fn put_output_from(&mut self, v: &mut Stored) -> Result<(), AllocError>
        ensures left { v.new ≡ v.old }
        ensures ok { OnOk result (self.new ≡ record self.old {
          output = self.old.output ++ v.old ∷ [];
          spare = self.new.spare;
          put = capped (self.old.put + 1);
        }) }
        ensures spare { OnOk result (self.old.spare ≤ℤ (self.new.spare +ℤ pos 1)) }
        ensures err { OnErr result (self.new ≡ self.old) }
        ensures room { pos 0 <ℤ self.old.spare → IsOk result }
        ensures pages { OnOk result
            (pages_of self.new ≡ max (pages_of self.old) (pages_used self.new)) }
        ensures still { pos 0 <ℤ self.old.spare → pages_of self.new ≡ pages_of self.old }
        ensures live { held self.old < room_of self.old
            → IsOk result × (pages_of self.new ≡ pages_of self.old) }
        ensures six { (length self.old.lanes ≡ 6) × (length self.new.lanes ≡ 6) }
    {
        let is_full = self.output.is_full();
        self.make_ready(is_full)?;
        self.put_ready(v);
        Ok(())
    }

    /// Puts the vertex of a place on top of a lane; what stays in the place may be written over.
    /// Where memory is wanting nothing changes; never so while there is room to spare.
    pub fn push_from(&mut self, lane: u32, v: &mut Stored) -> Result<(), AllocError>
        requires { lane < 2 * axes self.old.dim }
        ensures left { v.new ≡ v.old }
        ensures ok { OnOk result (self.new ≡ record self.old {
          lanes = slice_set self.old.lanes lane (lane_at self.old lane ++ v.old ∷ []);
          spare = self.new.spare;
          pushed = capped (self.old.pushed + 1);
        }) }
        ensures spare { OnOk result (self.old.spare ≤ℤ (self.new.spare +ℤ pos 1)) }
        ensures err { OnErr result (self.new ≡ self.old) }
        ensures room { pos 0 <ℤ self.old.spare → IsOk result }
        ensures pages { OnOk result
            (pages_of self.new ≡ max (pages_of self.old) (pages_used self.new)) }
        ensures still { pos 0 <ℤ self.old.spare → pages_of self.new ≡ pages_of self.old }
        ensures live { held self.old < room_of self.old
            → IsOk result × (pages_of self.new ≡ pages_of self.old) }
        ensures six { (length self.old.lanes ≡ 6) × (length self.new.lanes ≡ 6) }
    {
        let is_full = self.is_lane_full(lane);
        self.make_ready(is_full)?;
        self.push_ready(lane, v);
        Ok(())
    }

    /// Puts a vertex behind the output. Where memory is wanting the vertex comes back and nothing
    /// changes; never so while there is room to spare.
    pub fn put_output(&mut self, v: Stored) -> Result<(), Stored>
        ensures ok { OnOk result (self.new ≡ record self.old {
          output = self.old.output ++ v ∷ [];
          spare = self.new.spare;
          put = capped (self.old.put + 1);
        }) }
        ensures spare { OnOk result (self.old.spare ≤ℤ (self.new.spare +ℤ pos 1)) }
        ensures err { IfErr result (λ back. (back ≡ v) × (self.new ≡ self.old)) }
        ensures room { pos 0 <ℤ self.old.spare → IsOk result }
        ensures pages { OnOk result
            (pages_of self.new ≡ max (pages_of self.old) (pages_used self.new)) }
        ensures still { pos 0 <ℤ self.old.spare → pages_of self.new ≡ pages_of self.old }
        ensures live { held self.old < room_of self.old
            → IsOk result × (pages_of self.new ≡ pages_of self.old) }
        ensures six { (length self.old.lanes ≡ 6) × (length self.new.lanes ≡ 6) }
    {
        let mut v = v;
        match self.put_output_from(&mut v) {
            Ok(()) => Ok(()),
            Err(_) => Err(v),
        }
    }

    /// Puts a vertex on top of a lane. Where memory is wanting the vertex comes back and nothing
    /// changes; never so while there is room to spare.
    pub fn push(&mut self, lane: u32, v: Stored) -> Result<(), Stored>
        requires { lane < 2 * axes self.old.dim }
        ensures ok { OnOk result (self.new ≡ record self.old {
          lanes = slice_set self.old.lanes lane (lane_at self.old lane ++ v ∷ []);
          spare = self.new.spare;
          pushed = capped (self.old.pushed + 1);
        }) }
        ensures spare { OnOk result (self.old.spare ≤ℤ (self.new.spare +ℤ pos 1)) }
        ensures err { IfErr result (λ back. (back ≡ v) × (self.new ≡ self.old)) }
        ensures room { pos 0 <ℤ self.old.spare → IsOk result }
        ensures pages { OnOk result
            (pages_of self.new ≡ max (pages_of self.old) (pages_used self.new)) }
        ensures still { pos 0 <ℤ self.old.spare → pages_of self.new ≡ pages_of self.old }
        ensures live { held self.old < room_of self.old
            → IsOk result × (pages_of self.new ≡ pages_of self.old) }
        ensures six { (length self.old.lanes ≡ 6) × (length self.new.lanes ≡ 6) }
    {
        let mut v = v;
        match self.push_from(lane, &mut v) {
            Ok(()) => Ok(()),
            Err(_) => Err(v),
        }
    }

    /// Whether the input and all lanes are empty. Takes no memory.
    pub fn is_drained(&self) -> bool
        ensures value { IsTrue result ↔ IsDrained self.now }
        ensures six { length self.now.lanes ≡ 6 }
    {
        self.input.is_empty() && are_empty(&self.lanes)
    }

    /// Ends a sweep: the output becomes the input, its last vertex first, and the counts begin
    /// again. The note has the counts of the sweep, and the tale has the note. Takes no memory.
    pub fn turn(&mut self, step: u32, kind: Kind, tree: u32) -> SweepNote
        requires { IsDrained self.old }
        ensures note { result ≡ record {
          step = step;
          kind = kind;
          tree = tree;
          taken = self.old.taken;
          put = self.old.put;
          pushed = self.old.pushed;
        } }
        ensures lists { self.new ≡ record self.old {
          input = reverse self.old.output;
          output = [];
          spare = self.new.spare;
          taken = 0;
          put = 0;
          pushed = 0;
          tale = with_note self.old.tale result;
        } }
        ensures room { self.new.spare ≡ self.old.spare }
        ensures pages { pages_of self.new ≡ pages_of self.old }
        ensures six { (length self.old.lanes ≡ 6) × (length self.new.lanes ≡ 6) }
    {
        let note = SweepNote {
            step,
            kind,
            tree,
            taken: self.taken,
            put: self.put,
            pushed: self.pushed,
        };
        std::mem::swap(&mut self.input, &mut self.output);
        self.taken = 0;
        self.put = 0;
        self.pushed = 0;
        self.tale = self.tale.tell(&note);
        note
    }

    /// How many vertices were taken, put and pushed since the last turn. A count stands at the last
    /// value of `u64` once it is there.
    pub fn counts(&self) -> (u64, u64, u64)
        ensures value { result ≡ (self.now.taken, self.now.put, self.now.pushed) }
        ensures six { length self.now.lanes ≡ 6 }
    {
        (self.taken, self.put, self.pushed)
    }

    /// The tale of all notes that `turn` gave on these lanes.
    pub fn tale(&self) -> Tale
        ensures value { result ≡ self.now.tale }
        ensures six { length self.now.lanes ≡ 6 }
    {
        self.tale
    }

    /// How many vertices the input holds. Takes no memory.
    pub fn input_count(&self) -> u64
        ensures value { result ≡ length self.now.input }
        ensures six { length self.now.lanes ≡ 6 }
    {
        self.input.len() as u64
    }

    /// The key of the vertex at a place of the input, in the order in which they will be taken.
    /// Takes no memory.
    pub fn key_at(&self, k: u64) -> VertexKey
        requires { k < length self.now.input }
        ensures key { IsSomeAnd (slice_get self.now.input k) (λ v. result ≡ v.key) }
        ensures six { length self.now.lanes ≡ 6 }
    {
        let place = self.input.len() - 1 - k as usize;
        self.input.key(place)
    }

    /// One slot of the vertex at a place of the input, in the order in which they will be taken.
    /// Takes no memory.
    pub fn slot_at(&self, k: u64, n: u32) -> Slot
        requires place { k < length self.now.input }
        requires slot { n < 8 }
        ensures slot { IsSomeAnd (slice_get self.now.input k) (λ v. result ≡ slot_at v n) }
        ensures eight { IsSomeAnd (slice_get self.now.input k) (λ v. length v.slots ≡ 8) }
        ensures six { length self.now.lanes ≡ 6 }
    {
        let place = self.input.len() - 1 - k as usize;
        self.input.slot(place, n)
    }

    /// The vertex at a place of the input, in the order in which they will be taken, as plain data.
    /// Takes no memory.
    pub fn parcel_at(&self, k: u64) -> Parcel
        requires { k < length self.now.input }
        ensures vertex { IsSomeAnd (slice_get self.now.input k) (λ v. result ≡ parcel_of v) }
        ensures eight { length result.slots ≡ 8 }
        ensures six { length self.now.lanes ≡ 6 }
    {
        let place = self.input.len() - 1 - k as usize;
        self.input.parcel(place)
    }

    /// Changes one slot of the vertex at a place of the input, in the order in which they will be
    /// taken. Takes no memory.
    pub fn set_slot(&mut self, k: u64, n: u32, slot: Slot)
        requires place { k < length self.old.input }
        requires slot { n < 8 }
        ensures slot { IsSomeAnd (slice_get self.old.input k) (λ v. self.new ≡ record self.old {
          input = slice_set self.old.input k (with_slot v n slot);
        }) }
        ensures eight { IsSomeAnd (slice_get self.old.input k) (λ v. length v.slots ≡ 8) }
        ensures pages { pages_of self.new ≡ pages_of self.old }
        ensures six { (length self.old.lanes ≡ 6) × (length self.new.lanes ≡ 6) }
    {
        let place = self.input.len() - 1 - k as usize;
        self.input.set_slot(place, n, slot);
    }
}
