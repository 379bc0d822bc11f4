//! The calls of a desk.
ghost use Rattle.std.specs.Prelude.{◌≡◌, ℕ, ◌+◌, ◌-◌, ◌<◌, ◌≤◌, ◌^◌, [], true, false, vec_len, vec_capacity, replicate, slice_index_or, IfOk, MatchBool};
ghost use Rattle.result_table.specs.declared.updates.Updates.{Ghosts};
ghost use Rattle.result_table.specs.declared.parts.DeskSeat.{DeskSeat};
ghost use Rattle.result_table.specs.Seen.{task_of, solver_of};
ghost use Rattle.result_table.specs.Views.{has, newcomer, with_claimed, with_lost, with_published, with_late};
ghost use Rattle.result_table.specs.Plays.{IsFresh};
ghost use Rattle.result_table.specs.Seats.{IsNewSeat, IsSeatOf, IsUncollected, Found, made_by, view_of, size_of, desk_solver};

use crate::done::Done;
use crate::parts::{Desk, DeskSeat, Gathered};
use crate::rule::{Another, Claim, Collect, Fetch, Publish};
use crate::updates::Updates;
use crate::view::{Brief, View};
use crate::witness::Witness;
use crate::word::{COLLECTED, FREE, PUBLISHED, Word};
use atomic_table::{Seat, Table};
use std::alloc::{AllocError, Global};

fn zeros(alloc: Global, count: usize) -> Result<Vec<u64>, AllocError>
    ensures { IfOk result (λ v. v.items ≡ replicate count 0) }
{
    Ok(Vec::from_elem(alloc, 0u64, count)?)
}

impl<S: Updates> Desk<S> {
    /// A desk of this many tasks, all Free, with its seats in the order of their numbers. Seat 0 gathers.
    /// The desk and its seats are given up by dropping them. Refused for want of memory alone.
    pub fn new(
        alloc: Global,
        size: u32,
        seats: u32,
        solver: &S,
    ) -> Result<(Desk<S>, Vec<DeskSeat<S>>), AllocError>
        requires some { 1 ≤ seats }
        requires small { size < 2 ^ 32 - 1 }
        ensures desk { IfOk result (λ r. (size_of r.0 ≡ size) × (desk_solver r.0 ≡ solver.now)) }
        ensures count { IfOk result (λ r. vec_len r.1 ≡ seats) }
        ensures each { IfOk result
            (λ r. (i : ℕ) (d : _) → i < seats
            → IsSeatOf r.0 (slice_index_or r.1.items i d)
            × (view_of (slice_index_or r.1.items i d)
            ≡ newcomer solver.now i (made_by seats i))) }
    {
        let words = zeros(alloc, size as usize + 1)?;
        let brief = Brief {
            size,
            solver: Witness::of(solver),
        };
        let (table, seat) = Table::vacant(alloc, &words, size as usize, &brief)?;
        let desk = Desk { table, size };
        let mut all = Vec::new(alloc);
        all.reserve(seats as usize)?;
        desk.seat_all(seat, &mut all, seats);
        Ok((desk, all))
    }

    fn seat_all(
        &self,
        first: Seat<Option<Done<S>>, View<S>>,
        all: &mut Vec<DeskSeat<S>>,
        seats: u32,
    )
        requires fresh { IsNewSeat self.now.table.shared.table_id (desk_solver self.now) 1 0 first }
        requires empty { all.old.items ≡ [] }
        requires room { (1 ≤ seats) × (seats ≤ vec_capacity all.old) }
        ensures count { vec_len all.new ≡ seats }
        ensures each { (i : ℕ) (d : _) → i < seats
            → IsNewSeat self.now.table.shared.table_id (desk_solver self.now) (made_by seats i) i
            (slice_index_or all.new.items i d).seat }
    {
        let mut seat = first;
        let mut number = 1;
        while number < seats {
            let next = self.table.shared.split_seat::<Another>(&mut seat);
            all.push_reserved(DeskSeat { seat: next, number });
            number += 1;
        }
        all.push_reserved(DeskSeat { seat, number: 0 });
        all.rotate_right(1);
    }

    /// How many tasks the desk has.
    pub fn size(&self) -> u32
        ensures value { result ≡ size_of self.now }
        ensures small { result < 2 ^ 32 }
    {
        self.size
    }

    /// One compare and exchange. True where it moved the word from Free to Taken by this seat, false where the word was not Free. Takes no memory.
    pub fn claim(&self, seat: &mut DeskSeat<S>, k: u32) -> bool
        requires seat { IsSeatOf self.now seat.old }
        requires task { k < size_of self.now }
        ensures seat { IsSeatOf self.now seat.new }
        ensures view { MatchBool result (view_of seat.new ≡ with_claimed (view_of seat.old) k)
            (view_of seat.new ≡ with_lost (view_of seat.old) k) }
        ensures fresh { result ≡ true → IsFresh (view_of seat.old) k }
    {
        let taken = Word::Taken(seat.number).code();
        let found = self
            .table
            .shared
            .compare_exchange::<Claim>(&mut seat.seat, k as usize + 1, FREE, taken);
        found == FREE
    }

    /// One compare and exchange. True where it moved the word from Taken by this seat to Published, with `done` in the slot.
    /// False where seat 0 had collected the task; `done` is dropped then. Takes no memory.
    pub fn publish(&self, seat: &mut DeskSeat<S>, k: u32, done: Done<S>) -> bool
        requires seat { IsSeatOf self.now seat.old }
        requires task { k < size_of self.now }
        requires claimed { has (view_of seat.old).claimed k ≡ true }
        requires fresh { (has (view_of seat.old).published k ≡ false)
            × (has (view_of seat.old).late k ≡ false) }
        requires done { ((task_of done).task ≡ k) × (solver_of done ≡ desk_solver self.now) }
        ensures seat { IsSeatOf self.now seat.new }
        ensures view { MatchBool result (view_of seat.new ≡ with_published (view_of seat.old) k)
            (view_of seat.new ≡ with_late (view_of seat.old) k) }
    {
        let word = k as usize + 1;
        let slot = k as usize;
        let taken = Word::Taken(seat.number).code();
        let words = &self.table.shared;
        words.load::<Fetch>(&mut seat.seat, word);
        let _before = words.exchange(&mut seat.seat, slot, Some(done));
        let found = words.compare_exchange::<Publish>(&mut seat.seat, word, taken, PUBLISHED);
        if found == taken {
            return true;
        }
        let _late = words.exchange(&mut seat.seat, slot, None);
        false
    }

    /// One exchange of the word by Collected, which answers what the word was. It waits for nobody and takes no memory.
    pub fn collect(&self, seat: &mut DeskSeat<S>, k: u32) -> Gathered<S>
        requires seat { IsSeatOf self.now seat.old }
        requires task { k < size_of self.now }
        requires first { (view_of seat.old).number ≡ 0 }
        requires fresh { IsUncollected (view_of seat.old) k }
        ensures seat { IsSeatOf self.now seat.new }
        ensures found { Found k (view_of seat.old) (view_of seat.new) result }
    {
        let word = k as usize + 1;
        let found = self
            .table
            .shared
            .swap::<Collect>(&mut seat.seat, word, COLLECTED);
        match found {
            FREE => Gathered::Free,
            PUBLISHED => match self.table.shared.exchange(&mut seat.seat, k as usize, None) {
                Some(done) => Gathered::Taken(done),
                None => unreachable!(),
            },
            _ => Gathered::Running,
        }
    }
}
