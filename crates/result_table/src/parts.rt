//! A desk and its seats.
ghost use Rattle.std.specs.Prelude.{◌≡◌, ◌+◌};

use crate::done::Done;
use crate::rule::Ruled;
use crate::updates::Updates;
use crate::view::{Brief, View};
use atomic_table::{Seat, Table};
use std::alloc::Global;

/// A word and a slot for each task of a step, which seats share. The table has one word more than tasks, on which seats are made.
#[derive(Drop)]
pub struct Desk<S: Updates> {
    pub(crate) table: Table<Option<Done<S>>, View<S>, Brief<S>, Ruled<S>, Global>,
    pub(crate) size: u32,
    ghost sized: { (table.shared.table_id.words ≡ size + 1) × (table.shared.table_id.slots ≡ size)
        × (table.shared.key.size ≡ size) },
}

/// A seat at a desk: who claims, publishes and collects there. Contracts see it as what it knows.
#[derive(Drop)]
pub struct DeskSeat<S: Updates> {
    pub(crate) seat: Seat<Option<Done<S>>, View<S>>,
    pub(crate) number: u32,
    ghost numbered: { number ≡ seat.me.0.number },
}

/// What a collection found: a result, a task that nobody has claimed, or one that a seat is computing.
#[derive(Drop)]
pub enum Gathered<S: Updates> {
    Taken(Done<S>),
    Free,
    Running,
}
