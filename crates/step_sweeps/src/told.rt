//! What a visit tells of its cell.
ghost use Rattle.std.specs.Prelude.{◌≡◌, ◌<◌};
ghost use Rattle.peano_keys.specs.Dim.{corners};
ghost use Rattle.step_sweeps.specs.Told.{intent_told, told_slot, told_record, told_corner, IsTold};

use peano_keys::{Dim, Mark, State, corner_count, slot_of};
use peano_records::{CellView, Corner, Intent, Slot, Status, Stored};

// What a visit tells of its cell, in the cell's slot at each of its stored corners. What is none stays as it was.
#[derive(Clone, Copy, Debug, PartialEq, Eq)]
pub(crate) struct Told {
    pub(crate) mark: Option<Mark>,
    pub(crate) next: Option<State>,
    pub(crate) intent: Option<Intent>,
}

// An intent that fits a slot: only a leaf splits, and only a refined cell merges.
fn fitting(told: Option<Intent>, status: Status, intent: Intent) -> Intent
    ensures { result ≡ intent_told told status intent }
{
    match (told, status) {
        (Some(Intent::Stay), _) => Intent::Stay,
        (Some(Intent::Split), Status::Leaf) => Intent::Split,
        (Some(Intent::Merge), Status::Refined) => Intent::Merge,
        _ => intent,
    }
}

impl Told {
    // The slot with what is told.
    fn in_slot(self, slot: Slot) -> Slot
        ensures { result ≡ told_slot self slot }
    {
        Slot {
            mark: self.mark.unwrap_or(slot.mark),
            next: self.next.unwrap_or(slot.next),
            intent: fitting(self.intent, slot.status, slot.intent),
            ..slot
        }
    }

    // Tells it in the record at corner `n`.
    fn in_record(self, dim: Dim, n: u32, stored: &mut Stored)
        requires { n < corners dim }
        ensures { stored.new ≡ told_record dim self n stored.old }
    {
        let k = slot_of(dim, n);
        let slot = self.in_slot(stored.slot(k));
        stored.set(k, slot);
    }

    // Tells it at corner `n`, where that is a vertex.
    fn in_corner(self, dim: Dim, n: u32, corner: &mut Corner)
        requires { n < corners dim }
        ensures { corner.new ≡ told_corner dim self n corner.old }
    {
        if let Corner::Vertex(stored) = corner {
            self.in_record(dim, n, stored);
        }
    }

    // Tells it at all corners of a view.
    pub(crate) fn in_view(self, dim: Dim, cell: &mut CellView)
        ensures { IsTold dim self cell.old cell.new }
    {
        for n in 0..corner_count(dim) {
            self.in_corner(dim, n, &mut cell.corners[n as usize]);
        }
    }
}
