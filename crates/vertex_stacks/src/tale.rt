//! The tale of a list of notes: how many sweeps of each kind there were, and what they moved.
ghost use Rattle.std.specs.Prelude.{◌≡◌};
ghost use Rattle.vertex_stacks.specs.Tales.{no_tale, with_note};

use crate::lanes::SweepNote;

/// How many sweeps of each kind there were, and how many vertices they took, put and pushed.
/// A number that would leave `u64` stands at its last value.
#[derive(Clone, Copy, Debug, PartialEq, Eq)]
pub struct Tale {
    /// The number of sweeps of each kind, in the order of the kinds. The last place is for a kind
    /// that does not exist yet, and is 0.
    pub sweeps: [u64; 6],
    /// How many vertices the sweeps took from their inputs.
    pub taken: u64,
    /// How many vertices the sweeps put on their outputs.
    pub put: u64,
    /// How many vertices the sweeps pushed on lanes.
    pub pushed: u64,
}

impl Tale {
    // The tale of no notes.
    pub(crate) fn empty() -> Tale
        ensures { result ≡ no_tale }
    {
        Tale {
            sweeps: [0; 6],
            taken: 0,
            put: 0,
            pushed: 0,
        }
    }

    // The tale with one more note.
    pub(crate) fn tell(mut self, note: &SweepNote) -> Tale
        ensures { result ≡ with_note self note.now }
    {
        let place = note.kind().place();
        self.sweeps[place] = self.sweeps[place].saturating_add(1);
        self.taken = self.taken.saturating_add(note.taken());
        self.put = self.put.saturating_add(note.put());
        self.pushed = self.pushed.saturating_add(note.pushed());
        self
    }
}
