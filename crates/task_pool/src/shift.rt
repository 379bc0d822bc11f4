//! How long a helper works.
ghost use Rattle.std.specs.Prelude.{◌≡◌, ◌+◌, ◌-◌, ◌<◌, ◌≤◌, ◌^◌, MatchBool};
ghost use Rattle.task_pool.specs.Shifts.{IsOver, GoesOn, after_round};

/// Rounds in a row that took nothing, after which a helper ends.
const PATIENCE: u32 = 16384;

/// How many tasks were taken and how many results published, by a try or by a round.
#[derive(Clone, Copy)]
pub(crate) struct Work {
    pub(crate) taken: u64,
    pub(crate) published: u64,
}

/// How a helper's work stands: the rounds in a row that took nothing, and all that was taken and published.
#[derive(Clone, Copy)]
pub(crate) struct Shift {
    pub(crate) quiet: u32,
    pub(crate) taken: u64,
    pub(crate) published: u64,
}

impl Shift {
    /// Nothing was done yet.
    pub(crate) fn new() -> Shift
        ensures { (result.quiet ≡ 0) × (result.taken ≡ 0) × (result.published ≡ 0) }
    {
        Shift {
            quiet: 0,
            taken: 0,
            published: 0,
        }
    }

    /// Whether it ends, where all desks have `all` tasks.
    pub(crate) fn is_over(&self, all: u64) -> bool
        ensures { MatchBool result (IsOver all self.now.quiet self.now.taken)
            (GoesOn all self.now.quiet self.now.taken) }
    {
        PATIENCE <= self.quiet || all <= self.taken
    }

    /// What stands after one round more.
    pub(crate) fn after(self, round: Work) -> Shift
        requires quiet { self.quiet < 2 ^ 32 - 1 }
        requires taken { self.taken + round.taken < 2 ^ 64 }
        requires published { self.published + round.published < 2 ^ 64 }
        ensures { result ≡ after_round self round }
    {
        Shift {
            quiet: if round.taken == 0 { self.quiet + 1 } else { 0 },
            taken: self.taken + round.taken,
            published: self.published + round.published,
        }
    }
}
