//! The calls of a source or a sink in memory: their numbers, from 0, and which of them fail.
ghost use Rattle.std.specs.Prelude.{◌≡◌, ◌↔◌, ◌≤◌, IsTrue, Contains};
ghost use Rattle.peano_io.specs.Causes.{counted};

/// The numbers of the calls that fail, the number of the next call, and how many calls failed. A number and a count
/// stay at their last value, 2^64 - 1.
#[derive(Drop)]
pub struct Calls {
    pub failing: Vec<u64>,
    pub next: u64,
    pub faults: u64,
}

impl Calls {
    /// No call was made yet.
    pub fn new(failing: Vec<u64>) -> Calls
        ensures failing { result.failing ≡ failing }
        ensures next { result.next ≡ 0 }
        ensures faults { result.faults ≡ 0 }
    {
        Calls {
            failing,
            next: 0,
            faults: 0,
        }
    }

    /// Counts a call, and says whether it is one of those that fail.
    pub fn begin(&mut self) -> bool
        ensures listed { IsTrue result ↔ Contains self.old.failing.items self.old.next }
        ensures after { self.new ≡ record self.old { next = counted self.old.next } }
    {
        let call = self.next;
        self.next = call.saturating_add(1);
        self.failing.contains(&call)
    }

    /// Counts a fault.
    pub fn fail(&mut self)
        ensures after { self.new ≡ record self.old { faults = counted self.old.faults } }
        ensures later { self.old.faults ≤ self.new.faults }
    {
        self.faults = self.faults.saturating_add(1);
    }
}
