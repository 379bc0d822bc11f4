//! Ranges of positions along the curve.
ghost use Rattle.std.specs.Prelude.{◌↔◌, IsTrue};
ghost use Rattle.peano_curve.specs.Run.{Holds, Meets};

/// Positions along the curve, from `lo` up to and without `hi`. At depth 12 they need 64 bits: there are 3^36 of them.
#[derive(Clone, Copy, Debug, PartialEq, Eq)]
pub struct Range {
    pub lo: u64,
    pub hi: u64,
}

impl Range {
    /// Whether a position is in the range.
    pub fn holds(&self, position: u64) -> bool
        ensures { IsTrue result ↔ Holds self.now position }
    {
        self.lo <= position && position < self.hi
    }

    /// Whether the two ranges share a position; an empty range shares none.
    pub fn meets(&self, other: &Range) -> bool
        ensures { IsTrue result ↔ Meets self.now other.now }
    {
        self.lo.max(other.lo) < self.hi.min(other.hi)
    }
}
