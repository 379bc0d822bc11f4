//! Kinds of sweeps.
ghost use Rattle.std.specs.Prelude.{◌≡◌, ◌<◌};
ghost use Rattle.vertex_stacks.specs.Tales.{place_of};

/// What a sweep is for.
#[derive(Clone, Copy, Debug, PartialEq, Eq)]
pub enum Kind {
    /// Makes the first stores of a grid.
    Raise,
    /// Reads the values of leaves for a printed field.
    Show,
    /// Computes the next value of every leaf.
    Primary,
    /// Finishes the step with what the other trees sent.
    Secondary,
    /// Splits and merges cells.
    Adapt,
    /// Reads the values of leaves, before the trees are cut anew.
    Recut,
}

impl Kind {
    // The place of this kind in a tale: 0 to 5, in the order in which the kinds stand here.
    pub(crate) fn place(self) -> usize
        ensures value { result ≡ place_of self }
        ensures below { result < 6 }
    {
        match self {
            Kind::Raise => 0,
            Kind::Show => 1,
            Kind::Primary => 2,
            Kind::Secondary => 3,
            Kind::Adapt => 4,
            Kind::Recut => 5,
        }
    }
}
