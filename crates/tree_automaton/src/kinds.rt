//! Which kinds of sweep a visitor serves.
ghost use Rattle.std.specs.Prelude.{◌≡◌};
ghost use Rattle.tree_automaton.specs.Sweep.{served_by, tells_new};

use vertex_stacks::Kind;

/// Raising sweeps, adaptation sweeps, or all others.
#[derive(Clone, Copy, Debug, PartialEq, Eq)]
pub enum Serves {
    Raising,
    Adapting,
    Plain,
}

impl Serves {
    /// Which visitors serve a kind.
    pub fn of(kind: Kind) -> Serves
        ensures { result ≡ served_by kind }
    {
        match kind {
            Kind::Raise => Serves::Raising,
            Kind::Adapt => Serves::Adapting,
            Kind::Show | Kind::Primary | Kind::Secondary | Kind::Recut => Serves::Plain,
        }
    }

    // Whether slots tell of the new grid besides the old one.
    pub(crate) fn tells_new(self) -> bool
        ensures { result ≡ tells_new self }
    {
        match self {
            Serves::Raising | Serves::Adapting => true,
            Serves::Plain => false,
        }
    }
}
