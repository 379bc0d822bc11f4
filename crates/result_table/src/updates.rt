//! What a task needs of a solver.
ghost use Rattle.std.specs.Prelude.{◌≡◌, ◌≤◌, ℕ, Option};
ghost use Rattle.peano_keys.specs.declared.state.State.{State};
ghost use Rattle.peano_keys.specs.declared.side.Sides.{Sides};
ghost use Rattle.solver_api.specs.Parts.{HaveParts};

use peano_keys::{Sides, State};
use solver_api::Solver;

/// Whose update a task is: every solver. It says nothing of threads, so that methods which stand in a trait, as those of a
/// sweep's visitor, may call what is bound by it.
pub trait Updates: Drop {
    ghost parts_of: { Self → ℕ };

    ghost updated: { Self → State → Sides → ℕ → Option State };

    /// How many values a state has.
    fn parts(&self) -> u32
        ensures { result ≡ parts_of self.now };

    /// The new state of a leaf, none where one of its values leaves the range of `i64`.
    fn update(&self, own: &State, sides: &Sides, level: u32) -> Option<State>
        requires level { level ≤ 12 }
        requires parts { HaveParts (parts_of self.now) own.now sides.now }
        ensures { result ≡ updated self.now own.now sides.now level };
}

impl<S: Solver> Updates for S {
    ghost parts_of = { S.parts_of };

    ghost updated = { S.updated };

    fn parts(&self) -> u32 {
        Solver::parts(self)
    }

    fn update(&self, own: &State, sides: &Sides, level: u32) -> Option<State> {
        Solver::update(self, own, sides, level)
    }
}
