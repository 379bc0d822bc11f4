//! The trait of an explicit solver, with its meanings and laws.
ghost use Rattle.std.specs.Prelude.{◌≡◌, ◌<◌, ◌≤◌, ℕ, Bool, false, Option, Some, IfSome};
ghost use Rattle.peano_keys.specs.declared.state.State.{State};
ghost use Rattle.peano_keys.specs.declared.side.Sides.{Sides};
ghost use Rattle.peano_keys.specs.declared.side.Mark.{Mark};
ghost use Rattle.peano_keys.specs.declared.side.Mark.TheVariants.{Keep, Refine};
ghost use Rattle.peano_keys.specs.State.{count_of};
ghost use Rattle.solver_api.specs.Parts.{HaveParts};

use peano_keys::{Mark, Sides, State};

/// An explicit solver: a leaf's new state and its mark follow from its state, its sides and its level alone.
/// No call takes memory.
pub trait Solver: Send + Sync + Drop {
    ghost parts_of: { Self → ℕ };

    ghost adapting: { Self → Bool };

    ghost deepest_of: { Self → ℕ };

    ghost updated: { Self → State → Sides → ℕ → Option State };

    ghost marked: { Self → State → Sides → ℕ → Mark };

    /// How many values a state has, one to four.
    fn parts(&self) -> u32
        ensures value { result ≡ parts_of self.now }
        ensures least { 1 ≤ result }
        ensures most { result ≤ 4 };

    /// Whether there is a criterion by which the grid adapts.
    fn adapts(&self) -> bool
        ensures { result ≡ adapting self.now };

    /// The level down to which leaves are refined, 0 where the grid does not adapt.
    fn deepest(&self) -> u32
        ensures { result ≡ deepest_of self.now };

    /// The new state of a leaf, none where one of its values leaves the range of `i64`.
    fn update(&self, own: &State, sides: &Sides, level: u32) -> Option<State>
        requires level { level ≤ 12 }
        requires parts { HaveParts (parts_of self.now) own.now sides.now }
        ensures value { result ≡ updated self.now own.now sides.now level }
        ensures parts { IfSome result (λ s. count_of s ≡ parts_of self.now) };

    /// The mark of a leaf.
    fn mark(&self, own: &State, sides: &Sides, level: u32) -> Mark
        requires level { level ≤ 12 }
        requires parts { HaveParts (parts_of self.now) own.now sides.now }
        ensures { result ≡ marked self.now own.now sides.now level };

    // a new state has as many values as the old one
    ghost parts_stay: { (s : Self) (own : State) (sides : Sides) (level : ℕ) (new : State)
        → HaveParts (parts_of s) own sides → updated s own sides level ≡ Some new
        → count_of new ≡ parts_of s };

    // a solver that does not adapt keeps each leaf
    ghost keeps_all: { (s : Self) (own : State) (sides : Sides) (level : ℕ) → adapting s ≡ false
        → marked s own sides level ≡ Keep };

    // and refines down to no level
    ghost no_depth: { (s : Self) → adapting s ≡ false → deepest_of s ≡ 0 };

    // a leaf that is refined is of a level above the deepest
    ghost refines_above: { (s : Self) (own : State) (sides : Sides) (level : ℕ)
        → marked s own sides level ≡ Refine → level < deepest_of s };
}
