//! The solver: a value spreads to each leaf that sees a smaller one.
ghost use Rattle.std.specs.Prelude.{◌≡◌, false, None, refl};
ghost use Rattle.peano_keys.specs.State.{count_of, value_at};
ghost use Rattle.solver_api.specs.Parts.{SideHas};
ghost use Rattle.solver_api.specs.Marks.{mark_by};
ghost use Rattle.solver_api.proofs.Marks.{refined_above};
ghost use Rattle.own_solver.specs.Spread.{spread, raised, has_one};

use peano_keys::{Dim, Mark, Side, Sides, State};
use solver_api::Solver;

/// A front: in each step a leaf takes the greatest value that it sees. The grid stays as it is.
#[derive(Clone, Copy, Debug, PartialEq, Eq)]
pub struct Spread {
    pub dim: Dim,
}

// The greater of a value and that across a face.
fn raised(value: i64, side: Side) -> i64
    requires { SideHas 1 side }
    ensures { result ≡ raised value side }
{
    match side {
        Side::Edge => value,
        Side::Same(there) | Side::Coarse(there) => {
            let seen = there.get(0);
            if value <= seen { seen } else { value }
        }
    }
}

impl Solver for Spread {
    ghost parts_of = { λ s. 1 };

    ghost adapting = { λ s. false };

    ghost deepest_of = { λ s. 0 };

    ghost updated = { λ s own sides level. spread s.dim own sides };

    // with no criterion every leaf is kept
    ghost marked = { λ s. mark_by s.dim None };

    ghost parts_stay = { λ s own sides level new h e. has_one _ new refl e };

    ghost keeps_all = { λ s own sides level h. refl };

    ghost no_depth = { λ s h. refl };

    ghost refines_above = { λ s own sides level e. refined_above s.dim None own sides level e };

    fn parts(&self) -> u32 {
        1
    }

    fn adapts(&self) -> bool {
        false
    }

    fn deepest(&self) -> u32 {
        0
    }

    fn update(&self, own: &State, sides: &Sides, _level: u32) -> Option<State> {
        let mut value = own.get(0);
        value = raised(value, sides.low[0]);
        value = raised(value, sides.high[0]);
        value = raised(value, sides.low[1]);
        value = raised(value, sides.high[1]);
        if self.dim == Dim::Three {
            value = raised(value, sides.low[2]);
            value = raised(value, sides.high[2]);
        }
        Some(State::one(value))
    }

    fn mark(&self, _own: &State, _sides: &Sides, _level: u32) -> Mark {
        Mark::Keep
    }
}
