//! Advection.
ghost use Rattle.std.specs.Prelude.{◌≡◌, ◌≤◌, IfSome};
ghost use Rattle.solver_api.specs.Marks.{mark_by, has_criterion, depth_of};
ghost use Rattle.solver_api.proofs.Marks.{kept_without, depth_without, refined_above};
ghost use Rattle.volume_solver.specs.Kernel.{advected};
ghost use Rattle.volume_solver.specs.Counts.{single_has_one, new_has};
ghost use Rattle.volume_solver.specs.Ranges.{IsWind, IsDivisor, EdgeHas, IsCriterion};

use crate::edge::EdgeRule;
use crate::exact::{first, single};
use crate::marks::{depth, mark_by};
use crate::upwind::Upwind;
use peano_keys::{Dim, Mark, Sides, State};
use solver_api::{Criterion, Solver};
use std::marker::Model;

/// Explicit upwind advection of one value: `u - floor(s / b)`, where `s` is the sum over the axes of `wind * 3^level` times the rise of the value
/// from the low neighbour to the leaf where the wind is 0 or more, else from the leaf to the high neighbour.
#[derive(Clone, Copy, Debug, PartialEq, Eq)]
pub struct Advect {
    scheme: Upwind,
}

impl Model for Advect {
    ghost use Rattle.volume_solver.specs.declared.upwind.Upwind.{Upwind};
    ghost use Rattle.volume_solver.specs.Ranges.{IsUpwind};

    ghost Value = { Upwind };

    ghost view = { λ s. s.scheme };

    ghost invariant = { λ s. IsUpwind s.scheme };

    ghost inverse = { λ k. record { scheme = k } };
}

impl Advect {
    /// Advection with the factor `wind / b` on each axis. Each entry of `wind` is -1,000,000 to 1,000,000, `b` is 1 to 10^18,
    /// a fixed state at the edge has one value. In two dimensions the third entry has no part.
    pub fn new(dim: Dim, wind: [i64; 3], b: i64, edge: EdgeRule, watch: Option<Criterion>) -> Advect
        requires wind { IsWind wind }
        requires b { IsDivisor b }
        requires edge { EdgeHas 1 edge }
        requires watch { IfSome watch (IsCriterion 1) }
        ensures { result ≡ record { dim = dim; wind = wind; b = b; edge = edge; watch = watch } }
    {
        Advect {
            scheme: Upwind {
                dim,
                wind,
                b,
                edge,
                watch,
            },
        }
    }
}

impl Solver for Advect {
    ghost parts_of = { λ k. 1 };

    ghost adapting = { λ k. has_criterion k.watch };

    ghost deepest_of = { λ k. depth_of k.watch };

    ghost updated = { advected };

    ghost marked = { λ k. mark_by k.dim k.watch };

    ghost parts_stay = { λ k own sides level new _ e. new_has 1 _ new (single_has_one _) e };

    ghost keeps_all = { λ k own sides level h. kept_without k.dim k.watch own sides level h };

    ghost no_depth = { λ k h. depth_without k.watch h };

    ghost refines_above = { λ k own sides level e. refined_above k.dim k.watch own sides level e };

    fn parts(&self) -> u32 {
        1
    }

    fn adapts(&self) -> bool {
        self.scheme.watch.is_some()
    }

    fn deepest(&self) -> u32 {
        depth(self.scheme.watch)
    }

    fn update(&self, own: &State, sides: &Sides, level: u32) -> Option<State> {
        let value = i128::from(first(*own)) - self.scheme.loss(*own, sides, level);
        single(value)
    }

    #[tactic(auto, using(crate::proofs::Criteria::watched_within, solver_api::proofs::Marks::have_own_parts))]
    fn mark(&self, own: &State, sides: &Sides, level: u32) -> Mark {
        mark_by(self.scheme.dim, self.scheme.watch, *own, sides, level)
    }
}
