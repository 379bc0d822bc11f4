//! Waves.
ghost use Rattle.std.specs.Prelude.{◌≡◌, ◌<◌, ◌≤◌, ◌^◌, IfSome};
ghost use Rattle.std.specs.Int.RustNames.{unsigned_abs};
ghost use Rattle.peano_keys.specs.State.{count_of};
ghost use Rattle.solver_api.specs.Marks.{mark_by, has_criterion, depth_of};
ghost use Rattle.solver_api.proofs.Marks.{kept_without, depth_without, refined_above};
ghost use Rattle.volume_solver.specs.Kernel.{new_speed, waved};
ghost use Rattle.volume_solver.specs.Counts.{pair_has_two, new_has};
ghost use Rattle.volume_solver.specs.Ranges.{IsFactor, IsDivisor, EdgeHas, IsCriterion};

use crate::edge::EdgeRule;
use crate::exact::{first, pair};
use crate::laplacian::Laplacian;
use crate::marks::{depth, mark_by};
use peano_keys::{Dim, Mark, Sides, State};
use solver_api::{Criterion, Solver};
use std::marker::Model;

/// Explicit waves of a value `u` and its speed `w`: the new speed is `w + floor(a * 9^level * sum(n - u) / b)` over the faces, `n` the value across a face,
/// and the new value is `u` plus the new speed.
#[derive(Clone, Copy, Debug, PartialEq, Eq)]
pub struct Wave {
    operator: Laplacian,
}

impl Model for Wave {
    ghost use Rattle.volume_solver.specs.declared.laplacian.Laplacian.{Laplacian};
    ghost use Rattle.volume_solver.specs.Ranges.{IsLaplacian};

    ghost Value = { Laplacian };

    ghost view = { λ s. s.operator };

    ghost invariant = { λ s. IsLaplacian 2 s.operator };

    ghost inverse = { λ k. record { operator = k } };
}

impl Wave {
    /// Waves with the factor `a / b`. `a` is 0 to 1,000,000, `b` is 1 to 10^18, a fixed state at the edge has two values.
    pub fn new(dim: Dim, a: i64, b: i64, edge: EdgeRule, watch: Option<Criterion>) -> Wave
        requires a { IsFactor a }
        requires b { IsDivisor b }
        requires edge { EdgeHas 2 edge }
        requires watch { IfSome watch (IsCriterion 2) }
        ensures { result ≡ record { dim = dim; a = a; b = b; edge = edge; watch = watch } }
    {
        Wave {
            operator: Laplacian {
                dim,
                a,
                b,
                edge,
                watch,
            },
        }
    }

    // The new speed of a leaf.
    fn new_speed(&self, own: State, sides: &Sides, level: u32) -> i128
        requires own { 1 < count_of own }
        requires level { level ≤ 12 }
        ensures value { result ≡ new_speed self.now own sides.now level }
        ensures bound { unsigned_abs result < 2 ^ 126 }
    {
        i128::from(own.get(1)) + self.operator.change(own, sides, level)
    }
}

impl Solver for Wave {
    ghost parts_of = { λ k. 2 };

    ghost adapting = { λ k. has_criterion k.watch };

    ghost deepest_of = { λ k. depth_of k.watch };

    ghost updated = { waved };

    ghost marked = { λ k. mark_by k.dim k.watch };

    ghost parts_stay = { λ k own sides level new _ e. new_has 2 _ new (pair_has_two _ _) e };

    ghost keeps_all = { λ k own sides level h. kept_without k.dim k.watch own sides level h };

    ghost no_depth = { λ k h. depth_without k.watch h };

    ghost refines_above = { λ k own sides level e. refined_above k.dim k.watch own sides level e };

    fn parts(&self) -> u32 {
        2
    }

    fn adapts(&self) -> bool {
        self.operator.watch.is_some()
    }

    fn deepest(&self) -> u32 {
        depth(self.operator.watch)
    }

    fn update(&self, own: &State, sides: &Sides, level: u32) -> Option<State> {
        let speed = self.new_speed(*own, sides, level);
        pair(i128::from(first(*own)) + speed, speed)
    }

    #[tactic(auto, using(crate::proofs::Criteria::watched_within, solver_api::proofs::Marks::have_own_parts))]
    fn mark(&self, own: &State, sides: &Sides, level: u32) -> Mark {
        mark_by(self.operator.dim, self.operator.watch, *own, sides, level)
    }
}
