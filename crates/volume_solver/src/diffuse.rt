//! Diffusion.
ghost use Rattle.std.specs.Prelude.{◌≡◌, ◌≤◌, IfSome};
ghost use Rattle.solver_api.specs.Marks.{mark_by, has_criterion, depth_of};
ghost use Rattle.solver_api.proofs.Marks.{kept_without, depth_without, refined_above};
ghost use Rattle.volume_solver.specs.Kernel.{diffused};
ghost use Rattle.volume_solver.specs.Counts.{single_has_one, new_has};
ghost use Rattle.volume_solver.specs.Ranges.{IsFactor, IsDivisor, EdgeHas, IsCriterion};

use crate::edge::EdgeRule;
use crate::exact::{first, single};
use crate::laplacian::Laplacian;
use crate::marks::{depth, mark_by};
use peano_keys::{Dim, Mark, Sides, State};
use solver_api::{Criterion, Solver};
use std::marker::Model;

/// Explicit diffusion of one value: `u + floor(a * 9^level * sum(n - u) / b)` over the faces, `n` the value across a face.
#[derive(Clone, Copy, Debug, PartialEq, Eq)]
pub struct Diffuse {
    operator: Laplacian,
}

impl Model for Diffuse {
    ghost use Rattle.volume_solver.specs.declared.laplacian.Laplacian.{Laplacian};
    ghost use Rattle.volume_solver.specs.Ranges.{IsLaplacian};

    ghost Value = { Laplacian };

    ghost view = { λ s. s.operator };

    ghost invariant = { λ s. IsLaplacian 1 s.operator };

    ghost inverse = { λ k. record { operator = k } };
}

impl Diffuse {
    /// Diffusion with the factor `a / b`. `a` is 0 to 1,000,000, `b` is 1 to 10^18, a fixed state at the edge has one value.
    pub fn new(dim: Dim, a: i64, b: i64, edge: EdgeRule, watch: Option<Criterion>) -> Diffuse
        requires a { IsFactor a }
        requires b { IsDivisor b }
        requires edge { EdgeHas 1 edge }
        requires watch { IfSome watch (IsCriterion 1) }
        ensures { result ≡ record { dim = dim; a = a; b = b; edge = edge; watch = watch } }
    {
        Diffuse {
            operator: Laplacian {
                dim,
                a,
                b,
                edge,
                watch,
            },
        }
    }
}

impl Solver for Diffuse {
    ghost parts_of = { λ k. 1 };

    ghost adapting = { λ k. has_criterion k.watch };

    ghost deepest_of = { λ k. depth_of k.watch };

    ghost updated = { diffused };

    ghost marked = { λ k. mark_by k.dim k.watch };

    ghost parts_stay = { λ k own sides level new _ e. new_has 1 _ new (single_has_one _) e };

    ghost keeps_all = { λ k own sides level h. kept_without k.dim k.watch own sides level h };

    ghost no_depth = { λ k h. depth_without k.watch h };

    ghost refines_above = { λ k own sides level e. refined_above k.dim k.watch own sides level e };

    fn parts(&self) -> u32 {
        1
    }

    fn adapts(&self) -> bool {
        self.operator.watch.is_some()
    }

    fn deepest(&self) -> u32 {
        depth(self.operator.watch)
    }

    fn update(&self, own: &State, sides: &Sides, level: u32) -> Option<State> {
        let value = i128::from(first(*own)) + self.operator.change(*own, sides, level);
        single(value)
    }

    #[tactic(auto, using(crate::proofs::Criteria::watched_within, solver_api::proofs::Marks::have_own_parts))]
    fn mark(&self, own: &State, sides: &Sides, level: u32) -> Mark {
        mark_by(self.operator.dim, self.operator.watch, *own, sides, level)
    }
}
