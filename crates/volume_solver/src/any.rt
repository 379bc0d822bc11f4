//! Any of the solvers.
ghost use Rattle.volume_solver.specs.Any.{parts_in, adapting_in, deepest_in, updated_by, marked_by, parts_stay_in, kept_in, no_depth_in, refined_in};

use crate::advect::Advect;
use crate::diffuse::Diffuse;
use crate::wave::Wave;
use peano_keys::{Mark, Sides, State};
use solver_api::Solver;

/// One of the solvers, as a file names it.
#[derive(Clone, Copy, Debug, PartialEq, Eq)]
pub enum AnySolver {
    Diffuse(Diffuse),
    Advect(Advect),
    Wave(Wave),
}

impl Solver for AnySolver {
    ghost parts_of = { parts_in };

    ghost adapting = { adapting_in };

    ghost deepest_of = { deepest_in };

    ghost updated = { updated_by };

    ghost marked = { marked_by };

    ghost parts_stay = { parts_stay_in };

    ghost keeps_all = { kept_in };

    ghost no_depth = { no_depth_in };

    ghost refines_above = { refined_in };

    fn parts(&self) -> u32 {
        match self {
            AnySolver::Diffuse(solver) => solver.parts(),
            AnySolver::Advect(solver) => solver.parts(),
            AnySolver::Wave(solver) => solver.parts(),
        }
    }

    fn adapts(&self) -> bool {
        match self {
            AnySolver::Diffuse(solver) => solver.adapts(),
            AnySolver::Advect(solver) => solver.adapts(),
            AnySolver::Wave(solver) => solver.adapts(),
        }
    }

    fn deepest(&self) -> u32 {
        match self {
            AnySolver::Diffuse(solver) => solver.deepest(),
            AnySolver::Advect(solver) => solver.deepest(),
            AnySolver::Wave(solver) => solver.deepest(),
        }
    }

    fn update(&self, own: &State, sides: &Sides, level: u32) -> Option<State> {
        match self {
            AnySolver::Diffuse(solver) => solver.update(own, sides, level),
            AnySolver::Advect(solver) => solver.update(own, sides, level),
            AnySolver::Wave(solver) => solver.update(own, sides, level),
        }
    }

    fn mark(&self, own: &State, sides: &Sides, level: u32) -> Mark {
        match self {
            AnySolver::Diffuse(solver) => solver.mark(own, sides, level),
            AnySolver::Advect(solver) => solver.mark(own, sides, level),
            AnySolver::Wave(solver) => solver.mark(own, sides, level),
        }
    }
}
