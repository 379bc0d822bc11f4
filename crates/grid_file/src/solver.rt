//! The solver that a file names, with its numbers.
ghost use Rattle.std.specs.Prelude.{◌≡◌, IfSome};
ghost use Rattle.volume_solver.specs.Ranges.{IsFactor, IsDivisor, IsWind, EdgeHas, IsCriterion};
ghost use Rattle.grid_file.specs.Values.{parts_of};
ghost use Rattle.grid_file.specs.Solvers.{solver_from};

use peano_keys::Dim;
use solver_api::Criterion;
use volume_solver::{Advect, AnySolver, Diffuse, EdgeRule, Wave};

/// The solvers that a file may name.
#[derive(Clone, Copy, Debug, PartialEq, Eq)]
pub enum SolverName {
    Diffuse,
    Advect,
    Wave,
}

/// The numbers of a solver, 0 where it does not take them.
#[derive(Clone, Copy)]
pub struct Rates {
    pub a: i64,
    pub b: i64,
    pub wind: [i64; 3],
}

/// The solver of a name, with its numbers.
pub fn named(
    name: SolverName,
    dim: Dim,
    rates: Rates,
    edge: EdgeRule,
    watch: Option<Criterion>,
) -> AnySolver
    requires a { IsFactor rates.a }
    requires b { IsDivisor rates.b }
    requires wind { IsWind rates.wind }
    requires edge { EdgeHas (parts_of name) edge }
    requires watch { IfSome watch (IsCriterion (parts_of name)) }
    ensures { result ≡ solver_from name dim rates edge watch }
{
    match name {
        SolverName::Diffuse => AnySolver::Diffuse(Diffuse::new(dim, rates.a, rates.b, edge, watch)),
        SolverName::Advect => AnySolver::Advect(Advect::new(dim, rates.wind, rates.b, edge, watch)),
        SolverName::Wave => AnySolver::Wave(Wave::new(dim, rates.a, rates.b, edge, watch)),
    }
}
