//! What a file says first, on which the rest depends: dimension, depth, base and solver.
ghost use Rattle.std.specs.Prelude.{◌≡◌, ◌≤◌, IfOk, not};
ghost use Rattle.toml.specs.View.{table_view};
ghost use Rattle.grid_file.specs.declared.limits.TheConstants.{DEEPEST};
ghost use Rattle.grid_file.specs.Faults.{Gives, first};
ghost use Rattle.grid_file.specs.Values.{takes_a, takes_wind};
ghost use Rattle.grid_file.specs.Head.{solver_of, solver_checks};
ghost use Rattle.grid_file.specs.Stages.{head_fault, head_of};

use crate::fault::{PlanFault, refused};
use crate::keys::at;
use crate::place::{KeyName, Part};
use crate::solver::SolverName;
use crate::tree::number;
use crate::values::{dim, solver};
use crate::version::{deepest_of, version_of};
use peano_keys::Dim;
use toml::Table;

/// What a file says first.
#[derive(Clone, Copy)]
pub struct Head {
    pub dim: Dim,
    pub depth: u32,
    pub base: u32,
    pub solver: SolverName,
}

// Whether a solver takes `a`; the others take `wind`.
fn takes_a(solver: SolverName) -> bool
    ensures value { result ≡ takes_a solver }
    ensures other { takes_wind solver ≡ not result }
{
    match solver {
        SolverName::Diffuse | SolverName::Wave => true,
        SolverName::Advect => false,
    }
}

// The solver, with `a` and `wind` there exactly where it takes them.
fn named_solver(document: &Table) -> Result<SolverName, PlanFault>
    ensures { Gives result (first 7 (solver_checks (table_view document.now)))
        (solver_of (table_view document.now)) }
{
    let name = solver(at(document, KeyName::Solver)).ok_or(refused(
        7,
        Part::Document,
        0,
        KeyName::Solver,
    ))?;
    if at(document, KeyName::A).is_some() != takes_a(name) {
        return Err(refused(7, Part::Document, 0, KeyName::A));
    }
    if at(document, KeyName::Wind).is_some() == takes_a(name) {
        return Err(refused(7, Part::Document, 0, KeyName::Wind));
    }
    Ok(name)
}

/// What a file says first.
pub fn read_head(document: &Table) -> Result<Head, PlanFault>
    ensures value { Gives result (head_fault (table_view document.now))
        (head_of (table_view document.now)) }
    ensures depth { IfOk result (λ h. h.depth ≤ DEEPEST) }
{
    let dim = dim(at(document, KeyName::Dim)).ok_or(refused(4, Part::Document, 0, KeyName::Dim))?;
    let deepest = deepest_of(version_of(document));
    let depth = number(at(document, KeyName::Depth), 0, deepest).ok_or(refused(
        5,
        Part::Document,
        0,
        KeyName::Depth,
    ))? as u32;
    let base = number(at(document, KeyName::Base), 0, u64::from(depth)).ok_or(refused(
        6,
        Part::Document,
        0,
        KeyName::Base,
    ))? as u32;
    let solver = named_solver(document)?;
    Ok(Head {
        dim,
        depth,
        base,
        solver,
    })
}
