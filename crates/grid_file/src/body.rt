//! The plan of a document of which the head is read, key by key in the order of the codes.
ghost use Rattle.std.specs.Prelude.{◌≡◌, ◌≤◌, IfOk, IfSome};
ghost use Rattle.toml.specs.View.{table_view};
ghost use Rattle.volume_solver.specs.Ranges.{IsFactor, IsDivisor, IsWind, EdgeHas, IsCriterion};
ghost use Rattle.grid_file.specs.Tree.{seen};
ghost use Rattle.grid_file.specs.Faults.{Gives, first};
ghost use Rattle.grid_file.specs.Values.{parts_of};
ghost use Rattle.grid_file.specs.Solvers.{rate_checks, rates_of, criterion_checks, criterion_of, criterion_keys, criterion_with, edge_checks, edge_of};
ghost use Rattle.grid_file.specs.Plan.{plan_from};
ghost use Rattle.grid_file.specs.Stages.{head_of, body_fault, tail_fault, tail_of};

use crate::boxes::rows;
use crate::fault::{PlanFault, refused};
use crate::head::Head;
use crate::keys::at;
use crate::limits::{DEEPEST, MOST_DIFFERENCE, MOST_DIVISOR, MOST_RATE, MOST_STEPS};
use crate::place::{KeyName, Part};
use crate::plan::Plan;
use crate::solver::{Rates, SolverName, named};
use crate::tree::{number, number_or, table};
use crate::values::{edge, every, fixed, wind};
use peano_keys::Dim;
use solver_api::Criterion;
use spacetree::{Fill, Shape, Zone};
use std::alloc::Global;
use toml::{Table, Value};
use volume_solver::EdgeRule;

/// What a file says last: the rule at the domain's edge, the steps, and how often one is printed and the trees are cut anew.
#[derive(Clone, Copy)]
pub struct Tail {
    pub edge: EdgeRule,
    pub steps: u32,
    pub print_every: Option<u32>,
    pub recut_every: Option<u32>,
}

// The numbers of the solver.
fn read_rates(dim: Dim, document: &Table) -> Result<Rates, PlanFault>
    ensures value { Gives result (first 8 (rate_checks dim (table_view document.now)))
        (rates_of dim (table_view document.now)) }
    ensures a { IfOk result (λ r. IsFactor r.a) }
    ensures b { IfOk result (λ r. IsDivisor r.b) }
    ensures wind { IfOk result (λ r. IsWind r.wind) }
{
    number_or(1, 1, 2, at(document, KeyName::Version)).ok_or(refused(
        8,
        Part::Document,
        0,
        KeyName::Version,
    ))?;
    let a = number_or(0, 0, MOST_RATE, at(document, KeyName::A)).ok_or(refused(
        8,
        Part::Document,
        0,
        KeyName::A,
    ))?;
    let b = number(at(document, KeyName::B), 1, MOST_DIVISOR).ok_or(refused(
        8,
        Part::Document,
        0,
        KeyName::B,
    ))?;
    let wind = wind(dim, at(document, KeyName::Wind)).ok_or(refused(
        8,
        Part::Document,
        0,
        KeyName::Wind,
    ))?;
    Ok(Rates {
        a: a as i64,
        b: b as i64,
        wind,
    })
}

// How many values a state of a solver has.
fn parts(solver: SolverName) -> u32
    ensures value { result ≡ parts_of solver }
    ensures least { 1 ≤ result }
{
    match solver {
        SolverName::Diffuse | SolverName::Advect => 1,
        SolverName::Wave => 2,
    }
}

// The criterion that a table says.
fn criterion_in(depth: u32, solver: SolverName, table: &Table) -> Result<Criterion, PlanFault>
    requires { depth ≤ DEEPEST }
    ensures value { Gives result (first 9 (criterion_keys solver (table_view table.now)))
        (criterion_with depth solver (table_view table.now)) }
    ensures ranges { IfOk result (IsCriterion (parts_of solver)) }
{
    let hi = number(at(table, KeyName::Hi), 1, MOST_DIFFERENCE).ok_or(refused(
        9,
        Part::Criterion,
        0,
        KeyName::Hi,
    ))?;
    let lo = number(at(table, KeyName::Lo), 0, hi).ok_or(refused(
        9,
        Part::Criterion,
        0,
        KeyName::Lo,
    ))?;
    let most = u64::from(parts(solver) - 1);
    let watch = number_or(0, 0, most, at(table, KeyName::Watch)).ok_or(refused(
        9,
        Part::Criterion,
        0,
        KeyName::Watch,
    ))?;
    Ok(Criterion {
        hi: hi as i64,
        lo: lo as i64,
        watch: watch as u32,
        depth,
    })
}

// The criterion of a file, none where there is no such key.
fn criterion(
    depth: u32,
    solver: SolverName,
    found: Option<&Value>,
) -> Result<Option<Criterion>, PlanFault>
    requires { depth ≤ DEEPEST }
    ensures value { Gives result (first 9 (criterion_checks solver (seen found.entry)))
        (criterion_of depth solver (seen found.entry)) }
    ensures ranges { IfOk result (λ watch. IfSome watch (IsCriterion (parts_of solver))) }
{
    if found.is_none() {
        return Ok(None);
    }
    match table(found) {
        None => Err(refused(9, Part::Criterion, 0, KeyName::Whole)),
        Some(table) => match criterion_in(depth, solver, table) {
            Ok(criterion) => Ok(Some(criterion)),
            Err(fault) => Err(fault),
        },
    }
}

// The rule at the domain's edge.
fn edge_rule(solver: SolverName, document: &Table) -> Result<EdgeRule, PlanFault>
    ensures value { Gives result (first 12 (edge_checks solver (table_view document.now)))
        (edge_of solver (table_view document.now)) }
    ensures parts { IfOk result (EdgeHas (parts_of solver)) }
{
    let fixed = fixed(at(document, KeyName::Edge)).ok_or(refused(
        12,
        Part::Document,
        0,
        KeyName::Edge,
    ))?;
    edge(solver, fixed, at(document, KeyName::EdgeValue)).ok_or(refused(
        12,
        Part::Document,
        0,
        KeyName::EdgeValue,
    ))
}

// What a file says last.
fn read_tail(solver: SolverName, document: &Table) -> Result<Tail, PlanFault>
    ensures value { Gives result (tail_fault solver (table_view document.now))
        (tail_of solver (table_view document.now)) }
    ensures parts { IfOk result (λ tail. EdgeHas (parts_of solver) tail.edge) }
{
    let edge = edge_rule(solver, document)?;
    let steps = number(at(document, KeyName::Steps), 0, MOST_STEPS).ok_or(refused(
        13,
        Part::Document,
        0,
        KeyName::Steps,
    ))? as u32;
    let print_every = every(at(document, KeyName::PrintEvery)).ok_or(refused(
        14,
        Part::Document,
        0,
        KeyName::PrintEvery,
    ))?;
    let recut_every = every(at(document, KeyName::RecutEvery)).ok_or(refused(
        15,
        Part::Document,
        0,
        KeyName::RecutEvery,
    ))?;
    Ok(Tail {
        edge,
        steps,
        print_every,
        recut_every,
    })
}

/// The plan of a file of which the head is read.
pub fn read_body(alloc: Global, head: Head, document: &Table) -> Result<Plan, PlanFault>
    requires { head.depth ≤ DEEPEST }
    ensures { head ≡ head_of (table_view document.now)
        → Gives result (body_fault head.dim head.depth head.solver (table_view document.now))
        (plan_from head.dim head.depth head.solver (table_view document.now)) }
{
    let Head {
        dim,
        depth,
        base,
        solver,
    } = head;
    let rates = read_rates(dim, document)?;
    let watch = criterion(depth, solver, at(document, KeyName::Criterion))?;
    let fills = rows::<Fill>(alloc, head, at(document, KeyName::Fill))?;
    let zones = rows::<Zone>(alloc, head, at(document, KeyName::Refine))?;
    let Tail {
        edge,
        steps,
        print_every,
        recut_every,
    } = read_tail(solver, document)?;
    Ok(Plan {
        shape: Shape {
            dim,
            depth,
            base,
            zones,
        },
        fills,
        solver: named(solver, dim, rates, edge, watch),
        steps,
        print_every,
        recut_every,
    })
}
