//! The plan of a demonstration.
ghost use Rattle.std.specs.Prelude.{◌≡◌, IfOk};
ghost use Rattle.grid_file.specs.Valid.{IsPlan};
ghost use Rattle.demonstration.specs.Demo.{demo, demo_solver};

use crate::draws::Draws;
use grid_file::Plan;
use peano_keys::Dim;
use solver_api::Criterion;
use spacetree::{Listed, Shape};
use std::alloc::{AllocError, Global};
use volume_solver::{AnySolver, Diffuse, EdgeRule};

// How many fills there are.
const FILLS: u32 = 12;

// How many boxes to refine.
const ZONES: u32 = 8;

// The solver of each demonstration: one step moves no value beyond those that its leaf sees.
fn solver() -> AnySolver
    ensures { result ≡ demo_solver }
{
    let watch = Criterion {
        hi: 100,
        lo: 5,
        watch: 0,
        depth: 5,
    };
    AnySolver::Diffuse(Diffuse::new(Dim::Two, 1, 295_245, EdgeRule::Copy, Some(watch)))
}

/// The plan of demonstration `n`, any number: a plane with 12 fills of random values from -1000 to 1000 and 8 random boxes
/// that are refined, which adapts between levels 0 and 5 over 20 steps. It is within the ranges of a file's plan.
pub fn demo_plan(alloc: Global, n: u64) -> Result<Plan, AllocError>
    ensures value { IfOk result (λ plan. plan ≡ demo n) }
    ensures valid { IfOk result IsPlan }
{
    let mut draws = Draws { number: n };
    let mut fills = Vec::with_capacity(alloc, FILLS as usize)?;
    for _fill in 0..FILLS {
        fills.push(draws.fill())?;
    }
    let mut zones = Vec::with_capacity(alloc, ZONES as usize)?;
    for _zone in 0..ZONES {
        zones.push(draws.zone())?;
    }
    Ok(Plan {
        shape: Shape {
            dim: Dim::Two,
            depth: 5,
            base: 3,
            zones: Listed::new(zones),
        },
        fills: Listed::new(fills),
        solver: solver(),
        steps: 20,
        print_every: None,
        recut_every: None,
    })
}
