//! A solver of one's own, run on a small grid: the file to copy from when you write yours.
#![tactic(auto)]

ghost use Rattle.std.specs.Prelude.{IfOk};
ghost use Rattle.spacetree.specs.Build.{IsShape};

mod spread;

use crate::spread::Spread;
use anyhow::Result;
use field_report::field_text;
use peano_keys::{Dim, State};
use spacetree::{Field, Fill, Grid, Listed, Shape, Zone, evaluate};
use std::alloc::Global;
use std::io;
use std::io::Write;

// How many steps are taken.
const STEPS: u32 = 2;

// A grid of three levels: nine cells, of which the middle one is refined once more.
fn shape(alloc: Global) -> Result<Shape>
    ensures { IfOk result IsShape }
{
    let mut zones = Vec::new(alloc);
    zones.push(Zone {
        level: 1,
        from: [1, 1, 0],
        to: [2, 2, 1],
        until: 2,
    })?;
    Ok(Shape {
        dim: Dim::Two,
        depth: 2,
        base: 1,
        zones: Listed::new(zones),
    })
}

// The report of the last step: at first the lowest corner has the value 5, and all else is 0.
fn report(alloc: Global) -> Result<Vec<u8>> {
    let grid = Grid::build(alloc, &shape(alloc)?)?;
    let start = Fill {
        level: 1,
        from: [0, 0, 0],
        to: [1, 1, 1],
        value: State::one(5),
    };
    let field = Field::opening(alloc, &grid, &[start], 1)?;
    let solver = Spread { dim: Dim::Two };
    let (_, after) = evaluate(alloc, &grid, &field, &solver, STEPS)?;
    let rows = after.rows(alloc)?;
    Ok(field_text(alloc, Dim::Two, STEPS, rows.as_slice())?)
}

fn main(rt: HostRuntime) -> Result<()> {
    let text = report(rt.alloc())?;
    io::writer(&rt).write_all(text.as_slice())?;
    Ok(())
}
