//! Times the visits of a sweep: the enter and the leave of each cell of a tree that holds the whole domain, with a visitor
//! that changes nothing. Without words it runs shortly and tells no times; with the number of passes it tells the least
//! time of a pass, in nanoseconds a visit.
#![tactic(auto)]

ghost use Rattle.std.specs.Prelude.{◌≡◌};
ghost use Rattle.curve_cuts.specs.Cuts.{IsCutGrid};
ghost use Rattle.curve_cuts.specs.Keys.{cuts_of};
ghost use Rattle.spacetree.specs.Build.{IsShape};
ghost use Rattle.spacetree.specs.Fields.{IsFieldOn};

mod domain;
mod idle;

use crate::domain::{corner, middle, one_tree, raised};
use crate::idle::Idle;
use anyhow::Result;
use curve_cuts::Keys;
use peano_keys::Dim;
use spacetree::{Field, Grid, Shape};
use std::alloc::Global;
use std::time::{Clock, Instant};
use std::{env, io};
use tree_automaton::sweep;
use vertex_stacks::Kind;

// What was measured: how many cells were visited in a pass, and the least time of a pass.
#[derive(Clone, Copy)]
struct Figure {
    visits: u64,
    nanos: u64,
}

fn nanos(clock: &impl Clock, start: &Instant) -> io::Result<u64> {
    let spent = start.elapsed(clock)?;
    Ok(u64::try_from(spent.as_nanos()).unwrap_or(u64::MAX))
}

// Sweeps a tree that holds the whole domain, so often, each time from a store that was raised for it.
fn time_sweeps<R: Clock + Alloc<A = Global>>(
    rt: &R,
    grid: &Grid,
    field: &Field,
    keys: &Keys,
    passes: u32,
) -> Result<Figure>
    requires grid { IsCutGrid (cuts_of keys.now) grid.now }
    requires one { (cuts_of keys.now).trees ≡ 1 }
    requires field { IsFieldOn 1 grid.now field.now }
{
    let mut figure = Figure {
        visits: 0,
        nanos: u64::MAX,
    };
    for _ in 0..passes {
        let mut store = raised(rt.alloc(), grid, field, keys)?;
        figure.visits = store.cell_count();
        let mut visitor = Idle { dim: grid.dim() };
        let start = Instant::now(rt)?;
        let _note = sweep(&mut store, &mut visitor, 0, Kind::Show)?;
        let spent = nanos(rt, &start)?;
        let each = spent.checked_div(figure.visits).unwrap_or(u64::MAX);
        if each < figure.nanos {
            figure.nanos = each;
        }
    }
    Ok(figure)
}

// Times the grid of a shape, and prints its figure: with its time, or with its visits alone.
fn tell<R: Clock + Alloc<A = Global> + Print>(
    rt: &R,
    name: &str,
    shape: &Shape,
    passes: Option<u32>,
) -> Result<()>
    requires { IsShape shape.now }
{
    let alloc = rt.alloc();
    let grid = Grid::build(alloc, shape)?;
    let field = Field::opening(alloc, &grid, &[], 1)?;
    let Some(keys) = one_tree(alloc, shape.dim, shape.depth)? else {
        return Ok(());
    };
    match passes {
        Some(passes) => {
            let figure = time_sweeps(rt, &grid, &field, &keys, passes)?;
            println!(rt; "{name}: {} ns, {} visits", figure.nanos, figure.visits)?;
        }
        None => {
            let figure = time_sweeps(rt, &grid, &field, &keys, 1)?;
            println!(rt; "{name}: {} visits", figure.visits)?;
        }
    }
    Ok(())
}

fn main(rt: HostRuntime) -> Result<()> {
    let mut words = env::args(&rt)?;
    let _program = words.next();
    let passes = match words.next() {
        Some(text) => text.as_str().parse::<u32>().ok(),
        None => None,
    };
    let alloc = rt.alloc();
    match passes {
        Some(_) => {
            tell(
                &rt,
                "plane, level 4",
                &middle(alloc, Dim::Two, 4, 4)?,
                passes,
            )?;
            tell(
                &rt,
                "plane, level 5",
                &middle(alloc, Dim::Two, 5, 5)?,
                passes,
            )?;
            tell(
                &rt,
                "plane, adaptive",
                &middle(alloc, Dim::Two, 5, 3)?,
                passes,
            )?;
            tell(
                &rt,
                "space, level 3",
                &middle(alloc, Dim::Three, 3, 3)?,
                passes,
            )?;
            tell(
                &rt,
                "plane, deep region",
                &corner(alloc, Dim::Two, 7)?,
                passes,
            )?;
            tell(
                &rt,
                "plane, deep corner",
                &corner(alloc, Dim::Two, 12)?,
                passes,
            )?;
            tell(
                &rt,
                "space, deep region",
                &corner(alloc, Dim::Three, 9)?,
                passes,
            )?;
            tell(
                &rt,
                "space, deep corner",
                &corner(alloc, Dim::Three, 12)?,
                passes,
            )?;
        }
        None => {
            tell(
                &rt,
                "plane, level 1",
                &middle(alloc, Dim::Two, 1, 1)?,
                passes,
            )?;
            tell(
                &rt,
                "plane, adaptive",
                &middle(alloc, Dim::Two, 2, 1)?,
                passes,
            )?;
            tell(
                &rt,
                "space, level 1",
                &middle(alloc, Dim::Three, 1, 1)?,
                passes,
            )?;
            tell(
                &rt,
                "plane, deep corner",
                &corner(alloc, Dim::Two, 12)?,
                passes,
            )?;
        }
    }
    Ok(())
}
