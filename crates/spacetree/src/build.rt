//! The refined cells of the opening grid of a shape, found from the root down.
ghost use Rattle.std.specs.Prelude.{◌≡◌, ◌*◌, ◌^◌, ◌<◌, ◌≤◌, true, All, IfOk, IfErr, OnOk, filter};
ghost use Rattle.std.specs.FinSet as set;
ghost use Rattle.peano_keys.specs.Cell.{IsCell};
ghost use Rattle.spacetree.specs.Counts.{cells_for};
ghost use Rattle.spacetree.specs.Digits.{IsKept};
ghost use Rattle.spacetree.specs.Opening.{OpensRefined, overlaps, zone_refines};
ghost use Rattle.spacetree.specs.Build.{IsZone, IsShape, HasOpened, HasAllOpened, HasOpenedUnder, StandsFor, BuildFails};

use crate::cells::CellSet;
use crate::digits::nth_digits;
use crate::fault::BuildFault;
use crate::limits::MOST_CELLS;
use crate::shape::{Shape, Zone};
use peano_keys::{CellKey, Dim, child, child_count, pow3, root};
use std::alloc::{AllocError, Global};

// Whether the inside of a cell meets an interval of cells of another level, on one axis.
#[tactic(auto, using(crate::proofs::Boxes::scaled_fits, peano_keys::proofs::Powers::pow3_by_12))]
fn overlaps(level: u32, x: u32, zone_level: u32, from: u32, to: u32) -> bool
    requires level { level ≤ 12 }
    requires zone_level { zone_level ≤ 12 }
    requires inside { x < 3 ^ level }
    requires order { from < to }
    requires end { to ≤ 3 ^ zone_level }
    ensures { result ≡ overlaps level x zone_level from to }
{
    let width = pow3(zone_level);
    let zone_width = pow3(level);
    let start = (u64::from(x) * width).max(u64::from(from) * zone_width);
    let end = ((u64::from(x) + 1) * width).min(u64::from(to) * zone_width);
    start < end
}

// Whether a zone refines a cell.
fn zone_refines(dim: Dim, depth: u32, zone: &Zone, key: &CellKey) -> bool
    requires cell { IsCell dim key.now }
    requires depth { depth ≤ 12 }
    requires zone { IsZone dim depth zone.now }
    ensures { result ≡ zone_refines dim key.now zone.now }
{
    if key.level >= zone.until {
        return false;
    }
    let third = match dim {
        Dim::Two => true,
        Dim::Three => overlaps(key.level, key.x[2], zone.level, zone.from[2], zone.to[2]),
    };
    overlaps(key.level, key.x[0], zone.level, zone.from[0], zone.to[0])
        && overlaps(key.level, key.x[1], zone.level, zone.from[1], zone.to[1])
        && third
}

// The zones that refine a cell.
fn refining(
    alloc: Global,
    dim: Dim,
    depth: u32,
    zones: &[Zone],
    key: &CellKey,
) -> Result<Vec<Zone>, AllocError>
    requires cell { IsCell dim key.now }
    requires depth { depth ≤ 12 }
    requires zones { All (IsZone dim depth) zones.now }
    ensures { IfOk result (λ found. found.items ≡ filter (zone_refines dim key.now) zones.now) }
{
    let mut found = Vec::new(alloc);
    for zone in zones {
        if zone_refines(dim, depth, zone, key) {
            found.push(*zone)?;
        }
    }
    Ok(found)
}

// Adds a refined cell, unless the grid then has too many cells.
fn add(cells: &mut CellSet, shape: &Shape, key: CellKey) -> Result<(), BuildFault>
    requires opened { OpensRefined shape.now key }
    requires within { HasOpened shape.now cells.old }
    ensures within { OnOk result (HasOpened shape.now cells.new) }
    ensures kept { OnOk result (IsKept cells.old cells.new) }
    ensures added { OnOk result (set.contains cells.new key ≡ true) }
    ensures fits { OnOk result (cells_for shape.now.dim (set.len cells.new) ≤ MOST_CELLS) }
    ensures fault { IfErr result (BuildFails shape.now) }
{
    cells.insert(key)?;
    if cells.len() > (MOST_CELLS - 1) / u64::from(child_count(shape.dim)) {
        return Err(BuildFault::TooMany);
    }
    Ok(())
}

// Adds the refined cells among a cell and those below it, by the zones that matter there.
fn add_under(
    alloc: Global,
    cells: &mut CellSet,
    shape: &Shape,
    zones: &[Zone],
    key: CellKey,
) -> Result<(), BuildFault>
    requires shape { IsShape shape.now }
    requires cell { IsCell shape.now.dim key }
    requires zones { StandsFor shape.now key zones.now }
    requires within { HasOpened shape.now cells.old }
    requires fits { cells_for shape.now.dim (set.len cells.old) ≤ MOST_CELLS }
    ensures within { OnOk result (HasOpened shape.now cells.new) }
    ensures kept { OnOk result (IsKept cells.old cells.new) }
    ensures under { OnOk result (HasOpenedUnder shape.now key cells.new) }
    ensures fits { OnOk result (cells_for shape.now.dim (set.len cells.new) ≤ MOST_CELLS) }
    ensures fault { IfErr result (BuildFails shape.now) }
{
    let here = refining(alloc, shape.dim, shape.depth, zones, &key)?;
    if key.level >= shape.base && here.is_empty() {
        return Ok(());
    }
    add(cells, shape, key)?;
    for n in 0..child_count(shape.dim) {
        add_under(
            alloc,
            cells,
            shape,
            here.as_slice(),
            child(key, nth_digits(shape.dim, n)),
        )?;
    }
    Ok(())
}

// The refined cells of the opening grid of a shape.
pub(crate) fn refined_cells(alloc: Global, shape: &Shape) -> Result<CellSet, BuildFault>
    requires { IsShape shape.now }
    ensures within { IfOk result (HasOpened shape.now) }
    ensures all { IfOk result (HasAllOpened shape.now) }
    ensures fits { IfOk result (λ cells. cells_for shape.now.dim (set.len cells) ≤ MOST_CELLS) }
    ensures fault { IfErr result (BuildFails shape.now) }
{
    let mut cells = CellSet::new(alloc);
    add_under(alloc, &mut cells, shape, shape.zones.as_slice(), root())?;
    Ok(cells)
}
