//! Grids that are built from shapes: counts that worked examples give, the least grid that is too large, boxes of many cells.
ghost use Rattle.std.specs.Prelude.{◌≡◌, ◌<◌, ◌≤◌, ◌^◌, All, IsTrue, IfOk};
ghost use Rattle.spacetree.specs.Build.{IsSpan, IsZone, IsShape};

use super::*;
use peano_keys::{Dim, pow3};
use std::alloc::{AllocError, Global};
use std::process::Abort;

// How many cells and leaves a grid has.
type Counts = (u64, u64);

const TOO_MANY: Option<Counts> = None;

fn is_span(level: u32, from: u32, to: u32) -> bool
    requires { level ≤ 12 }
    ensures { IsTrue result → IsSpan (3 ^ level) from to }
{
    from < to && u64::from(to) <= pow3(level)
}

fn is_zone(dim: Dim, depth: u32, zone: &Zone) -> bool
    requires { depth ≤ 12 }
    ensures { IsTrue result → IsZone dim depth zone.now }
{
    if zone.level > depth || zone.until < 1 || zone.until > depth {
        return false;
    }
    let third = match dim {
        Dim::Two => true,
        Dim::Three => is_span(zone.level, zone.from[2], zone.to[2]),
    };
    is_span(zone.level, zone.from[0], zone.to[0])
        && is_span(zone.level, zone.from[1], zone.to[1])
        && third
}

pub(crate) fn are_zones(dim: Dim, depth: u32, zones: &[Zone]) -> bool
    requires { depth ≤ 12 }
    ensures { IsTrue result → All (IsZone dim depth) zones.now }
{
    for zone in zones {
        if !is_zone(dim, depth, zone) {
            return false;
        }
    }
    true
}

// Builds a grid and compares its counts.
fn compare(
    rt: &impl Abort,
    alloc: Global,
    (dim, depth, base): (Dim, u32, u32),
    zones: &[Zone],
    want: Option<Counts>,
) -> Result<(), AllocError> {
    assert!(rt; depth <= 12 && base <= depth);
    assert!(rt; are_zones(dim, depth, zones));
    let shape = Shape {
        dim,
        depth,
        base,
        zones: Listed::new(zones.to_vec(alloc)?),
    };
    match Grid::build(alloc, &shape) {
        Ok(grid) => assert_eq!(rt; Some((grid.cell_count(), grid.leaf_count())), want),
        Err(BuildFault::TooMany) => assert_eq!(rt; TOO_MANY, want),
        Err(BuildFault::NoMemory) => panic!(rt; "no memory"),
    }
    Ok(())
}

// A box of one level, with the same coordinates on each axis.
fn cube(level: u32, from: u32, to: u32, until: u32) -> Zone {
    Zone {
        level,
        from: [from, from, from],
        to: [to, to, to],
        until,
    }
}

// A rectangle of the plane's cells of one level.
pub(crate) fn rectangle(level: u32, from: [u32; 2], to: [u32; 2], until: u32) -> Zone {
    Zone {
        level,
        from: [from[0], from[1], 0],
        to: [to[0], to[1], 0],
        until,
    }
}

#[test]
fn worked_shapes(rt: HostRuntime) -> Result<(), AllocError> {
    let centre = rectangle(1, [1, 1], [2, 2], 2);
    let corner = rectangle(1, [0, 0], [1, 1], 2);
    let deeper = rectangle(2, [3, 4], [4, 5], 3);
    let plane = Dim::Two;
    compare(&rt, rt.alloc(), (plane, 0, 0), &[], Some((1, 1)))?;
    compare(&rt, rt.alloc(), (plane, 2, 2), &[], Some((91, 81)))?;
    compare(&rt, rt.alloc(), (plane, 2, 1), &[centre], Some((19, 17)))?;
    compare(
        &rt,
        rt.alloc(),
        (plane, 3, 1),
        &[centre, deeper],
        Some((28, 25)),
    )?;
    compare(
        &rt,
        rt.alloc(),
        (plane, 2, 1),
        &[corner, centre],
        Some((28, 25)),
    )?;
    compare(&rt, rt.alloc(), (Dim::Three, 1, 1), &[], Some((28, 27)))?;
    compare(
        &rt,
        rt.alloc(),
        (Dim::Three, 2, 1),
        &[cube(1, 0, 1, 2)],
        Some((55, 53)),
    )
}

#[test]
fn at_the_limit(rt: HostRuntime) -> Result<(), AllocError> {
    let wide = rectangle(5, [0, 0], [61, 243], 6);
    let last = rectangle(5, [61, 0], [62, 18], 6);
    let over = rectangle(5, [61, 0], [62, 19], 6);
    compare(
        &rt,
        rt.alloc(),
        (Dim::Two, 6, 5),
        &[wide, last],
        Some((199_999, 177_777)),
    )?;
    compare(&rt, rt.alloc(), (Dim::Two, 6, 5), &[wide, over], TOO_MANY)
}

#[test]
fn boxes_of_many_cells(rt: HostRuntime) -> Result<(), AllocError> {
    let shallow = cube(8, 0, 6561, 1);
    let deepest = cube(12, 0, 1, 12);
    let all = cube(12, 0, 531_441, 12);
    compare(&rt, rt.alloc(), (Dim::Two, 8, 0), &[shallow], Some((10, 9)))?;
    compare(
        &rt,
        rt.alloc(),
        (Dim::Three, 8, 0),
        &[shallow],
        Some((28, 27)),
    )?;
    compare(
        &rt,
        rt.alloc(),
        (Dim::Two, 12, 0),
        &[deepest],
        Some((109, 97)),
    )?;
    compare(
        &rt,
        rt.alloc(),
        (Dim::Three, 12, 0),
        &[deepest],
        Some((325, 313)),
    )?;
    compare(&rt, rt.alloc(), (Dim::Three, 12, 0), &[all], TOO_MANY)
}
