//! Sweeps that are refused a request for memory: made again, they end as with ample memory. In the gate nothing is refused;
//! `tools/refuse_memory_in_sweeps.py` runs this test once for each request, and refuses it.

use crate::adapting::compare_step;
use crate::grids::{Wish, field_of, opened};
use crate::rows::show_rows;
use crate::showing::expect_one;
use crate::trees::{counts, expect_cut, keys_of, raise};
use peano_keys::Dim;
use std::alloc::{AllocError, Global};
use std::process::Abort;
use vertex_stacks::Kind;

// What was refused a request: a sweep, or what is there before it.
#[derive(Clone, Copy, Debug)]
enum Refused {
    Opening,
    Raising,
    Adapting,
    Showing,
}

// Raises one of some trees over the grid with the refined centre, and adapts it so that cells split and one merges. Compares
// what is put and pushed when it is raised, and what moves and is there when it is adapted.
fn adapt_raised(
    rt: &impl Abort,
    alloc: Global,
    dim: Dim,
    (trees, tree): (u32, u32),
    raised: [u64; 2],
    changed: [u64; 5],
) -> Result<(), Refused> {
    let Ok(grid) = opened(alloc, dim, 1, true) else {
        return Err(Refused::Opening);
    };
    let Ok(field) = field_of(alloc, &grid) else {
        return Err(Refused::Opening);
    };
    let Ok(keys) = keys_of(rt, alloc, &grid, trees) else {
        return Err(Refused::Opening);
    };
    let Ok((mut store, note)) = raise(rt, alloc, &grid, &field, &keys, tree) else {
        return Err(Refused::Raising);
    };
    assert_eq!(rt; [note.put(), note.pushed()], raised);
    let wished = ("made again", Wish::Change, changed);
    match compare_step(rt, alloc, &mut store, &keys, &grid, &field, wished) {
        Ok(_) => Ok(()),
        Err(_) if store.is_live() => Err(Refused::Opening),
        Err(_) => Err(Refused::Adapting),
    }
}

// Raises a tree that has all of the grid with the refined centre, and shows it. Compares its traffic.
fn show_raised(rt: &impl Abort, alloc: Global, dim: Dim, traffic: [u64; 6]) -> Result<(), Refused> {
    let Ok(grid) = opened(alloc, dim, 1, true) else {
        return Err(Refused::Opening);
    };
    let Ok(field) = field_of(alloc, &grid) else {
        return Err(Refused::Opening);
    };
    let Ok(keys) = keys_of(rt, alloc, &grid, 1) else {
        return Err(Refused::Opening);
    };
    expect_one(rt, &keys);
    expect_cut(rt, &grid, &keys);
    let Ok((mut store, _)) = raise(rt, alloc, &grid, &field, &keys, 0) else {
        return Err(Refused::Raising);
    };
    match show_rows(
        rt,
        alloc,
        &mut store,
        &grid,
        &field,
        &keys,
        Kind::Show,
        traffic,
    ) {
        Ok(_) => Ok(()),
        Err(_) => Err(Refused::Showing),
    }
}

// Trees of the plane and of space that have all, and one of two trees.
fn sweep_all(rt: &impl Abort, alloc: Global) -> Result<(), Refused> {
    let table = [
        (Dim::Two, (1, 0), [24, 32], [24, 47, 90, 33, 37]),
        (Dim::Two, (2, 1), [19, 15], [19, 24, 31, 13, 15]),
        (Dim::Three, (1, 0), [80, 208], [80, 180, 675, 131, 136]),
    ];
    for (dim, tree, raised, changed) in table {
        adapt_raised(rt, alloc, dim, tree, raised, changed)?;
    }
    show_raised(rt, alloc, Dim::Two, [19, 24, 32, 20, 1, 16])?;
    show_raised(rt, alloc, Dim::Three, [55, 80, 208, 152, 1, 52])
}

// Tells what was refused, which is made again then.
#[test]
fn what_is_refused_is_made_again(rt: HostRuntime) -> Result<(), AllocError> {
    let alloc = rt.alloc();
    let Err(refused) = sweep_all(&rt, alloc) else {
        return Ok(());
    };
    let _told = eprintln!(rt; "{refused:?}");
    match sweep_all(&rt, alloc) {
        Ok(()) => Ok(()),
        Err(_) => Err(AllocError),
    }
}
