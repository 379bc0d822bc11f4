//! Worked files by several numbers of trees and of helpers, against the plain evaluator.
use crate::beside::{compare, compare_last};
use crate::files::*;
use peano_keys::CellKey;
use spacetree::EvalFault;
use std::alloc::{AllocError, Global};
use std::process::Abort;
use std::thread::Threads;

const FEW: [u32; 4] = [1, 2, 3, 7];

const MANY: [u32; 1] = [64];

const WORKERS: [u32; 3] = [0, 1, 16];

// A step overflows at a cell of level 1.
fn overflow(step: u32, x: [u32; 3]) -> Result<(u64, u64), EvalFault> {
    Err(EvalFault::Overflow {
        step,
        key: CellKey { level: 1, x },
    })
}

// Each worked file, and how many leaves there are at first and in the end.
const WORKED: [(&str, &str, u64, u64); 17] = [
    ("single cell", SINGLE_CELL, 1, 1),
    ("nine leaves", NINE_LEAVES, 9, 9),
    ("floored", FLOORED, 9, 9),
    ("fixed edge", FIXED_EDGE, 9, 9),
    ("wind", WIND, 9, 9),
    ("wave", WAVE, 9, 9),
    ("refined centre", REFINED_CENTRE, 17, 17),
    ("space", SPACE, 27, 27),
    ("three levels", THREE_LEVELS, 25, 25),
    ("two refined", TWO_REFINED, 25, 25),
    ("inflow", INFLOW, 17, 57),
    ("kept child", KEPT_CHILD, 25, 25),
    ("kept at lo", KEPT_AT_LO, 25, 25),
    ("not kept", NOT_KEPT, 25, 9),
    ("flat", FLAT, 81, 81),
    ("deep", DEEP, 65, 65),
    ("means", MEANS, 33, 41),
];

// Files that only the second version can say.
const OF_SECOND_VERSION: [(&str, &str, u64, u64); 3] = [
    ("inflow, cut anew", INFLOW_RECUT, 17, 57),
    ("deep corner", DEEP_CORNER, 97, 97),
    ("deep corner that fades, cut anew", DEEP_FADING, 97, 73),
];

// Worlds of so many trees and with so many helpers are where the evaluation of each worked file is, where the trees are cut
// anew after every so many steps and where they never are.
fn expect_worked<R: Abort + Threads + Sync>(
    rt: &R,
    alloc: Global,
    recut: Option<u32>,
    trees: &[u32],
    workers: &[u32],
) -> Result<(), AllocError> {
    for (name, file, first, last) in WORKED {
        let file = with_recuts(alloc, file, recut)?;
        assert_eq!(rt;
            compare(rt, alloc, file.as_str(), trees, workers),
            Ok((first, last)),
            "{name}"
        );
    }
    Ok(())
}

#[test]
fn worlds_of_few_trees_are_where_the_evaluation_is(rt: HostRuntime) -> Result<(), AllocError> {
    expect_worked(&rt, rt.alloc(), None, &FEW, &WORKERS)
}

#[test]
fn worlds_of_many_trees_are_where_the_evaluation_is(rt: HostRuntime) -> Result<(), AllocError> {
    expect_worked(&rt, rt.alloc(), None, &MANY, &[0, 1])
}

#[test]
fn worlds_of_many_trees_with_many_helpers_are_where_the_evaluation_is(
    rt: HostRuntime,
) -> Result<(), AllocError> {
    expect_worked(&rt, rt.alloc(), None, &MANY, &[16])
}

#[test]
fn worlds_that_are_cut_anew_are_where_the_evaluation_is(rt: HostRuntime) -> Result<(), AllocError> {
    expect_worked(&rt, rt.alloc(), Some(1), &[1, 3, 64], &[0])
}

#[test]
fn worlds_of_the_second_version_are_where_the_evaluation_is(rt: HostRuntime) {
    for (name, file, first, last) in OF_SECOND_VERSION {
        let leaves = compare(&rt, rt.alloc(), file, &[1, 2, 7, 64], &[0]);
        assert_eq!(rt; leaves, Ok((first, last)), "{name}");
    }
}

// Worlds of so many trees and with so many helpers are refused as the evaluation is.
fn expect_refusals<R: Abort + Threads + Sync>(
    rt: &R,
    alloc: Global,
    trees: &[u32],
    workers: &[u32],
) {
    let crowded = Err(EvalFault::Crowded {
        step: 1,
        cells: 215_056,
    });
    let table = [
        ("overflows", OVERFLOWS, overflow(1, [0, 1, 0])),
        ("overflows late", OVERFLOWS_LATE, overflow(11, [0, 0, 0])),
        (
            "overflows in space",
            OVERFLOWS_IN_SPACE,
            overflow(1, [0, 1, 1]),
        ),
        ("crowded", CROWDED, crowded),
    ];
    for (name, file, want) in table {
        assert_eq!(rt; compare(rt, alloc, file, trees, workers), want, "{name}");
    }
}

#[test]
fn worlds_of_few_trees_are_refused_as_the_evaluation_is(rt: HostRuntime) {
    expect_refusals(&rt, rt.alloc(), &FEW, &[0, 1]);
}

#[test]
fn worlds_of_many_trees_are_refused_as_the_evaluation_is(rt: HostRuntime) {
    expect_refusals(&rt, rt.alloc(), &MANY, &[0, 1]);
}

// A refusal that comes after trees were cut anew.
#[test]
fn worlds_that_were_cut_anew_are_refused_as_the_evaluation_is(
    rt: HostRuntime,
) -> Result<(), AllocError> {
    let alloc = rt.alloc();
    for every in [1, 4] {
        let file = with_recuts(alloc, OVERFLOWS_LATE, Some(every))?;
        let found = compare(&rt, alloc, file.as_str(), &[2, 7], &[0]);
        assert_eq!(rt; found, overflow(11, [0, 0, 0]));
    }
    Ok(())
}

// Files whose worlds are shown in the end alone.
#[test]
fn worlds_that_are_shown_last_are_where_the_evaluation_ends(
    rt: HostRuntime,
) -> Result<(), AllocError> {
    let alloc = rt.alloc();
    for file in [INFLOW, MEANS, NOT_KEPT, TWO_REFINED, WAVE, OVERFLOWS_LATE] {
        compare_last(&rt, alloc, file, &FEW, &[0])?;
        compare_last(&rt, alloc, file, &MANY, &[0])?;
    }
    compare_last(&rt, alloc, ADAPTIVE_WAVE, &[2], &[0])
}

// A wave of many steps, by several trees and helpers.
#[test]
fn a_wave_with_helpers_is_where_the_evaluation_ends(rt: HostRuntime) -> Result<(), AllocError> {
    compare_last(&rt, rt.alloc(), ADAPTIVE_WAVE, &[4], &[3])
}

// The same wave by trees that are cut anew as it goes on.
#[test]
fn a_wave_whose_trees_are_cut_anew_is_where_the_evaluation_ends(
    rt: HostRuntime,
) -> Result<(), AllocError> {
    let alloc = rt.alloc();
    let file = with_recuts(alloc, ADAPTIVE_WAVE, Some(7))?;
    compare_last(&rt, alloc, file.as_str(), &[4], &[3])
}

// As many cells as there may be.
#[test]
fn worlds_of_the_largest_grid_open_as_the_evaluation_does(rt: HostRuntime) {
    for trees in [1, 2, 7, 64] {
        let leaves = compare(&rt, rt.alloc(), LARGEST, &[trees], &[0]);
        assert_eq!(rt; leaves, Ok((177_777, 177_777)), "{trees} trees");
    }
}
