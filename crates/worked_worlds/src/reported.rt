//! What worlds of worked files report of their trees, and the notes of their sweeps.
ghost use Rattle.grid_file.specs.Valid.{IsPlan};

use crate::beside::advance;
use crate::files::*;
use crate::opening::{opened, plan_of, started};
use field_report::{Traffic, field_text, traffic_text};
use grid_file::{Plan, is_printed};
use peano_keys::Dim;
use spacetree::EvalFault;
use std::alloc::{AllocError, Global};
use std::process::Abort;
use std::thread::Threads;
use step_driver::World;
use vertex_stacks::{Kind, SweepNote};
use volume_solver::AnySolver;

// What a report has of each printed step: traffic alone, or the field before it.
#[derive(Clone, Copy, PartialEq, Eq)]
enum Shows {
    Traffic,
    All,
}

// A note: the step, the kind and the tree, and what the sweep took, put and pushed.
type Counted = (u32, Kind, u32, [u64; 3]);

// Inflow by two trees: the step in which the centre merges, and the one in which it splits.
const INFLOW_NOTES: [Counted; 20] = [
    (0, Kind::Raise, 0, [0, 18, 12]),
    (0, Kind::Raise, 1, [0, 19, 15]),
    (0, Kind::Show, 0, [18, 18, 12]),
    (0, Kind::Show, 1, [19, 19, 15]),
    (1, Kind::Primary, 0, [18, 18, 12]),
    (1, Kind::Primary, 1, [19, 19, 15]),
    (1, Kind::Secondary, 0, [18, 18, 12]),
    (1, Kind::Secondary, 1, [19, 19, 15]),
    (1, Kind::Adapt, 0, [18, 15, 12]),
    (1, Kind::Adapt, 1, [19, 15, 15]),
    (1, Kind::Show, 0, [15, 15, 9]),
    (1, Kind::Show, 1, [15, 15, 9]),
    (2, Kind::Primary, 0, [15, 15, 9]),
    (2, Kind::Primary, 1, [15, 15, 9]),
    (2, Kind::Secondary, 0, [15, 15, 9]),
    (2, Kind::Secondary, 1, [15, 15, 9]),
    (2, Kind::Adapt, 0, [15, 68, 104]),
    (2, Kind::Adapt, 1, [15, 36, 38]),
    (2, Kind::Show, 0, [68, 68, 104]),
    (2, Kind::Show, 1, [36, 36, 38]),
];

// The same by trees that are cut anew after each step: each is swept once more, and raised.
const INFLOW_RECUT_NOTES: [Counted; 28] = [
    (0, Kind::Raise, 0, [0, 18, 12]),
    (0, Kind::Raise, 1, [0, 19, 15]),
    (0, Kind::Show, 0, [18, 18, 12]),
    (0, Kind::Show, 1, [19, 19, 15]),
    (1, Kind::Primary, 0, [18, 18, 12]),
    (1, Kind::Primary, 1, [19, 19, 15]),
    (1, Kind::Secondary, 0, [18, 18, 12]),
    (1, Kind::Secondary, 1, [19, 19, 15]),
    (1, Kind::Adapt, 0, [18, 15, 12]),
    (1, Kind::Adapt, 1, [19, 15, 15]),
    (1, Kind::Recut, 0, [15, 15, 9]),
    (1, Kind::Recut, 1, [15, 15, 9]),
    (1, Kind::Raise, 0, [0, 14, 6]),
    (1, Kind::Raise, 1, [0, 15, 9]),
    (1, Kind::Show, 0, [14, 14, 6]),
    (1, Kind::Show, 1, [15, 15, 9]),
    (2, Kind::Primary, 0, [14, 14, 6]),
    (2, Kind::Primary, 1, [15, 15, 9]),
    (2, Kind::Secondary, 0, [14, 14, 6]),
    (2, Kind::Secondary, 1, [15, 15, 9]),
    (2, Kind::Adapt, 0, [14, 62, 96]),
    (2, Kind::Adapt, 1, [15, 36, 48]),
    (2, Kind::Recut, 0, [62, 62, 96]),
    (2, Kind::Recut, 1, [36, 36, 48]),
    (2, Kind::Raise, 0, [0, 56, 76]),
    (2, Kind::Raise, 1, [0, 45, 69]),
    (2, Kind::Show, 0, [56, 56, 76]),
    (2, Kind::Show, 1, [45, 45, 69]),
];

const CENTRE_NOTES: [Counted; 2] = [
    (0, Kind::Raise, 0, [0, 24, 32]),
    (0, Kind::Show, 0, [24, 24, 32]),
];

// Nine leaves by two trees: a step that is refused ends with its secondary sweeps.
const OVERFLOW_NOTES: [Counted; 6] = [
    (0, Kind::Raise, 0, [0, 14, 6]),
    (0, Kind::Raise, 1, [0, 15, 9]),
    (1, Kind::Primary, 0, [14, 14, 6]),
    (1, Kind::Primary, 1, [15, 15, 9]),
    (1, Kind::Secondary, 0, [14, 14, 6]),
    (1, Kind::Secondary, 1, [15, 15, 9]),
];

// A world of so many trees at the opening of a plan.
fn world_of<R: Abort + Threads + Sync>(
    rt: &R,
    alloc: Global,
    plan: &Plan,
    trees: u32,
) -> Result<World<AnySolver>, AllocError>
    requires { IsPlan plan.now }
{
    let (grid, field) = opened(rt, alloc, plan)?;
    started(rt, alloc, plan, &grid, &field, trees)
}

// Adds the blocks of a step to a report.
fn add_blocks<R: Abort + Threads + Sync>(
    rt: &R,
    alloc: Global,
    world: &mut World<AnySolver>,
    dim: Dim,
    shows: Shows,
    report: &mut Vec<u8>,
) -> Result<(), AllocError> {
    assert!(rt; world.is_live());
    let shown = world.show(rt, alloc)?;
    if shows == Shows::All {
        let block = field_text(alloc, dim, shown.step, shown.rows.as_slice())?;
        report.extend_from_slice(block.as_slice())?;
    }
    let block = traffic_text(alloc, shown.step, shown.traffic.as_slice())?;
    report.extend_from_slice(block.as_slice())?;
    Ok(())
}

// The report of a world that takes the steps of a plan.
fn report_of<R: Abort + Threads + Sync>(
    rt: &R,
    alloc: Global,
    plan: &Plan,
    world: &mut World<AnySolver>,
    shows: Shows,
) -> Result<Vec<u8>, EvalFault> {
    let mut report = Vec::new(alloc);
    for step in 0..=plan.steps {
        if step > 0 {
            advance(rt, alloc, world, 1)?;
        }
        if is_printed(plan, step) {
            add_blocks(rt, alloc, world, plan.shape.dim, shows, &mut report)?;
        }
    }
    Ok(report)
}

// A name, a file, so many trees, what is shown, and the report.
type Reported = (&'static str, &'static str, u32, Shows, &'static str);

const REPORTS: [Reported; 9] = [
    (
        "space",
        SPACE,
        1,
        Shows::Traffic,
        "traffic 1 trees 1\ntree 0 cells 28 stored 72 pushes 152 hanging 0 enclave 27 skeleton 0 sent 0\n",
    ),
    (
        "nine leaves",
        NINE_LEAVES,
        1,
        Shows::Traffic,
        "traffic 1 trees 1\ntree 0 cells 10 stored 20 pushes 20 hanging 0 enclave 9 skeleton 0 sent 0\n",
    ),
    (
        "nine leaves of two trees",
        NINE_LEAVES,
        2,
        Shows::Traffic,
        "traffic 1 trees 2\ntree 0 cells 5 stored 14 pushes 6 hanging 0 enclave 0 skeleton 4 sent 9\ntree 1 cells 6 stored 15 pushes 9 hanging 0 enclave 1 skeleton 4 sent 9\n",
    ),
    (
        "refined centre",
        REFINED_CENTRE,
        1,
        Shows::Traffic,
        "traffic 0 trees 1\ntree 0 cells 19 stored 24 pushes 32 hanging 20 enclave 1 skeleton 16 sent 0\n",
    ),
    (
        "two refined",
        TWO_REFINED,
        2,
        Shows::Traffic,
        "traffic 2 trees 2\ntree 0 cells 14 stored 23 pushes 22 hanging 11 enclave 4 skeleton 8 sent 9\ntree 1 cells 15 stored 19 pushes 21 hanging 20 enclave 1 skeleton 12 sent 9\n",
    ),
    (
        "inflow",
        INFLOW,
        2,
        Shows::Traffic,
        "traffic 0 trees 2\ntree 0 cells 10 stored 18 pushes 12 hanging 10 enclave 0 skeleton 8 sent 13\ntree 1 cells 11 stored 19 pushes 15 hanging 10 enclave 0 skeleton 9 sent 13\ntraffic 1 trees 2\ntree 0 cells 6 stored 15 pushes 9 hanging 0 enclave 0 skeleton 4 sent 10\ntree 1 cells 6 stored 15 pushes 9 hanging 0 enclave 0 skeleton 5 sent 10\ntraffic 2 trees 2\ntree 0 cells 46 stored 68 pushes 104 hanging 12 enclave 24 skeleton 16 sent 24\ntree 1 cells 20 stored 36 pushes 38 hanging 6 enclave 2 skeleton 15 sent 24\n",
    ),
    (
        "inflow, cut anew",
        INFLOW_RECUT,
        2,
        Shows::Traffic,
        "traffic 0 trees 2\ntree 0 cells 10 stored 18 pushes 12 hanging 10 enclave 0 skeleton 8 sent 13\ntree 1 cells 11 stored 19 pushes 15 hanging 10 enclave 0 skeleton 9 sent 13\ntraffic 1 trees 2\ntree 0 cells 5 stored 14 pushes 6 hanging 0 enclave 0 skeleton 4 sent 9\ntree 1 cells 6 stored 15 pushes 9 hanging 0 enclave 1 skeleton 4 sent 9\ntraffic 2 trees 2\ntree 0 cells 33 stored 56 pushes 76 hanging 0 enclave 18 skeleton 10 sent 21\ntree 1 cells 33 stored 45 pushes 69 hanging 18 enclave 7 skeleton 22 sent 21\n",
    ),
    (
        "single cell",
        SINGLE_CELL,
        3,
        Shows::All,
        "step 0 leaves 1\n0 0 0 7\ntraffic 0 trees 3\ntree 0 cells 0 stored 0 pushes 0 hanging 0 enclave 0 skeleton 0 sent 0\ntree 1 cells 0 stored 0 pushes 0 hanging 0 enclave 0 skeleton 0 sent 0\ntree 2 cells 1 stored 4 pushes 0 hanging 0 enclave 1 skeleton 0 sent 0\n",
    ),
    (
        "inflow, all",
        INFLOW,
        2,
        Shows::All,
        "step 0 leaves 17\n1 0 0 0\n1 0 1 0\n1 0 2 0\n1 1 0 0\n1 1 2 0\n1 2 0 0\n1 2 1 0\n1 2 2 0\n2 3 3 0\n2 3 4 0\n2 3 5 0\n2 4 3 0\n2 4 4 0\n2 4 5 0\n2 5 3 0\n2 5 4 0\n2 5 5 0\ntraffic 0 trees 2\ntree 0 cells 10 stored 18 pushes 12 hanging 10 enclave 0 skeleton 8 sent 13\ntree 1 cells 11 stored 19 pushes 15 hanging 10 enclave 0 skeleton 9 sent 13\nstep 1 leaves 9\n1 0 0 100\n1 0 1 100\n1 0 2 100\n1 1 0 0\n1 1 1 0\n1 1 2 0\n1 2 0 0\n1 2 1 0\n1 2 2 0\ntraffic 1 trees 2\ntree 0 cells 6 stored 15 pushes 9 hanging 0 enclave 0 skeleton 4 sent 10\ntree 1 cells 6 stored 15 pushes 9 hanging 0 enclave 0 skeleton 5 sent 10\nstep 2 leaves 57\n1 2 0 0\n1 2 1 0\n1 2 2 0\n2 0 0 100\n2 0 1 100\n2 0 2 100\n2 0 3 100\n2 0 4 100\n2 0 5 100\n2 0 6 100\n2 0 7 100\n2 0 8 100\n2 1 0 100\n2 1 1 100\n2 1 2 100\n2 1 3 100\n2 1 4 100\n2 1 5 100\n2 1 6 100\n2 1 7 100\n2 1 8 100\n2 2 0 100\n2 2 1 100\n2 2 2 100\n2 2 3 100\n2 2 4 100\n2 2 5 100\n2 2 6 100\n2 2 7 100\n2 2 8 100\n2 3 0 100\n2 3 1 100\n2 3 2 100\n2 3 3 100\n2 3 4 100\n2 3 5 100\n2 3 6 100\n2 3 7 100\n2 3 8 100\n2 4 0 100\n2 4 1 100\n2 4 2 100\n2 4 3 100\n2 4 4 100\n2 4 5 100\n2 4 6 100\n2 4 7 100\n2 4 8 100\n2 5 0 100\n2 5 1 100\n2 5 2 100\n2 5 3 100\n2 5 4 100\n2 5 5 100\n2 5 6 100\n2 5 7 100\n2 5 8 100\ntraffic 2 trees 2\ntree 0 cells 46 stored 68 pushes 104 hanging 12 enclave 24 skeleton 16 sent 24\ntree 1 cells 20 stored 36 pushes 38 hanging 6 enclave 2 skeleton 15 sent 24\n",
    ),
];

// Each file by so many trees, and its report.
#[test]
fn worlds_report_their_trees(rt: HostRuntime) -> Result<(), EvalFault> {
    let alloc = rt.alloc();
    for (name, file, trees, shows, want) in REPORTS {
        let plan = plan_of(&rt, alloc, file)?;
        let mut world = world_of(&rt, alloc, &plan, trees)?;
        let report = report_of(&rt, alloc, &plan, &mut world, shows)?;
        assert_eq!(rt; report.as_slice(), want.as_bytes(), "{name}");
    }
    Ok(())
}

fn expect_notes<R: Abort + Threads + Sync>(
    rt: &R,
    name: &str,
    notes: &[SweepNote],
    want: &[Counted],
) {
    assert_eq!(rt; notes.len(), want.len(), "{name}");
    for (note, (step, kind, tree, counts)) in notes.iter().zip(want) {
        assert_eq!(rt; (note.step(), note.tree()), (*step, *tree), "{name}");
        assert_eq!(rt; note.kind(), *kind, "{name}");
        assert_eq!(rt;
            [note.taken(), note.put(), note.pushed()],
            *counts,
            "{name}"
        );
    }
}

// Each file by so many trees, shown after each printed step, and the notes of all sweeps.
#[test]
fn worlds_note_their_sweeps(rt: HostRuntime) -> Result<(), EvalFault> {
    let alloc = rt.alloc();
    let table: [(&str, &str, u32, &[Counted]); 4] = [
        ("refined centre", REFINED_CENTRE, 1, &CENTRE_NOTES),
        ("inflow", INFLOW, 2, &INFLOW_NOTES),
        ("inflow, cut anew", INFLOW_RECUT, 2, &INFLOW_RECUT_NOTES),
        ("overflows", OVERFLOWS, 2, &OVERFLOW_NOTES),
    ];
    for (name, file, trees, want) in table {
        let plan = plan_of(&rt, alloc, file)?;
        let mut world = world_of(&rt, alloc, &plan, trees)?;
        let report = report_of(&rt, alloc, &plan, &mut world, Shows::Traffic);
        assert_eq!(rt; report.is_ok(), world.is_live(), "{name}");
        expect_notes(&rt, name, world.notes(), want);
    }
    Ok(())
}

// How many notes there are of a file by so many trees: for each tree a raising sweep, one more for each step that is
// shown, for each step two or, where the grid may change, three, and for each step after which trees are cut anew two more.
#[test]
fn each_tree_notes_its_sweeps(rt: HostRuntime) -> Result<(), EvalFault> {
    let alloc = rt.alloc();
    let table: [(&str, &str, Option<u32>, u32, usize); 8] = [
        ("single cell", SINGLE_CELL, None, 3, 6),
        ("single cell, cut anew", SINGLE_CELL, Some(1), 3, 6),
        ("two refined", TWO_REFINED, None, 2, 12),
        ("two refined, cut too late", TWO_REFINED, Some(3), 2, 12),
        ("wave", WAVE, None, 7, 56),
        ("wave, cut anew at last", WAVE, Some(2), 7, 70),
        ("inflow", INFLOW, None, 64, 640),
        ("inflow, cut anew", INFLOW, Some(1), 64, 896),
    ];
    for (name, file, recut, trees, want) in table {
        let file = with_recuts(alloc, file, recut)?;
        let plan = plan_of(&rt, alloc, file.as_str())?;
        let mut world = world_of(&rt, alloc, &plan, trees)?;
        report_of(&rt, alloc, &plan, &mut world, Shows::Traffic)?;
        assert_eq!(rt; world.notes().len(), want, "{name}");
    }
    Ok(())
}

// How many leaves each of several trees owns, the fewest and the most.
fn least_and_most(traffic: &[Traffic]) -> (u64, u64) {
    let owned = traffic
        .iter()
        .map(|tree| tree.enclave.saturating_add(tree.skeleton));
    owned.fold((u64::MAX, 0), |(least, most), count| {
        (least.min(count), most.max(count))
    })
}

// Trees that were cut anew after the last step own equal shares of its leaves.
#[test]
fn trees_that_are_cut_anew_own_equal_shares(rt: HostRuntime) -> Result<(), EvalFault> {
    let alloc = rt.alloc();
    for file in [INFLOW_RECUT, DEEP_FADING] {
        for trees in [2, 3, 7] {
            let plan = plan_of(&rt, alloc, file)?;
            let mut world = world_of(&rt, alloc, &plan, trees)?;
            for _ in 0..plan.steps {
                advance(&rt, alloc, &mut world, 0)?;
            }
            assert!(rt; world.is_live());
            let shown = world.show(&rt, alloc)?;
            let (least, most) = least_and_most(shown.traffic.as_slice());
            assert!(rt; least <= most && most - least <= 1, "{trees} trees");
        }
    }
    Ok(())
}

// The report of the leaves of level 5, in each step the same.
#[test]
fn a_world_of_many_leaves_reports_its_tree(rt: HostRuntime) -> Result<(), EvalFault> {
    let alloc = rt.alloc();
    let plan = plan_of(&rt, alloc, MANY_LEAVES)?;
    let mut world = world_of(&rt, alloc, &plan, 1)?;
    let report = report_of(&rt, alloc, &plan, &mut world, Shows::Traffic)?;
    let mut want = String::new(alloc);
    for step in 0..=8 {
        writeln!(want, "traffic {step} trees 1")?;
        want.push_str(
            "tree 0 cells 66430 stored 67164 pushes 198556 hanging 0 enclave 59049 skeleton 0 sent 0\n",
        )?;
    }
    assert_eq!(rt; report.as_slice(), want.as_bytes());
    Ok(())
}
