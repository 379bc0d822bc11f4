//! Plans of demonstrations, worked out from the words of the format.
use crate::demo_plan;
use peano_keys::{Dim, State};
use solver_api::Solver;
use spacetree::{Fill, Zone};
use std::process::Abort;
use std::test::Fail;

// A fill by its corner and its value.
type FillRow = (u32, u32, i64);

// A demonstration by its number, its fills and the cells that it refines.
type Row = (u64, [FillRow; 12], [(u32, u32); 8]);

const DEMONSTRATIONS: [Row; 4] = [
    (
        0,
        [
            (7, 24, -699),
            (11, 0, -26),
            (9, 0, 128),
            (14, 3, -445),
            (7, 20, 104),
            (22, 20, -79),
            (6, 8, 585),
            (19, 12, -62),
            (13, 8, -509),
            (1, 11, -730),
            (17, 1, -645),
            (9, 14, -147),
        ],
        [
            (0, 26),
            (4, 25),
            (26, 21),
            (19, 16),
            (19, 12),
            (23, 4),
            (23, 9),
            (13, 0),
        ],
    ),
    (
        1,
        [
            (24, 3, 374),
            (20, 9, -356),
            (5, 2, -109),
            (21, 23, 825),
            (2, 0, 622),
            (12, 15, -533),
            (7, 15, -642),
            (7, 1, -703),
            (19, 3, 143),
            (22, 21, 57),
            (7, 13, 461),
            (0, 19, -355),
        ],
        [
            (18, 25),
            (4, 16),
            (2, 22),
            (14, 25),
            (15, 13),
            (12, 6),
            (11, 25),
            (3, 25),
        ],
    ),
    (
        9_999_999_999_999_999_999,
        [
            (12, 15, -575),
            (21, 3, 967),
            (24, 0, -243),
            (24, 22, -603),
            (2, 6, -493),
            (15, 0, -349),
            (11, 17, 177),
            (3, 14, -140),
            (3, 14, 370),
            (8, 14, -966),
            (3, 19, -840),
            (12, 7, 804),
        ],
        [
            (19, 20),
            (15, 3),
            (25, 6),
            (14, 17),
            (20, 3),
            (1, 3),
            (6, 12),
            (0, 14),
        ],
    ),
    (
        18_446_744_073_709_551_615,
        [
            (13, 18, 228),
            (2, 14, 304),
            (10, 22, 366),
            (7, 8, 286),
            (10, 13, -857),
            (5, 1, -69),
            (3, 2, -189),
            (5, 1, -978),
            (7, 12, -719),
            (4, 0, 483),
            (1, 12, 250),
            (16, 9, -381),
        ],
        [
            (9, 0),
            (4, 18),
            (6, 5),
            (8, 18),
            (23, 12),
            (23, 2),
            (8, 20),
            (12, 18),
        ],
    ),
];

// The fills are those of the rows.
fn are_fills(rt: &impl Abort, fills: &[Fill], rows: &[FillRow; 12]) {
    assert_eq!(rt; fills.len(), 12);
    for (i, fill) in fills.iter().enumerate() {
        let (x, y, value) = rows[i];
        assert!(rt; x < 25 && y < 25);
        let want = Fill {
            level: 3,
            from: [x, y, 0],
            to: [x + 2, y + 2, 0],
            value: State::Single(value),
        };
        assert_eq!(rt; *fill, want, "fill {i}");
    }
}

// The boxes to refine are those of the rows.
fn are_zones(rt: &impl Abort, zones: &[Zone], rows: &[(u32, u32); 8]) {
    assert_eq!(rt; zones.len(), 8);
    for (j, zone) in zones.iter().enumerate() {
        let (x, y) = rows[j];
        assert!(rt; x < 27 && y < 27);
        let want = Zone {
            level: 3,
            from: [x, y, 0],
            to: [x + 1, y + 1, 0],
            until: 5,
        };
        assert_eq!(rt; *zone, want, "box {j}");
    }
}

#[test]
fn the_plans_of_some_numbers(rt: HostRuntime) -> Result<(), Fail> {
    for (n, fills, zones) in DEMONSTRATIONS {
        let plan = demo_plan(rt.alloc(), n)?;
        are_fills(&rt, plan.fills.as_slice(), &fills);
        are_zones(&rt, plan.shape.zones.as_slice(), &zones);
    }
    Ok(())
}

#[test]
fn the_rest_of_a_plan(rt: HostRuntime) -> Result<(), Fail> {
    let plan = demo_plan(rt.alloc(), 7)?;
    assert_eq!(rt; plan.shape.dim, Dim::Two);
    assert_eq!(rt; (plan.shape.depth, plan.shape.base), (5, 3));
    assert_eq!(rt;
        (plan.steps, plan.print_every, plan.recut_every),
        (20, None, None)
    );
    assert!(rt; plan.solver.adapts());
    assert_eq!(rt; plan.solver.deepest(), 5);
    Ok(())
}
