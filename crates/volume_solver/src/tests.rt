//! Single updates and marks, from worked examples and at the ends of the ranges.
ghost use Rattle.std.specs.Prelude.{◌≡◌, ◌<◌, ◌≤◌};
ghost use Rattle.std.specs.Prelude.{IfSome};
ghost use Rattle.solver_api.specs.Parts.{SideHas, SidesHave};
ghost use Rattle.volume_solver.specs.Any.{parts_in};
ghost use Rattle.volume_solver.specs.Ranges.{IsFactor, IsDivisor, EdgeHas, IsCriterion};

use crate::{Advect, AnySolver, Diffuse, EdgeRule, Wave};
use peano_keys::{Dim, Mark, Side, Sides, State};
use solver_api::{Criterion, Solver};
use std::process::Abort;

const EDGE: Option<i64> = None;

const ZERO: Option<i64> = Some(0);

const LEAST: i64 = i64::MIN;

const MOST: i64 = i64::MAX;

const LOWEST: Option<i64> = Some(LEAST);

const HIGHEST: Option<i64> = Some(MOST);

const HUGE: i64 = 9_000_000_000_000_000_000;

// The greatest coefficients.
const MOST_A: i64 = 1_000_000;

const MOST_B: i64 = 1_000_000_000_000_000_000;

// A leaf's value, the values across its faces by axis, the low one first, its level, and its new value.
type Row = (i64, [Option<i64>; 6], u32, Option<i64>);

fn side(value: Option<i64>) -> Side
    ensures { SideHas 1 result }
{
    match value {
        Some(value) => Side::Same(State::Single(value)),
        None => Side::Edge,
    }
}

fn sides(values: [Option<i64>; 6]) -> Sides
    ensures low { SidesHave 1 result.low }
    ensures high { SidesHave 1 result.high }
{
    Sides {
        low: [side(values[0]), side(values[2]), side(values[4])],
        high: [side(values[1]), side(values[3]), side(values[5])],
    }
}

fn updates<S: Solver>(rt: &impl Abort, solver: &S, rows: &[Row])
    requires { S.parts_of solver.now ≡ 1 }
{
    for (own, values, level, want) in rows {
        assert!(rt; *level <= 12);
        let new = solver.update(&State::Single(*own), &sides(*values), *level);
        assert_eq!(rt; new, want.map(State::Single), "of {own}");
    }
}

// Diffusion in a plane by `a / b`.
fn in_plane(a: i64, b: i64, edge: EdgeRule) -> AnySolver
    requires a { IsFactor a }
    requires b { IsDivisor b }
    requires edge { EdgeHas 1 edge }
    ensures { parts_in result ≡ 1 }
{
    AnySolver::Diffuse(Diffuse::new(Dim::Two, a, b, edge, None))
}

#[test]
fn diffusion_in_a_plane(rt: HostRuntime) {
    let pulse = [
        (100, [ZERO, ZERO, ZERO, ZERO, EDGE, EDGE], 1, Some(60)),
        (0, [EDGE, Some(100), ZERO, ZERO, EDGE, EDGE], 1, Some(10)),
        (0, [EDGE, ZERO, EDGE, ZERO, EDGE, EDGE], 1, ZERO),
        (0, [EDGE, ZERO, EDGE, ZERO, Some(700), Some(700)], 1, ZERO),
    ];
    updates(&rt, &in_plane(1, 90, EdgeRule::Copy), &pulse);
    let floor = [
        (100, [ZERO, ZERO, ZERO, ZERO, EDGE, EDGE], 1, Some(60)),
        (0, [EDGE, Some(100), ZERO, ZERO, EDGE, EDGE], 1, Some(9)),
    ];
    updates(&rt, &in_plane(1, 91, EdgeRule::Copy), &floor);
    let fixed = [
        (0, [EDGE, ZERO, EDGE, ZERO, EDGE, EDGE], 1, Some(1)),
        (0, [EDGE, Some(100), ZERO, ZERO, EDGE, EDGE], 1, Some(10)),
    ];
    let nine = EdgeRule::Fixed(State::Single(9));
    updates(&rt, &in_plane(1, 90, nine), &fixed);
    let levels = [
        (90, [EDGE, ZERO, ZERO, ZERO, EDGE, EDGE], 1, Some(89)),
        (0, [Some(90), ZERO, ZERO, ZERO, EDGE, EDGE], 2, Some(1)),
        (0, [Some(90), ZERO, ZERO, ZERO, EDGE, EDGE], 3, Some(9)),
    ];
    updates(&rt, &in_plane(1, 7290, EdgeRule::Copy), &levels);
}

#[test]
fn diffusion_at_the_ends_of_its_range(rt: HostRuntime) {
    let most = Some(HUGE);
    let least = Some(-HUGE);
    let steep = [
        (-HUGE, [most, most, most, most, EDGE, EDGE], 1, None),
        (HUGE, [EDGE, least, most, most, EDGE, EDGE], 1, None),
        (HUGE, [EDGE, most, EDGE, most, EDGE, EDGE], 1, most),
    ];
    updates(&rt, &in_plane(1, 1, EdgeRule::Copy), &steep);
    let far = [HIGHEST, LOWEST, LOWEST, LOWEST, EDGE, EDGE];
    let new = Some(-4_013_466_658_533_353_448);
    updates(
        &rt,
        &in_plane(MOST_A, MOST_B, EdgeRule::Copy),
        &[(LEAST, far, 12, new)],
    );
}

#[test]
fn diffusion_in_space(rt: HostRuntime) {
    let pulse = Diffuse::new(Dim::Three, 1, 90, EdgeRule::Copy, None);
    updates(
        &rt,
        &pulse,
        &[
            (600, [ZERO; 6], 1, Some(240)),
            (0, [EDGE, Some(600), ZERO, ZERO, ZERO, ZERO], 1, Some(60)),
            (0, [ZERO, ZERO, ZERO, ZERO, Some(600), EDGE], 1, Some(60)),
        ],
    );
    let steep = Diffuse::new(Dim::Three, 1_000_000, 1, EdgeRule::Copy, None);
    updates(
        &rt,
        &steep,
        &[
            (0, [EDGE, Some(HUGE), ZERO, ZERO, ZERO, ZERO], 1, None),
            (0, [EDGE, ZERO, EDGE, ZERO, EDGE, ZERO], 1, ZERO),
            (LEAST, [HIGHEST; 6], 12, None),
        ],
    );
    let still = Diffuse::new(Dim::Three, 0, 1, EdgeRule::Copy, None);
    updates(&rt, &still, &[(LEAST, [HIGHEST; 6], 12, LOWEST)]);
    let ends = Diffuse::new(Dim::Three, MOST_A, MOST_B, EdgeRule::Copy, None);
    updates(
        &rt,
        &ends,
        &[
            (
                MOST,
                [LOWEST, HIGHEST, HIGHEST, HIGHEST, HIGHEST, HIGHEST],
                12,
                Some(4_013_466_658_533_353_446),
            ),
            (LEAST, [HIGHEST; 6], 12, None),
        ],
    );
}

#[test]
fn advection(rt: HostRuntime) {
    let inflow = Advect::new(
        Dim::Two,
        [1, 0, 0],
        3,
        EdgeRule::Fixed(State::Single(100)),
        None,
    );
    updates(
        &rt,
        &inflow,
        &[
            (0, [EDGE, ZERO, ZERO, ZERO, EDGE, EDGE], 1, Some(100)),
            (0, [ZERO, EDGE, ZERO, ZERO, EDGE, EDGE], 1, ZERO),
        ],
    );
    let slanted = AnySolver::Advect(Advect::new(Dim::Two, [-2, 7, 0], 11, EdgeRule::Copy, None));
    updates(
        &rt,
        &slanted,
        &[
            (0, [EDGE, Some(100), ZERO, ZERO, EDGE, EDGE], 1, Some(55)),
            (100, [ZERO, ZERO, ZERO, ZERO, EDGE, EDGE], 1, Some(-145)),
            (0, [ZERO, ZERO, Some(100), EDGE, EDGE, EDGE], 1, Some(191)),
            (0, [Some(100), EDGE, ZERO, ZERO, Some(5), Some(5)], 1, ZERO),
        ],
    );
    let fast = AnySolver::Advect(Advect::new(
        Dim::Three,
        [-1_000_000; 3],
        2_000_000_000_000,
        EdgeRule::Copy,
        None,
    ));
    updates(
        &rt,
        &fast,
        &[(LEAST, [HIGHEST; 6], 12, Some(5_481_662_139_059_640_922))],
    );
    let ends = AnySolver::Advect(Advect::new(
        Dim::Three,
        [1_000_000, -1_000_000, 1_000_000],
        MOST_B,
        EdgeRule::Copy,
        None,
    ));
    updates(
        &rt,
        &ends,
        &[(MOST, [LOWEST; 6], 12, Some(9_223_342_626_786_423_979))],
    );
    let faster = AnySolver::Advect(Advect::new(
        Dim::Three,
        [1_000_000; 3],
        1,
        EdgeRule::Copy,
        None,
    ));
    updates(&rt, &faster, &[(LEAST, [HIGHEST; 6], 12, None)]);
}

// A value and its speed across a face.
fn wave_side(pair: Option<(i64, i64)>) -> Side
    ensures { SideHas 2 result }
{
    match pair {
        Some((value, speed)) => Side::Same(State::Pair(value, speed)),
        None => Side::Edge,
    }
}

fn wave_sides(pairs: [Option<(i64, i64)>; 4]) -> Sides
    ensures low { SidesHave 2 result.low }
    ensures high { SidesHave 2 result.high }
{
    Sides {
        low: [wave_side(pairs[0]), wave_side(pairs[2]), Side::Edge],
        high: [wave_side(pairs[1]), wave_side(pairs[3]), Side::Edge],
    }
}

#[test]
fn waves(rt: HostRuntime) {
    let wave = AnySolver::Wave(Wave::new(Dim::Two, 1, 90, EdgeRule::Copy, None));
    let still = Some((0, 0));
    let front = Some((10, 10));
    for (own, pairs, want) in [
        ((100, 0), [still; 4], Some((60, -40))),
        ((0, 0), [None, Some((100, 0)), still, still], Some((10, 10))),
        ((60, -40), [front; 4], Some((0, -60))),
        (
            (10, 10),
            [None, Some((60, -40)), still, still],
            Some((23, 13)),
        ),
        ((0, 0), [None, front, None, front], Some((2, 2))),
        ((0, -60), [Some((23, 13)); 4], Some((-51, -51))),
        ((LEAST, MOST), [None; 4], Some((-1, MOST))),
        ((1, MOST), [None; 4], None),
        ((-10, MOST), [Some((0, 0)), None, None, None], None),
    ] {
        let (value, speed) = own;
        let new = wave.update(&State::Pair(value, speed), &wave_sides(pairs), 1);
        let want = match want {
            Some((value, speed)) => Some(State::Pair(value, speed)),
            None => None,
        };
        assert_eq!(rt; new, want, "of {value} {speed}");
    }
}

// The watched component is the second one, and the leaf's own values are 0.
fn mark_of(criterion: Option<Criterion>, second: [Option<i64>; 2], level: u32) -> Mark
    requires criterion { IfSome criterion (IsCriterion 2) }
    requires level { level ≤ 12 }
{
    let solver = Wave::new(Dim::Two, 1, 90, EdgeRule::Copy, criterion);
    let [low, high] = second.map(|value| value.map(|value| (1_000_000, value)));
    solver.mark(
        &State::Pair(0, 0),
        &wave_sides([low, high, None, None]),
        level,
    )
}

#[test]
fn marks(rt: HostRuntime) {
    let criterion = Criterion {
        hi: 50,
        lo: 5,
        watch: 1,
        depth: 2,
    };
    for (second, level, want) in [
        ([Some(0), Some(50)], 1, Mark::Refine),
        ([Some(0), Some(-50)], 0, Mark::Refine),
        ([Some(0), Some(50)], 2, Mark::Keep),
        ([Some(0), Some(49)], 1, Mark::Keep),
        ([Some(5), Some(0)], 1, Mark::Keep),
        ([Some(4), Some(-4)], 1, Mark::Coarsen),
        ([None, None], 1, Mark::Coarsen),
        ([LOWEST, HIGHEST], 1, Mark::Refine),
    ] {
        assert!(rt; level <= 12);
        assert_eq!(rt; mark_of(Some(criterion), second, level), want, "at {level}");
        assert_eq!(rt; mark_of(None, second, level), Mark::Keep, "at {level}");
    }
}

#[test]
fn the_greatest_difference(rt: HostRuntime) {
    for (hi, lo, want) in [(MOST, MOST, Mark::Refine), (1, 0, Mark::Refine)] {
        assert!(rt; 1 <= hi && 0 <= lo && lo <= hi);
        let criterion = Criterion {
            hi,
            lo,
            watch: 0,
            depth: 12,
        };
        let solver = AnySolver::Diffuse(Diffuse::new(
            Dim::Three,
            1,
            1,
            EdgeRule::Copy,
            Some(criterion),
        ));
        let seen = sides([HIGHEST, EDGE, EDGE, EDGE, EDGE, EDGE]);
        assert_eq!(rt;
            solver.mark(&State::Single(LEAST), &seen, 11),
            want,
            "by {hi}"
        );
        assert_eq!(rt;
            solver.mark(&State::Single(LEAST), &seen, 12),
            Mark::Keep,
            "by {hi}"
        );
        assert_eq!(rt;
            (solver.parts(), solver.adapts(), solver.deepest()),
            (1, true, 12),
            "by {hi}"
        );
    }
}
