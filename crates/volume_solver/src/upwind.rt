//! The upwind scheme of advection.
ghost use Rattle.std.specs.Prelude.{◌≡◌, ◌≤◌, ◌^◌, ◌<◌};
ghost use Rattle.std.specs.Int.RustNames.{unsigned_abs};
ghost use Rattle.std.specs.Int.{int_div_euclid};
ghost use Rattle.volume_solver.specs.Ranges.{speed_on, IsWind, IsDivisor};
ghost use Rattle.volume_solver.specs.Kernel.{upwind_rise, carried_on, carried};

use crate::edge::{EdgeRule, across};
use crate::exact::{excess, product, quotient, scaled, sum_of_three};
use peano_keys::{Dim, Side, Sides, State};
use solver_api::Criterion;

/// An upwind scheme for a wind with the factor `wind / b` on an axis, what stands at the domain's edge, and the criterion by which the grid adapts.
/// Each entry of `wind` is -1,000,000 to 1,000,000, and `b` is 1 to 10^18.
#[derive(Clone, Copy, Debug, PartialEq, Eq)]
pub struct Upwind {
    pub dim: Dim,
    pub wind: [i64; 3],
    pub b: i64,
    pub edge: EdgeRule,
    pub watch: Option<Criterion>,
}

// How far the value rises along an axis, on the side that the wind comes from.
fn upwind_rise(speed: i64, rule: EdgeRule, own: State, low: Side, high: Side) -> i128
    ensures value { result ≡ upwind_rise speed rule own low high }
    ensures bound { unsigned_abs result < 2 ^ 64 }
{
    if speed >= 0 {
        excess(own, across(rule, own, low))
    } else {
        excess(across(rule, own, high), own)
    }
}

impl Upwind {
    // What the wind carries off on an axis.
    #[tactic(auto, using(peano_keys::proofs::Powers::pow3_by_12))]
    fn carried_on(&self, axis: usize, own: State, sides: &Sides, level: u32) -> i128
        requires axis { axis < 3 }
        requires speed { unsigned_abs (speed_on self.now.wind axis) ≤ 1000000 }
        requires level { level ≤ 12 }
        ensures value { result ≡ carried_on axis self.now own sides.now level }
        ensures bound { unsigned_abs result < 2 ^ 122 }
    {
        let speed = self.wind[axis];
        let factor = scaled(speed, 3u64.pow(level));
        product(
            factor,
            upwind_rise(speed, self.edge, own, sides.low[axis], sides.high[axis]),
        )
    }

    // What the wind carries off on all axes.
    fn carried(&self, own: State, sides: &Sides, level: u32) -> i128
        requires wind { IsWind self.now.wind }
        requires level { level ≤ 12 }
        ensures value { result ≡ carried self.now.dim self.now own sides.now level }
        ensures bound { unsigned_abs result < 2 ^ 124 }
    {
        let first = self.carried_on(0, own, sides, level);
        let second = self.carried_on(1, own, sides, level);
        match self.dim {
            Dim::Two => first + second,
            Dim::Three => sum_of_three(first, second, self.carried_on(2, own, sides, level)),
        }
    }

    // By how much the value falls.
    pub(crate) fn loss(&self, own: State, sides: &Sides, level: u32) -> i128
        requires wind { IsWind self.now.wind }
        requires divisor { IsDivisor self.now.b }
        requires level { level ≤ 12 }
        ensures value { result
            ≡ int_div_euclid (carried self.now.dim self.now own sides.now level) self.now.b }
        ensures bound { unsigned_abs result < 2 ^ 124 }
    {
        quotient(self.carried(own, sides, level), self.b)
    }
}
