//! The Laplace operator of diffusion and waves.
ghost use Rattle.std.specs.Prelude.{◌≡◌, ◌≤◌, ◌^◌, ◌<◌, ◌+ℤ◌};
ghost use Rattle.std.specs.Int.RustNames.{unsigned_abs};
ghost use Rattle.volume_solver.specs.Ranges.{IsFactor, IsDivisor};
ghost use Rattle.volume_solver.specs.Kernel.{rise, rises, change};

use crate::edge::{EdgeRule, across};
use crate::exact::{excess, product, quotient, scaled, sum_of_three};
use peano_keys::{Dim, Side, Sides, State};
use solver_api::Criterion;

/// A Laplace operator with the factor `a / b`, what stands at the domain's edge, and the criterion by which the grid adapts.
/// `a` is 0 to 1,000,000 and `b` is 1 to 10^18.
#[derive(Clone, Copy, Debug, PartialEq, Eq)]
pub struct Laplacian {
    pub dim: Dim,
    pub a: i64,
    pub b: i64,
    pub edge: EdgeRule,
    pub watch: Option<Criterion>,
}

// The sum of the rises across the two faces of an axis.
fn rise_on(rule: EdgeRule, own: State, low: Side, high: Side) -> i128
    ensures value { result ≡ rise rule own low +ℤ rise rule own high }
    ensures bound { unsigned_abs result < 2 ^ 65 }
{
    excess(across(rule, own, low), own) + excess(across(rule, own, high), own)
}

impl Laplacian {
    // The sum of the rises across all faces.
    fn rises(&self, own: State, sides: &Sides) -> i128
        ensures value { result ≡ rises self.now.dim self.now.edge own sides.now }
        ensures bound { unsigned_abs result < 2 ^ 67 }
    {
        let first = rise_on(self.edge, own, sides.low[0], sides.high[0]);
        let second = rise_on(self.edge, own, sides.low[1], sides.high[1]);
        match self.dim {
            Dim::Two => first + second,
            Dim::Three => {
                let third = rise_on(self.edge, own, sides.low[2], sides.high[2]);
                sum_of_three(first, second, third)
            }
        }
    }

    // By how much the first value changes.
    #[tactic(auto, using(crate::proofs::Bounds::pow9_by_12))]
    pub(crate) fn change(&self, own: State, sides: &Sides, level: u32) -> i128
        requires factor { IsFactor self.now.a }
        requires divisor { IsDivisor self.now.b }
        requires level { level ≤ 12 }
        ensures value { result ≡ change self.now own sides.now level }
        ensures bound { unsigned_abs result < 2 ^ 125 }
    {
        let factor = scaled(self.a, 9u64.pow(level));
        quotient(product(factor, self.rises(own, sides)), self.b)
    }
}
