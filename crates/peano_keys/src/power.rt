//! Powers of three.
ghost use Rattle.std.specs.Prelude.{◌≡◌, ◌^◌, ◌≤◌};

/// 3 to the power `n`, for `n` up to 40.
#[tactic(auto, using(crate::proofs::Powers::pow3_by_40))]
pub fn pow3(n: u32) -> u64
    requires { n ≤ 40 }
    ensures { result ≡ 3 ^ n }
{
    3u64.pow(n)
}

/// How many cells a level has on an axis.
#[tactic(auto, using(crate::proofs::Powers::pow3_by_12, crate::proofs::Powers::pow3_positive))]
pub fn extent(level: u32) -> u32
    requires { level ≤ 12 }
    ensures value { result ≡ 3 ^ level }
    ensures least { 1 ≤ result }
    ensures most { result ≤ 531441 }
{
    3u32.pow(level)
}
