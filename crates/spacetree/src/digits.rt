//! The children of a cell by number.
ghost use Rattle.std.specs.Prelude.{◌≡◌, ◌<◌, ◌≤◌, ◌^◌};
ghost use Rattle.peano_keys.specs.Dim.{axes};
ghost use Rattle.peano_keys.specs.Cell.{IsDigits};
ghost use Rattle.spacetree.specs.Digits.{digits_at};

use peano_keys::Dim;

// The digits of child number `n`, axis 0 slowest.
pub(crate) fn nth_digits(dim: Dim, n: u32) -> [u32; 3]
    requires { n < 3 ^ axes dim }
    ensures value { result ≡ digits_at dim n }
    ensures digits { IsDigits dim result }
{
    match dim {
        Dim::Two => [n / 3, n % 3, 0],
        Dim::Three => [n / 9, n / 3 % 3, n % 3],
    }
}
