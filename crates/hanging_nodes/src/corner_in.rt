//! Corners by their number.
ghost use Rattle.std.specs.Prelude.{◌≡◌, ◌<◌, slice_index_or};
ghost use Rattle.peano_records.specs.declared.view.Corner.TheVariants.{Beyond};

use peano_records::Corner;

// Corner number `n` of eight.
pub(crate) fn corner_in(corners: &[Corner; 8], n: u32) -> &Corner
    requires { n < 8 }
    ensures { result.now ≡ slice_index_or corners.now n Beyond }
{
    &corners[n as usize]
}
