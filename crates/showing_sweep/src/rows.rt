//! The row of a leaf.
ghost use Rattle.std.specs.Prelude.{◌≡◌};
ghost use Rattle.peano_keys.specs.Cell.{IsCell};
ghost use Rattle.showing_sweep.specs.Shows.{row_in};

use peano_keys::Dim;
use peano_records::CellView;
use spacetree::Row;
use step_sweeps::home_value;

// The row of a leaf, with the value that its view shows.
pub(crate) fn row_in(dim: Dim, view: &CellView) -> Row
    requires { IsCell dim view.now.key }
    ensures { result ≡ row_in dim view.now }
{
    Row {
        key: view.key,
        value: home_value(dim, view),
    }
}
