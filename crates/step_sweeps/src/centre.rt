//! What centre children tell of their parents.
ghost use Rattle.std.specs.Prelude.{◌≡◌, ◌≤◌, ◌<◌, ◌↔◌, IsTrue};
ghost use Rattle.peano_keys.specs.Cell.{IsCell};
ghost use Rattle.adapt_marks.specs.Views.{IsCentre};
ghost use Rattle.step_sweeps.specs.Secondaries.{next_at_home, HasWords};

use peano_keys::{CellKey, Dim, State, child, home_corner, parent, slot_of};
use peano_records::{CellView, Corner};

// Whether a cell is the centre child of its parent.
pub(crate) fn is_centre(dim: Dim, key: CellKey) -> bool
    requires { IsCell dim key }
    ensures { IsTrue result ↔ IsCentre dim key }
{
    if key.level == 0 {
        return false;
    }
    let third = match dim {
        Dim::Two => 0,
        Dim::Three => 1,
    };
    child(parent(key), [1, 1, third]) == key
}

// The new value in the slot of the cell at its home corner.
pub(crate) fn home_next(dim: Dim, view: &CellView) -> State
    requires { IsCell dim view.now.key }
    ensures value { result ≡ next_at_home dim view.now }
    ensures words { HasWords (next_at_home dim view.now) }
{
    let home = home_corner(dim, view.key);
    match &view.corners[home as usize] {
        Corner::Vertex(stored) => stored.slot(slot_of(dim, home)).next,
        Corner::Hanging(_) | Corner::Beyond => State::Single(0),
    }
}
