//! What a leaf is computed from.
ghost use Rattle.std.specs.Prelude.{◌≡◌, ◌<◌, ◌↔◌, IsTrue};
ghost use Rattle.peano_keys.specs.Cell.{IsCell};
ghost use Rattle.solver_api.specs.Parts.{SideHas, SidesHave, HaveParts};
ghost use Rattle.peano_records.specs.Tells.{corner_at};
ghost use Rattle.tree_automaton.specs.Views.{value_in, value_at_home};

use peano_keys::{CellKey, Dim, Side, Sides, State, home_corner, slot_of};
use peano_records::{CellView, Corner};

/// The value in the slot of a view's cell at its home corner.
pub fn home_value(dim: Dim, view: &CellView) -> State
    requires { IsCell dim view.now.key }
    ensures { result ≡ value_at_home dim view.now }
{
    let home = home_corner(dim, view.key);
    match &view.corners[home as usize] {
        Corner::Vertex(stored) => stored.slot(slot_of(dim, home)).value,
        Corner::Hanging(_) | Corner::Beyond => State::Single(0),
    }
}

// Whether what stands across a face has so many values.
fn side_has(parts: u32, side: &Side) -> bool
    ensures { IsTrue result ↔ SideHas parts side.now }
{
    match side {
        Side::Edge => true,
        Side::Same(state) | Side::Coarse(state) => state.count() == parts,
    }
}

// So on each axis.
fn sides_have(parts: u32, sides: &[Side; 3]) -> bool
    ensures { IsTrue result ↔ SidesHave parts sides.now }
{
    side_has(parts, &sides[0]) && side_has(parts, &sides[1]) && side_has(parts, &sides[2])
}

// Whether a leaf's own state and those across its faces have so many values.
pub(crate) fn have_parts(parts: u32, own: &State, sides: &Sides) -> bool
    ensures { IsTrue result ↔ HaveParts parts own.now sides.now }
{
    own.count() == parts && sides_have(parts, &sides.low) && sides_have(parts, &sides.high)
}
