//! Views as places, into which a sweep enters its cells one after another.
ghost use Rattle.std.specs.Prelude.{◌≡◌};
ghost use Rattle.peano_keys.specs.declared.dim.Dim.{Dim};
ghost use Rattle.tree_automaton.specs.Views.{IsPlace, HavePlaces, edges_all};

use peano_keys::{CellKey, Side, Sides, State, root};
use peano_records::{CellView, Corner};

// Sides of a cell that is alone.
pub(crate) fn edges() -> Sides
    ensures { result ≡ edges_all }
{
    Sides {
        low: [Side::Edge; 3],
        high: [Side::Edge; 3],
    }
}

// A view of no cell.
pub(crate) fn blank_view() -> CellView
    ensures { (dim : Dim) → IsPlace dim result }
{
    CellView {
        key: root(),
        was: None,
        will: None,
        corners: [
            Corner::Beyond,
            Corner::Beyond,
            Corner::Beyond,
            Corner::Beyond,
            Corner::Beyond,
            Corner::Beyond,
            Corner::Beyond,
            Corner::Beyond,
        ],
        sides: edges(),
        carried: State::one(0),
        task: 0,
    }
}

// A view for each level below the root.
pub(crate) fn blank_views() -> [CellView; 12]
    ensures { (dim : Dim) → HavePlaces dim 1 result }
{
    [
        blank_view(),
        blank_view(),
        blank_view(),
        blank_view(),
        blank_view(),
        blank_view(),
        blank_view(),
        blank_view(),
        blank_view(),
        blank_view(),
        blank_view(),
        blank_view(),
    ]
}
