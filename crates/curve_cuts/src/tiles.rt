//! Lists of cells that tile the domain along the curve: the test of what keys are made from.
ghost use Rattle.std.specs.Prelude.{◌≡◌, ◌^◌, ◌≤◌, ◌↔◌, IsTrue};
ghost use Rattle.peano_keys.specs.Dim.{children};
ghost use Rattle.peano_keys.specs.Cell.{IsCell};
ghost use Rattle.peano_curve.specs.Order.{interval_start};
ghost use Rattle.curve_cuts.specs.Leaves.{InCurveOrder};
ghost use Rattle.curve_cuts.specs.Tiles.{BeginsAt, Tile};

use peano_curve::interval;
use peano_keys::{CellKey, Dim, is_cell, root};

// How many positions the depth has.
pub(crate) fn positions(dim: Dim, depth: u32) -> u64
    requires { depth ≤ 12 }
    ensures { result ≡ children dim ^ depth }
{
    interval(dim, root(), depth).hi
}

// Whether a key is a cell of a level down to the depth that begins at a position.
fn begins_at(dim: Dim, depth: u32, cell: CellKey, position: u64) -> bool
    requires { depth ≤ 12 }
    ensures { IsTrue result ↔ BeginsAt dim depth cell position }
{
    is_cell(dim, &cell) && cell.level <= depth && interval(dim, cell, depth).lo == position
}

/// Whether cells tile the domain along the curve: each begins where those before it end, and the last ends where all
/// positions of the depth do. They are then the leaves of a grid of this depth, in the order that `Keys::equal` asks for.
pub fn is_tiling(dim: Dim, depth: u32, cells: &[CellKey]) -> bool
    requires { depth ≤ 12 }
    ensures value { IsTrue result ↔ Tile dim depth cells.now }
    ensures leaves { IsTrue result → InCurveOrder dim depth cells.now }
{
    let mut end = 0;
    for cell in cells {
        if !begins_at(dim, depth, *cell, end) {
            return false;
        }
        end = interval(dim, *cell, depth).hi;
    }
    end == positions(dim, depth)
}
