//! What a cell sees across its faces.
ghost use Rattle.std.specs.Prelude.{◌≡◌, ◌<◌, ◌≤◌, ℕ};
ghost use Rattle.peano_keys.specs.Dim.{axes};
ghost use Rattle.peano_keys.specs.Cell.{IsCell};
ghost use Rattle.peano_keys.specs.Grid.{IsGrid};
ghost use Rattle.peano_keys.specs.Field.{covering_state, side_of, sides_of, sides_on};
ghost use Rattle.solver_api.specs.Parts.{SideHas, SidesHave};
ghost use Rattle.spacetree.specs.Fields.{IsFieldOn};

use crate::field::Field;
use crate::grid::Grid;
use crate::means::{state, value};
use peano_keys::{CellKey, Dim, Face, Side, Sides, State, neighbour, parent};

// The state of the nearest cell of the grid among a cell and its ancestors.
fn covering(grid: &Grid, field: &Field, key: CellKey) -> State
    requires { IsCell grid.now.dim key }
    ensures { result ≡ covering_state key.level grid.now field.now key }
{
    if grid.has_cell(&key) {
        return state(field, &key);
    }
    covering(grid, field, parent(key))
}

// What a cell sees across a face.
fn side(grid: &Grid, field: &Field, key: CellKey, face: Face) -> Side
    requires cell { IsCell grid.now.dim key }
    requires axis { face.axis < axes grid.now.dim }
    ensures value { result ≡ side_of grid.now field.now key face }
    ensures parts { (n : ℕ) → IsGrid 12 grid.now → IsFieldOn n grid.now field.now
        → SideHas n result }
{
    match neighbour(grid.dim(), key, face) {
        None => Side::Edge,
        Some(other) => {
            if grid.has_cell(&other) {
                Side::Same(value(grid, field, other))
            } else {
                Side::Coarse(covering(grid, field, other))
            }
        }
    }
}

// The low or the high sides of a cell, by axis.
fn sides_on(grid: &Grid, field: &Field, key: CellKey, high: bool) -> [Side; 3]
    requires { IsCell grid.now.dim key }
    ensures value { result ≡ sides_on grid.now field.now key high }
    ensures parts { (n : ℕ) → IsGrid 12 grid.now → IsFieldOn n grid.now field.now
        → SidesHave n result }
{
    let first = side(grid, field, key, Face { axis: 0, high });
    let second = side(grid, field, key, Face { axis: 1, high });
    let third = match grid.dim() {
        Dim::Two => Side::Edge,
        Dim::Three => side(grid, field, key, Face { axis: 2, high }),
    };
    [first, second, third]
}

/// What a cell sees across its faces.
pub fn sides(grid: &Grid, field: &Field, key: CellKey) -> Sides
    requires { IsCell grid.now.dim key }
    ensures value { result ≡ sides_of grid.now field.now key }

    // On a field whose states have `n` values, those across the faces have as many.
    ensures low { (n : ℕ) → IsGrid 12 grid.now → IsFieldOn n grid.now field.now
        → SidesHave n result.low }
    ensures high { (n : ℕ) → IsGrid 12 grid.now → IsFieldOn n grid.now field.now
        → SidesHave n result.high }
{
    Sides {
        low: sides_on(grid, field, key, false),
        high: sides_on(grid, field, key, true),
    }
}
