//! Which cells a tree owns, and the status and the value of a cell.
ghost use Rattle.std.specs.Prelude.{◌≡◌, ◌↔◌, ◌<◌, IsTrue};
ghost use Rattle.peano_keys.specs.Cell.{IsCell};
ghost use Rattle.peano_keys.specs.Field.{value_of};
ghost use Rattle.peano_records.specs.AtRest.{status_of};
ghost use Rattle.curve_cuts.specs.Keys.{cuts_of};
ghost use Rattle.adapt_sweep.specs.Own.{IsOwn};
ghost use Rattle.adapt_sweep.specs.Uniform.{IsUniformField};

use curve_cuts::Keys;
use peano_keys::{CellKey, State};
use peano_records::Status;
use spacetree::{Field, Grid};

// Whether a tree owns a cell: its range has the cell's centre.
pub(crate) fn is_own(keys: &Keys, tree: u32, cell: CellKey) -> bool
    requires cell { IsCell keys.now.dim cell }
    requires tree { tree < (cuts_of keys.now).trees }
    ensures { IsTrue result ↔ IsOwn (cuts_of keys.now) tree cell }
{
    cell.level <= keys.depth() && keys.owns(cell, tree)
}

// The value of a cell of the domain: its value in the field where the grid has it, else one zero.
pub(crate) fn value(grid: &Grid, field: &Field, key: CellKey) -> State
    requires field { IsUniformField grid.now field.now }
    requires cell { IsCell grid.now.dim key }
    ensures { result ≡ value_of grid.now field.now key }
{
    field.value_of(grid, &key).unwrap_or(State::Single(0))
}

// The status of a cell.
pub(crate) fn status(refined: bool) -> Status
    ensures { result ≡ status_of refined }
{
    if refined {
        Status::Refined
    } else {
        Status::Leaf
    }
}
