//! The next field: each leaf of the next grid takes the value of the cell that it comes from, in the field of new states.
ghost use Rattle.std.specs.Prelude.{◌≡◌, IfOk};
ghost use Rattle.peano_keys.specs.Cell.{IsCell};
ghost use Rattle.peano_keys.specs.Field.{value_of};
ghost use Rattle.solver_api.specs.Step.{source_of};
ghost use Rattle.spacetree.specs.Marked.{Inherits};

use crate::field::Field;
use crate::grid::Grid;
use crate::means::value;
use peano_keys::{CellKey, State, parent};
use std::alloc::{AllocError, Global};

// The state that a leaf of the next grid takes from the new states: the value of its source, which is itself where the grid
// has it, else its parent, which was split.
fn inherited(grid: &Grid, states: &Field, key: CellKey) -> State
    requires { IsCell grid.now.dim key }
    ensures { result ≡ value_of grid.now states.now (source_of grid.now key) }
{
    if grid.has_cell(&key) {
        value(grid, states, key)
    } else {
        value(grid, states, parent(key))
    }
}

// The field on the next grid, from the new states of the leaves of the old one.
pub(crate) fn next_field(
    alloc: Global,
    old: &Grid,
    next: &Grid,
    states: &Field,
) -> Result<Field, AllocError>
    requires { next.now.dim ≡ old.now.dim }
    ensures { IfOk result (λ after. Inherits old.now next.now states.now after) }
{
    let leaves = next.leaves(alloc)?;
    let mut after = Field::empty(alloc);
    for leaf in leaves.as_slice() {
        after.set(*leaf, inherited(old, states, *leaf))?;
    }
    Ok(after)
}
