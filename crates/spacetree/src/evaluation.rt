//! The plain evaluator: steps by coordinates over sorted sets and maps.
ghost use Rattle.std.specs.Prelude.{◌≡◌, ◌≤◌, ◌^◌, ℕ, false, IfOk, IfErr, OnOk};
ghost use Rattle.peano_keys.specs.Grid.{IsGrid};
ghost use Rattle.spacetree.specs.Leaves.{ListsLeaves};
ghost use Rattle.spacetree.specs.Fields.{IsFieldOn};
ghost use Rattle.spacetree.specs.Evaluation.{Evaluates, EndsIn, IsServedStep, NeverCrowds, NeverOverflows, StepFails};

use crate::fault::EvalFault;
use crate::field::Field;
use crate::grid::Grid;
use crate::means::state;
use crate::next_field::next_field;
use crate::next_grid::next_grid;
use crate::update::update_leaves;
use peano_keys::CellKey;
use solver_api::Solver;
use std::alloc::{AllocError, Global};

/// The grid and the field after one step of a solver; a refusal names the step by the number given. The marks and the new
/// states come from the field: leaves that are marked to be refined split, and a refined cell whose children are all leaves
/// that are marked to be coarsened merges. It is refused at the least leaf that overflows, or, where none does, because the
/// next grid would have more than 200,000 cells. Where no leaf is to be refined or coarsened the grid is handed back as it
/// is. The solver's deepest level is at most 12.
pub fn advance<S: Solver>(
    alloc: Global,
    grid: Grid,
    field: &Field,
    solver: &S,
    step: u32,
) -> Result<(Grid, Field), EvalFault>
    requires deepest { S.deepest_of solver.now ≤ 12 }
    requires field { IsFieldOn (S.parts_of solver.now) grid field.now }
    ensures ok { IfOk result
        (λ after. IsServedStep (S.updated solver.now)
        (S.marked solver.now) grid field.now after.0 after.1) }
    ensures field { IfOk result (λ after. IsFieldOn (S.parts_of solver.now) after.0 after.1) }
    ensures served { IfOk result (λ after. IsGrid 12 after.0) }

    // The grid goes no deeper than it was and the solver refines.
    ensures grid { IfOk result
        (λ after. (depth : ℕ) → S.deepest_of solver.now ≤ depth → IsGrid depth grid
        → IsGrid depth after.0) }

    // Without a criterion it stays.
    ensures stays { S.adapting solver.now ≡ false → IfOk result (λ after. after.0 ≡ grid) }
    ensures err { IfErr result
        (StepFails (S.updated solver.now) (S.marked solver.now) grid field.now step) }
{
    let leaves = grid.found_leaves(alloc)?;
    let update = update_leaves(alloc, &grid, field, solver, leaves.as_slice(), step)?;
    if update.keeps_all() {
        return Ok((grid, update.states));
    }
    let next = next_grid(alloc, &grid, &update, step)?;
    let after = next_field(alloc, &grid, &next, &update.states)?;
    Ok((next, after))
}

// A field again.
fn copied(
    alloc: Global,
    grid: &Grid,
    field: &Field,
    leaves: &[CellKey],
    parts: u32,
) -> Result<Field, AllocError>
    requires field { IsFieldOn parts grid.now field.now }
    requires leaves { ListsLeaves grid.now leaves.now }
    ensures { IfOk result (λ copy. copy ≡ field.now) }
{
    let mut copy = Field::empty(alloc);
    for leaf in leaves {
        copy.set(*leaf, state(field, leaf))?;
    }
    Ok(copy)
}

/// The grid and the field after so many steps of a solver. In each step the marks and the new states come from the field
/// before it: leaves that are marked to be refined split, and a refined cell whose children are all leaves that are marked
/// to be coarsened merges. It ends at the first step that is refused: at the least leaf that overflows, or, where none does,
/// because the next grid would have more than 200,000 cells. The solver's deepest level is at most 12.
pub fn evaluate<S: Solver>(
    alloc: Global,
    grid: &Grid,
    field: &Field,
    solver: &S,
    steps: u32,
) -> Result<(Grid, Field), EvalFault>
    requires deepest { S.deepest_of solver.now ≤ 12 }
    requires field { IsFieldOn (S.parts_of solver.now) grid.now field.now }
    ensures ok { IfOk result
        (λ after. Evaluates (S.updated solver.now)
        (S.marked solver.now) grid.now field.now steps after.0 after.1) }
    ensures field { IfOk result (λ after. IsFieldOn (S.parts_of solver.now) after.0 after.1) }
    ensures served { IfOk result (λ after. IsGrid 12 after.0) }

    // The grid never goes deeper than it was and the solver refines.
    ensures grid { IfOk result
        (λ after. (depth : ℕ) → S.deepest_of solver.now ≤ depth → IsGrid depth grid.now
        → IsGrid depth after.0) }

    // Without a criterion it stays.
    ensures stays { S.adapting solver.now ≡ false → IfOk result (λ after. after.0 ≡ grid.now) }
    ensures err { IfErr result
        (EndsIn (S.updated solver.now) (S.marked solver.now) grid.now field.now steps) }

    // Where it goes through, no step overflows at any leaf, and none is crowded.
    ensures through { OnOk result
        (NeverOverflows (S.updated solver.now) (S.marked solver.now) grid.now field.now steps) }
    ensures room { OnOk result
        (NeverCrowds (S.updated solver.now) (S.marked solver.now) grid.now field.now steps) }
{
    let leaves = grid.found_leaves(alloc)?;
    let mut states = copied(alloc, grid, field, leaves.as_slice(), solver.parts())?;
    let mut tree = grid.copied()?;
    for step in 0..steps {
        let (next, after) = advance(alloc, tree, &states, solver, step + 1)?;
        tree = next;
        states = after;
    }
    Ok((tree, states))
}
