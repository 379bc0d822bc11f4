//! What a step makes of the leaves of a grid: their new states and their marks.
ghost use Rattle.std.specs.Prelude.{◌≡◌, ◌↔◌, ◌≤◌, ◌^◌, IfOk, IfErr, IfSome, IsTrue, OnOk, length};
ghost use Rattle.std.specs.FinMap as fin;
ghost use Rattle.std.specs.FinSet as set;
ghost use Rattle.peano_keys.specs.declared.side.Mark.TheVariants.{Refine, Coarsen};
ghost use Rattle.peano_keys.specs.State.{count_of};
ghost use Rattle.peano_keys.specs.Grid.{IsGrid};
ghost use Rattle.solver_api.specs.Step.{IsLeafOf, marks_of, new_state};
ghost use Rattle.spacetree.specs.Leaves.{ListsLeaves};
ghost use Rattle.spacetree.specs.Fields.{IsFieldOn};
ghost use Rattle.spacetree.specs.Evaluation.{StepFails};
ghost use Rattle.spacetree.specs.Marked.{AreMarked, HasNewStates, IsAddedWhere};

use crate::cells::CellSet;
use crate::fault::EvalFault;
use crate::field::Field;
use crate::grid::Grid;
use crate::means::state;
use crate::side::sides;
use peano_keys::{CellKey, Mark, State};
use solver_api::Solver;
use std::alloc::{AllocError, Global};

// The new states of the leaves of a grid, and those that are marked to be refined or coarsened.
#[derive(Drop)]
pub(crate) struct Update {
    pub(crate) states: Field,
    pub(crate) refine: CellSet,
    pub(crate) coarsen: CellSet,
}

// The new state of a leaf, none where a value leaves its range, and its mark.
#[derive(Clone, Copy)]
struct LeafUpdate {
    state: Option<State>,
    mark: Mark,
}

// What a step makes of a leaf, from the same sides.
fn update_leaf<S: Solver>(grid: &Grid, field: &Field, solver: &S, leaf: CellKey) -> LeafUpdate
    requires grid { IsGrid 12 grid.now }
    requires field { IsFieldOn (S.parts_of solver.now) grid.now field.now }
    requires leaf { IsLeafOf grid.now leaf }
    ensures state { result.state ≡ new_state (S.updated solver.now) grid.now field.now leaf }
    ensures count { IfSome result.state (λ s. count_of s ≡ S.parts_of solver.now) }
    ensures mark { result.mark ≡ marks_of (S.marked solver.now) grid.now field.now leaf }
{
    let own = state(field, &leaf);
    let around = sides(grid, field, leaf);
    LeafUpdate {
        state: solver.update(&own, &around, leaf.level),
        mark: solver.mark(&own, &around, leaf.level),
    }
}

// Adds a leaf to a set where it has the mark that the set is for.
fn note(cells: &mut CellSet, leaf: CellKey, mark: Mark, wanted: Mark) -> Result<(), AllocError>
    ensures { OnOk result (IsAddedWhere (mark ≡ wanted) leaf cells.old cells.new) }
{
    if mark != wanted {
        return Ok(());
    }
    cells.insert(leaf)
}

impl Update {
    // The new states and marks of no leaf.
    fn empty(alloc: Global) -> Update
        ensures states { result.states ≡ fin.empty }
        ensures refine { result.refine ≡ set.empty }
        ensures coarsen { result.coarsen ≡ set.empty }
    {
        Update {
            states: Field::empty(alloc),
            refine: CellSet::new(alloc),
            coarsen: CellSet::new(alloc),
        }
    }

    // Whether no leaf is to be refined or coarsened.
    pub(crate) fn keeps_all(&self) -> bool
        ensures { IsTrue result ↔ ((self.now.refine ≡ set.empty) × (self.now.coarsen ≡ set.empty)) }
    {
        self.refine.is_empty() && self.coarsen.is_empty()
    }

    // Adds a leaf with its new state and its mark.
    fn add(&mut self, leaf: CellKey, state: State, mark: Mark) -> Result<(), AllocError>
        ensures states { OnOk result (self.new.states ≡ fin.insert self.old.states leaf state) }
        ensures refine { OnOk result
            (IsAddedWhere (mark ≡ Refine) leaf self.old.refine self.new.refine) }
        ensures coarsen { OnOk result
            (IsAddedWhere (mark ≡ Coarsen) leaf self.old.coarsen self.new.coarsen) }
    {
        self.states.set(leaf, state)?;
        note(&mut self.refine, leaf, mark, Mark::Refine)?;
        note(&mut self.coarsen, leaf, mark, Mark::Coarsen)
    }
}

// The new states and the marks of all leaves of a grid, in key order.
pub(crate) fn update_leaves<S: Solver>(
    alloc: Global,
    grid: &Grid,
    field: &Field,
    solver: &S,
    leaves: &[CellKey],
    step: u32,
) -> Result<Update, EvalFault>
    requires grid { IsGrid 12 grid.now }
    requires field { IsFieldOn (S.parts_of solver.now) grid.now field.now }
    requires leaves { ListsLeaves grid.now leaves.now }
    ensures states { IfOk result
        (λ update. HasNewStates (S.updated solver.now) grid.now field.now update.states) }
    ensures field { IfOk result
        (λ update. IsFieldOn (S.parts_of solver.now) grid.now update.states) }
    ensures marks { IfOk result
        (λ update. AreMarked grid.now
        (marks_of (S.marked solver.now) grid.now field.now) update.refine update.coarsen) }
    ensures count { IfOk result (λ update. set.len update.refine ≤ length leaves.now) }
    ensures err { IfErr result
        (StepFails (S.updated solver.now) (S.marked solver.now) grid.now field.now step) }
{
    let mut update = Update::empty(alloc);
    for leaf in leaves {
        let told = update_leaf(grid, field, solver, *leaf);
        match told.state {
            None => return Err(EvalFault::Overflow { step, key: *leaf }),
            Some(state) => update.add(*leaf, state, told.mark)?,
        }
    }
    Ok(update)
}
