//! The leave of a cell.
ghost use Rattle.std.specs.Prelude.{◌≡◌, ◌<◌, ◌≤◌, ◌+◌, ◌++◌, length, Option, List, Some, OnOk, IsOk, true, pos, ◌≤ℤ◌, ◌+ℤ◌, if◌then◌else◌};
ghost use Rattle.peano_keys.specs.Dim.{corners};
ghost use Rattle.peano_keys.specs.Cell.{IsCell};
ghost use Rattle.sweep_visits.specs.Visits.{Visit};
ghost use Rattle.sweep_visits.specs.Moves.{Move};
ghost use Rattle.vertex_stacks.specs.Tales.{capped};
ghost use Rattle.tree_automaton.specs.TreeLists.{spare_cells};
ghost use Rattle.tree_automaton.specs.Sweep.{TreeSweep, served_by};
ghost use Rattle.tree_automaton.specs.Decisions.{Decides};
ghost use Rattle.tree_automaton.specs.Handed.{IsRound, IsRoundIn, IsToldAbove};
ghost use Rattle.tree_automaton.specs.Views.{seen};
ghost use Rattle.tree_automaton.specs.Story.{Story};
ghost use Rattle.tree_automaton.specs.Moments.{record_by};
ghost use Rattle.tree_automaton.specs.Visits.{LeaveAsks, LeaveGives, IsSameTree, vertex_part, vertices_in};
ghost use Rattle.tree_automaton.specs.Corners.{GiveAsks, GiveAllAsks, GivenBelow, GiveGives, MovesVertices, is_leaf_left};

use crate::automaton::Automaton;
use crate::decide::{Course, Exit, around, exit_of, is_owned};
use crate::store::TreeStore;
use handed_down::{ChildVertices, Surroundings};
use peano_keys::{CellKey, corner_count};
use peano_records::{CellRecord, CellView, Corner};
use std::alloc::AllocError;
use vertex_stacks::Kind;

// Gives one corner of a cell; what stays in its place may be written over.
fn give_corner(
    store: &mut TreeStore,
    course: &Course,
    parent: Option<&CellView>,
    told: Option<&ChildVertices>,
    round: &Surroundings,
    cell: CellKey,
    n: u32,
    given: &mut Corner,
) -> Result<(), AllocError>
    requires cell { IsCell course.now.dim cell }
    requires corner { n < corners course.now.dim }
    requires round { IsRound course.now cell round.now }
    requires told { IsToldAbove course.now.dim course.now.serves (seen parent) (seen told) }
    requires asks { (m : Story) × (made : List Move) × (more : List Move)
        × GiveAsks m made more course.now (seen parent) cell n given.old store.old }
    ensures left { given.new ≡ given.old }
    ensures given { OnOk result ((m : Story) (made more : List Move)
        → GiveAsks m made more course.now (seen parent.entry) cell n given.old store.old
        → GiveGives m made more cell n store.new) }
    ensures others { MovesVertices store.old store.new }
    ensures spare { OnOk result
        (store.old.lanes.spare ≤ℤ (store.new.lanes.spare +ℤ pos (vertex_part given.old))) }
    ensures memory { pos (vertex_part given.old) ≤ℤ store.old.lanes.spare → IsOk result }
{
    match given {
        Corner::Vertex(v) => match exit_of(course, parent, told, round, cell, n) {
            Exit::Lane(lane) => store.push_from(lane, v),
            Exit::Output => store.put_output_from(v),
            Exit::GivenUp => Ok(()),
        },
        _ => Ok(()),
    }
}

// Gives all corners of a cell, the least number first; what stays in their places may be written over.
fn give_corners(
    store: &mut TreeStore,
    course: &Course,
    parent: Option<&CellView>,
    told: Option<&ChildVertices>,
    round: &Surroundings,
    cell: CellKey,
    given: &mut [Corner; 8],
) -> Result<(), AllocError>
    requires cell { IsCell course.now.dim cell }
    requires eight { length given.old ≡ 8 }
    requires round { IsRound course.now cell round.now }
    requires told { IsToldAbove course.now.dim course.now.serves (seen parent) (seen told) }
    requires asks { (m : Story) × (made : List Move) × (more : List Move)
        × GiveAllAsks m made more course.now (seen parent) cell given.old store.old }
    ensures left { given.new ≡ given.old }
    ensures given { OnOk result ((m : Story) (made more : List Move)
        → GiveAllAsks m made more course.now (seen parent.entry) cell given.old store.old
        → GivenBelow m more cell (corners course.now.dim) 0 store.new) }
    ensures others { MovesVertices store.old store.new }
    ensures spare { OnOk result
        (store.old.lanes.spare ≤ℤ (store.new.lanes.spare +ℤ pos (vertices_in given.old))) }
    ensures memory { pos (vertices_in given.old) ≤ℤ store.old.lanes.spare → IsOk result }
{
    for n in 0..corner_count(course.dim) {
        give_corner(
            store,
            course,
            parent,
            told,
            round,
            cell,
            n,
            &mut given[n as usize],
        )?;
    }
    Ok(())
}

// Writes the record of a cell of the new grid, and counts it where it is a leaf that the tree owns.
fn write_cell(
    store: &mut TreeStore,
    course: &Course,
    parent: Option<&CellView>,
    round: &Surroundings,
    cell: CellKey,
    will: Option<bool>,
    task: u32,
) -> Result<(), AllocError>
    requires cell { IsCell course.now.dim cell }
    requires round { IsRound course.now cell round.now }
    requires asks { (p : TreeSweep) × Decides p course.now (seen parent) cell }
    ensures written { OnOk result (store.new.written ≡ store.old.written ++ record_by will task) }
    ensures counted { OnOk result
        ((p : TreeSweep) → Decides p course.now (seen parent.entry) cell
        → store.new.counted
        ≡ (if is_leaf_left p.plan cell will then capped (store.old.counted + 1)
        else store.old.counted)) }
    ensures others { store.new
        ≡ record store.old {
          written = store.new.written;
          cell_room = store.new.cell_room;
          counted = store.new.counted;
        } }
    ensures room { store.old.cell_room ≤ store.new.cell_room }
    ensures memory { 0 < spare_cells store.old → IsOk result }
{
    let Some(refined) = will else {
        return Ok(());
    };
    store.write(CellRecord { refined, task })?;
    if refined {
        return Ok(());
    }
    if is_owned(course, parent, round, cell) {
        store.count_leaf();
    }
    Ok(())
}

// Leaves the cell of a view; what stays in the view may be written over.
pub(crate) fn leave_from(
    store: &mut TreeStore,
    parent: Option<&CellView>,
    told: Option<&ChildVertices>,
    round: &Surroundings,
    view: &mut CellView,
    kind: Kind,
) -> Result<(), AllocError>
    requires cell { IsCell store.old.lanes.dim view.old.key }
    requires round { IsRoundIn store.old view.old.key round.now }
    requires told { IsToldAbove store.old.lanes.dim (served_by kind) (seen parent) (seen told) }
    requires asks { (m : Story) × (made : List Visit) × (more : List Visit)
        × LeaveAsks m made more (seen parent) view.old.key view.old kind store.old }
    ensures stays { view.new ≡ view.old }
    ensures left { OnOk result ((m : Story) (made more : List Visit)
        → LeaveAsks m made more (seen parent.entry) view.old.key view.old kind store.old
        → LeaveGives m made more view.old.key view.old store.new) }
    ensures others { store.new
        ≡ record store.old {
          written = store.new.written;
          lanes = store.new.lanes;
          cell_room = store.new.cell_room;
          counted = store.new.counted;
        } }
    ensures tree { IsSameTree store.old store.new }
    ensures spare { OnOk result
        (store.old.lanes.spare ≤ℤ (store.new.lanes.spare +ℤ pos (vertices_in view.old.corners))) }
    ensures cells { spare_cells store.old ≤ spare_cells store.new + 1 }
    ensures room { store.old.cell_room ≤ store.new.cell_room }
    ensures memory { pos (vertices_in view.old.corners) ≤ℤ store.old.lanes.spare
        → 0 < spare_cells store.old → IsOk result }
{
    let course = store.course(kind);
    give_corners(
        store,
        &course,
        parent,
        told,
        round,
        view.key,
        &mut view.corners,
    )?;
    write_cell(
        store, &course, parent, round, view.key, view.will, view.task,
    )
}

impl Automaton {
    /// Leaves a cell: gives its corners and its record back. Takes no memory where the lanes have room to spare for the
    /// view's vertices, and the cell stream for one record.
    pub fn leave(
        store: &mut TreeStore,
        parent: Option<&CellView>,
        view: CellView,
        kind: Kind,
    ) -> Result<(), AllocError>
        requires cell { IsCell store.old.lanes.dim view.key }
        requires asks { (m : Story) × (made : List Visit) × (more : List Visit)
            × LeaveAsks m made more (seen parent) view.key view kind store.old }
        ensures left { OnOk result ((m : Story) (made more : List Visit)
            → LeaveAsks m made more (seen parent.entry) view.key view kind store.old
            → LeaveGives m made more view.key view store.new) }
        ensures others { store.new
            ≡ record store.old {
              written = store.new.written;
              lanes = store.new.lanes;
              cell_room = store.new.cell_room;
              counted = store.new.counted;
            } }
        ensures tree { IsSameTree store.old store.new }
        ensures spare { OnOk result
            (store.old.lanes.spare ≤ℤ (store.new.lanes.spare +ℤ pos (vertices_in view.corners))) }
        ensures cells { spare_cells store.old ≤ spare_cells store.new + 1 }
        ensures room { store.old.cell_room ≤ store.new.cell_room }
        ensures memory { pos (vertices_in view.corners) ≤ℤ store.old.lanes.spare
            → 0 < spare_cells store.old → IsOk result }
    {
        let mut view = view;
        let round = around(&store.course(kind), parent, view.key);
        leave_from(store, parent, None, &round, &mut view, kind)
    }
}
