//! The enter of a cell.
ghost use Rattle.std.specs.Prelude.{◌≡◌, ◌<◌, ◌≤◌, ◌*◌, ◌+◌, ◌++◌, ◌∷◌, [], length, slice_set, IsTrue, IsFalse, Option, List, pos, ◌≤ℤ◌, ◌+ℤ◌, false};
ghost use Rattle.peano_keys.specs.Dim.{axes, corners};
ghost use Rattle.peano_records.specs.declared.view.Corner.TheVariants.{Vertex};
ghost use Rattle.vertex_stacks.specs.Lists.{lane_at};
ghost use Rattle.vertex_stacks.specs.Tales.{capped};
ghost use Rattle.tree_automaton.specs.TreeLists.{page_count};
ghost use Rattle.peano_keys.specs.Cell.{IsCell, parent_of};
ghost use Rattle.peano_keys.specs.Field.{value_of, sides_of};
ghost use Rattle.sweep_visits.specs.Visits.{Visit};
ghost use Rattle.sweep_visits.specs.Moves.{Move};
ghost use Rattle.tree_automaton.specs.declared.kinds.Serves.TheVariants.{Plain};
ghost use Rattle.tree_automaton.specs.Sweep.{TreeSweep, served_by};
ghost use Rattle.tree_automaton.specs.Decisions.{Decides};
ghost use Rattle.tree_automaton.specs.Handed.{IsRound, IsRoundIn, IsToldAbove};
ghost use Rattle.tree_automaton.specs.Views.{CarriesFrom, IsPlace, value_at_home, seen};
ghost use Rattle.tree_automaton.specs.Story.{Story};
ghost use Rattle.tree_automaton.specs.Visits.{EnterAsks, EnterGives, IsSameTree, will_first, vertex_part, vertices_in};
ghost use Rattle.tree_automaton.specs.Corners.{CornerAsks, CornerGives, CornersAsk, CornersGive, ReadAsks, ReadGives, AreTaken, MovesVertices, AreBeyond};

use crate::automaton::Automaton;
use crate::decide::{Course, Entry, around, entry_of, is_old};
use crate::kinds::Serves;
use crate::store::TreeStore;
use crate::views::{blank_view, edges};
use handed_down::{ChildVertices, Surroundings};
use hanging_nodes::sides_into;
use peano_keys::{
    CellKey, Dim, Sides, State, corner as corner_key, corner_count, home_corner, slot_of,
};
use peano_records::{CellView, Corner, Stored};
use vertex_stacks::Kind;

// Makes a corner one with a record, which is to be written over.
fn make_vertex(corner: &mut Corner)
    ensures { (v : Stored) × (corner.new ≡ Vertex v) }
{
    match corner {
        Corner::Vertex(_) => {}
        _ => {
            *corner = Corner::Vertex(Stored::blank());
        }
    }
}

// Takes the next vertex of the input into a corner; false where the input is empty.
fn take_input(store: &mut TreeStore, corner: &mut Corner) -> bool
    ensures none { IsFalse result → store.old.lanes.input ≡ [] }
    ensures first { IsTrue result
        → (v : Stored) × (corner.new ≡ Vertex v)
        × (store.old.lanes.input ≡ v ∷ store.new.lanes.input) }
    ensures others { IsTrue result → store.new ≡ record store.old {
      lanes = record store.old.lanes {
        input = store.new.lanes.input;
        spare = store.new.lanes.spare;
        taken = capped (store.old.lanes.taken + 1);
      };
    } }
    ensures spare { IsTrue result → (store.old.lanes.spare +ℤ pos 1) ≤ℤ store.new.lanes.spare }
    ensures pages { page_count store.new.lanes ≡ page_count store.old.lanes }
{
    make_vertex(corner);
    match corner {
        Corner::Vertex(v) => store.take_input_into(v),
        _ => unreachable!(),
    }
}

// Takes the last vertex of a lane into a corner; false where the lane is empty.
fn pop(store: &mut TreeStore, lane: u32, corner: &mut Corner) -> bool
    requires { lane < 2 * axes store.old.lanes.dim }
    ensures none { IsFalse result → lane_at store.old.lanes lane ≡ [] }
    ensures last { IsTrue result
        → (v : Stored) × (corner.new ≡ Vertex v)
        × (lane_at store.old.lanes lane ≡ lane_at store.new.lanes lane ++ v ∷ []) }
    ensures others { IsTrue result → store.new ≡ record store.old {
      lanes = record store.old.lanes {
        lanes = slice_set store.old.lanes.lanes lane (lane_at store.new.lanes lane);
        spare = store.new.lanes.spare;
      };
    } }
    ensures spare { IsTrue result → (store.old.lanes.spare +ℤ pos 1) ≤ℤ store.new.lanes.spare }
    ensures pages { page_count store.new.lanes ≡ page_count store.old.lanes }
{
    make_vertex(corner);
    match corner {
        Corner::Vertex(v) => store.pop_into(lane, v),
        _ => unreachable!(),
    }
}

// Takes one corner of a cell into its place.
fn take_corner(
    store: &mut TreeStore,
    course: &Course,
    parent: Option<&CellView>,
    told: Option<&ChildVertices>,
    round: &Surroundings,
    cell: CellKey,
    n: u32,
    corner: &mut Corner,
)
    requires cell { IsCell course.now.dim cell }
    requires corner { n < corners course.now.dim }
    requires round { IsRound course.now cell round.now }
    requires told { IsToldAbove course.now.dim course.now.serves (seen parent) (seen told) }
    requires asks { (m : Story) × (made : List Move) × (more : List Move)
        × CornerAsks m made more course.now (seen parent) cell n store.old }
    ensures taken { (m : Story) (made more : List Move)
        → CornerAsks m made more course.now (seen parent.entry) cell n store.old
        → CornerGives m made more cell n store.new corner.new }
    ensures others { MovesVertices store.old store.new }
    ensures spare { course.now.serves ≡ Plain
        → (store.old.lanes.spare +ℤ pos (vertex_part corner.new)) ≤ℤ store.new.lanes.spare }
{
    match entry_of(course, parent, told, round, cell, n) {
        Entry::Lane(lane) => {
            if !pop(store, lane, corner) {
                unreachable!();
            }
        }
        Entry::Input => {
            if !take_input(store, corner) {
                unreachable!();
            }
        }
        Entry::Made => {
            *corner = Corner::Vertex(Stored::new(course.dim, corner_key(course.dim, cell, n)));
        }
        Entry::Hanging => {
            *corner = Corner::Hanging(corner_key(course.dim, cell, n));
        }
    }
}

// Takes all corners of a cell into their places, the greatest number first.
fn take_corners(
    store: &mut TreeStore,
    course: &Course,
    parent: Option<&CellView>,
    told: Option<&ChildVertices>,
    round: &Surroundings,
    cell: CellKey,
    taken: &mut [Corner; 8],
)
    requires cell { IsCell course.now.dim cell }
    requires eight { length taken.old ≡ 8 }
    requires beyond { AreBeyond (corners course.now.dim) taken.old }
    requires round { IsRound course.now cell round.now }
    requires told { IsToldAbove course.now.dim course.now.serves (seen parent) (seen told) }
    requires asks { (m : Story) × (made : List Move) × (more : List Move)
        × CornersAsk m made more course.now (seen parent) cell store.old }
    ensures eight { length taken.new ≡ 8 }
    ensures taken { (m : Story) (made more : List Move)
        → CornersAsk m made more course.now (seen parent.entry) cell store.old
        → CornersGive m more course.now cell 0 store.new taken.new }
    ensures beyond { AreBeyond (corners course.now.dim) taken.new }
    ensures others { MovesVertices store.old store.new }
    ensures spare { course.now.serves ≡ Plain
        → (store.old.lanes.spare +ℤ pos (vertices_in taken.new)) ≤ℤ store.new.lanes.spare }
{
    let count = corner_count(course.dim);
    for k in 0..count {
        let n = count - 1 - k;
        take_corner(
            store,
            course,
            parent,
            told,
            round,
            cell,
            n,
            &mut taken[n as usize],
        );
    }
}

// What the old grid's stream has of a cell: whether it is refined, none where it is no cell there, and its task.
fn read_cell(
    store: &mut TreeStore,
    course: &Course,
    parent: Option<&CellView>,
    cell: CellKey,
) -> (Option<bool>, u32)
    requires asks { (m : Story) × (made : List Visit) × (more : List Visit)
        × ReadAsks m made more course.now (seen parent) cell store.old }
    ensures read { (m : Story) (made more : List Visit)
        → ReadAsks m made more course.now (seen parent.entry) cell store.old
        → ReadGives m made more cell store.new result.0 result.1 }
    ensures others { store.new ≡ record store.old { cells = store.new.cells; live = false } }
{
    if !is_old(course, parent) {
        store.stop();
        return (None, 0);
    }
    match store.read() {
        Some(found) => (Some(found.refined), found.task),
        None => unreachable!(),
    }
}

// What a cell sees across its faces, where a plain sweep tells, written over what stands in its place.
fn sides_here(
    course: &Course,
    parent: Option<&CellView>,
    cell: CellKey,
    taken: &[Corner; 8],
    sides: &mut Sides,
)
    requires cell { IsCell course.now.dim cell }
    requires asks { (p : TreeSweep) × Decides p course.now (seen parent) cell }
    ensures { (m : Story) → Decides m.sweep course.now (seen parent.entry) cell
        → course.now.serves ≡ Plain → AreTaken m cell taken.now
        → sides.new ≡ sides_of m.sweep.plan.new m.sweep.field cell }
{
    match course.serves {
        Serves::Plain => match parent {
            Some(view) => sides_into(course.dim, cell, view, taken, sides),
            None => {
                *sides = edges();
            }
        },
        Serves::Raising | Serves::Adapting => {
            *sides = edges();
        }
    }
}

// The value in the parent's slot at its home corner; in a plain sweep that of the parent.
fn carried_here(course: &Course, parent: Option<&CellView>, cell: CellKey) -> State
    requires cell { IsCell course.now.dim cell }
    requires asks { (p : TreeSweep) × Decides p course.now (seen parent) cell }
    ensures at_home { CarriesFrom course.now.dim (seen parent.entry) result }
    ensures plain { (p : TreeSweep) → Decides p course.now (seen parent.entry) cell
        → course.now.serves ≡ Plain → 0 < cell.level
        → result ≡ value_of p.plan.new p.field (parent_of cell) }
{
    match parent {
        Some(view) => carried_from(course.dim, view),
        None => State::one(0),
    }
}

// The value in the cell's slot at its home corner.
fn carried_from(dim: Dim, view: &CellView) -> State
    requires cell { IsCell dim view.now.key }
    requires eight { length view.now.corners ≡ 8 }
    ensures { result ≡ value_at_home dim view.now }
{
    let home = home_corner(dim, view.key);
    match &view.corners[home as usize] {
        Corner::Vertex(stored) => stored.slot(slot_of(dim, home)).value,
        _ => State::one(0),
    }
}

// `will` as the cell is entered.
fn first_will(serves: Serves, was: Option<bool>) -> Option<bool>
    ensures { result ≡ will_first serves was }
{
    match serves {
        Serves::Plain => was,
        Serves::Raising | Serves::Adapting => None,
    }
}

// Enters a cell into a view, whatever the view held.
pub(crate) fn enter_into(
    store: &mut TreeStore,
    parent: Option<&CellView>,
    told: Option<&ChildVertices>,
    round: &Surroundings,
    cell: CellKey,
    kind: Kind,
    view: &mut CellView,
)
    requires cell { IsCell store.old.lanes.dim cell }
    requires round { IsRoundIn store.old cell round.now }
    requires told { IsToldAbove store.old.lanes.dim (served_by kind) (seen parent) (seen told) }
    requires place { IsPlace store.old.lanes.dim view.old }
    requires asks { (m : Story) × (made : List Visit) × (more : List Visit)
        × EnterAsks m made more (seen parent) cell kind store.old }
    ensures entered { (m : Story) (made more : List Visit)
        → EnterAsks m made more (seen parent.entry) cell kind store.old
        → EnterGives m made more cell store.new view.new }
    ensures carried { CarriesFrom store.old.lanes.dim (seen parent.entry) view.new.carried }
    ensures key { view.new.key ≡ cell }
    ensures place { IsPlace store.old.lanes.dim view.new }
    ensures others { store.new
        ≡ record store.old { cells = store.new.cells; lanes = store.new.lanes; live = false } }
    ensures tree { IsSameTree store.old store.new }
    ensures spare { served_by kind ≡ Plain
        → (store.old.lanes.spare +ℤ pos (vertices_in view.new.corners)) ≤ℤ store.new.lanes.spare }
{
    let course = store.course(kind);
    let (was, task) = read_cell(store, &course, parent, cell);
    take_corners(store, &course, parent, told, round, cell, &mut view.corners);
    view.key = cell;
    view.was = was;
    view.will = first_will(course.serves, was);
    view.task = task;
    sides_here(&course, parent, cell, &view.corners, &mut view.sides);
    view.carried = carried_here(&course, parent, cell);
}

impl Automaton {
    /// Enters a cell: takes its record and its corners, and makes its view.
    pub fn enter(
        store: &mut TreeStore,
        parent: Option<&CellView>,
        cell: CellKey,
        kind: Kind,
    ) -> CellView
        requires cell { IsCell store.old.lanes.dim cell }
        requires asks { (m : Story) × (made : List Visit) × (more : List Visit)
            × EnterAsks m made more (seen parent) cell kind store.old }
        ensures entered { (m : Story) (made more : List Visit)
            → EnterAsks m made more (seen parent.entry) cell kind store.old
            → EnterGives m made more cell store.new result }
        ensures carried { CarriesFrom store.old.lanes.dim (seen parent.entry) result.carried }
        ensures others { store.new
            ≡ record store.old { cells = store.new.cells; lanes = store.new.lanes; live = false } }
        ensures tree { IsSameTree store.old store.new }
        ensures spare { served_by kind ≡ Plain
            → (store.old.lanes.spare +ℤ pos (vertices_in result.corners)) ≤ℤ store.new.lanes.spare }
    {
        let mut view = blank_view();
        let round = around(&store.course(kind), parent, cell);
        enter_into(store, parent, None, &round, cell, kind, &mut view);
        view
    }
}
