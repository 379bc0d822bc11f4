//! Where a corner comes from when its cell is entered, and where it goes when its cell is left.
ghost use Rattle.std.specs.Prelude.{◌≡◌, ◌↔◌, ◌<◌, ◌≤◌, ◌*◌, ℕ, length, Option, Some, IsTrue, true};
ghost use Rattle.peano_keys.specs.Dim.{axes, corners};
ghost use Rattle.peano_keys.specs.Cell.{IsCell, parent_of};
ghost use Rattle.peano_keys.specs.Vertex.{corner_of};
ghost use Rattle.peano_keys.specs.declared.cell.CellKey.{CellKey};
ghost use Rattle.peano_keys.specs.Grid.{Spacetree, has_cell};
ghost use Rattle.hanging_nodes.specs.Views.{AreGrids, Shows, IsStoredIn};
ghost use Rattle.sweep_visits.specs.Plan.{is_held, is_kept, is_stored, is_stored_in, is_cell_in};
ghost use Rattle.tree_automaton.specs.Sweep.{TreeSweep, is_owned};
ghost use Rattle.tree_automaton.specs.Decisions.{Decides, IsCourse, EntryIs, ExitIs, IsLaneIn, IsLaneOut};
ghost use Rattle.tree_automaton.specs.Handed.{IsRound, IsTold, IsToldAbove, asks_for};
ghost use Rattle.tree_automaton.specs.Views.{seen};

use crate::kinds::Serves;
use handed_down::{
    ChildVertices, Surroundings, is_corner_stored, next_of_run, previous_of_run, stored_below,
};
use hanging_nodes::stored_here;
use peano_curve::{Direction, Range, centre, interval, lane_of};
use peano_keys::{CellKey, Dim, VertexKey, corner};
use peano_records::CellView;

/// What a sweep is over, as far as a cell needs to know it.
#[derive(Clone, Copy)]
pub struct Course {
    pub dim: Dim,
    pub depth: u32,
    pub range: Range,
    pub dir: Direction,
    pub serves: Serves,
}

/// Where a corner comes from: a lane from the cell before, the input, nowhere as it is made, or nowhere as it hangs.
#[derive(Clone, Copy, Debug, PartialEq, Eq)]
pub enum Entry {
    Lane(u32),
    Input,
    Made,
    Hanging,
}

/// Where a kept corner goes: on a lane to the next cell, to the output, or nowhere as it is given up.
#[derive(Clone, Copy, Debug, PartialEq, Eq)]
pub enum Exit {
    Lane(u32),
    Output,
    GivenUp,
}

// Whether a corner of a child is stored in the old grid, or with `after` in the new one: as it was told of the parent's
// children, or as the parent's view tells now.
fn is_corner_told(
    course: &Course,
    parent: &CellView,
    told: Option<&ChildVertices>,
    after: bool,
    cell: CellKey,
    n: u32,
) -> bool
    requires cell { IsCell course.now.dim cell }
    requires corner { n < corners course.now.dim }
    requires child { parent_of cell ≡ parent.now.key }
    requires below { 1 ≤ cell.level }
    requires grid { asks_for course.now.serves after ≡ true }
    requires told { IsToldAbove course.now.dim course.now.serves (Some parent.now) (seen told) }
    ensures { (depth : ℕ) (old : Option Spacetree) (new : Spacetree)
        → AreGrids depth course.now.dim old new after
        → Shows course.now.dim old new after parent.now
        → IsTrue result ↔ IsStoredIn after old new (corner_of cell n) }
{
    match told {
        Some(told) => is_corner_stored(course.dim, told, after, cell, n),
        None => stored_here(course.dim, parent, &corner(course.dim, cell, n), after),
    }
}

// Nothing is told of a grid that is not asked.
fn untold() -> [bool; 64]
    ensures { length result ≡ 64 }
{
    [false; 64]
}

// Which vertices of the children of a view's cell are stored, in the grids that a sweep asks.
pub(crate) fn told_below(dim: Dim, serves: Serves, view: &CellView) -> ChildVertices
    requires cell { IsCell dim view.now.key }
    requires room { view.now.key.level < 12 }
    ensures { IsTold dim serves view.now result }
{
    match serves {
        Serves::Raising => ChildVertices {
            old_grid: untold(),
            new_grid: stored_below(dim, view, true),
        },
        Serves::Adapting => ChildVertices {
            old_grid: stored_below(dim, view, false),
            new_grid: stored_below(dim, view, true),
        },
        Serves::Plain => ChildVertices {
            old_grid: stored_below(dim, view, false),
            new_grid: untold(),
        },
    }
}

// Whether a corner is stored in the old grid.
fn is_stored_before(
    course: &Course,
    parent: Option<&CellView>,
    told: Option<&ChildVertices>,
    cell: CellKey,
    n: u32,
) -> bool
    requires cell { IsCell course.now.dim cell }
    requires corner { n < corners course.now.dim }
    requires told { IsToldAbove course.now.dim course.now.serves (seen parent) (seen told) }
    requires asks { (p : TreeSweep) × Decides p course.now (seen parent) cell }
    ensures { (p : TreeSweep) → Decides p course.now (seen parent.entry) cell
        → result ≡ is_stored_in p.plan.old (corner_of cell n) }
{
    match course.serves {
        Serves::Raising => false,
        Serves::Adapting | Serves::Plain => match parent {
            Some(view) => is_corner_told(course, view, told, false, cell, n),
            None => true,
        },
    }
}

// Whether a corner is stored in the new grid.
fn is_stored_after(
    course: &Course,
    parent: Option<&CellView>,
    told: Option<&ChildVertices>,
    cell: CellKey,
    n: u32,
) -> bool
    requires cell { IsCell course.now.dim cell }
    requires corner { n < corners course.now.dim }
    requires told { IsToldAbove course.now.dim course.now.serves (seen parent) (seen told) }
    requires asks { (p : TreeSweep) × Decides p course.now (seen parent) cell }
    ensures { (p : TreeSweep) → Decides p course.now (seen parent.entry) cell
        → result ≡ is_stored p.plan.new (corner_of cell n) }
{
    match parent {
        Some(view) => {
            let after = course.serves.tells_new();
            is_corner_told(course, view, told, after, cell, n)
        }
        None => true,
    }
}

// Whether a corner is stored in one of the grids, where it is known of the old one.
fn is_kept(
    course: &Course,
    parent: Option<&CellView>,
    told: Option<&ChildVertices>,
    cell: CellKey,
    n: u32,
    old: bool,
) -> bool
    requires cell { IsCell course.now.dim cell }
    requires corner { n < corners course.now.dim }
    requires told { IsToldAbove course.now.dim course.now.serves (seen parent) (seen told) }
    requires asks { (p : TreeSweep) × Decides p course.now (seen parent) cell }
    ensures { (p : TreeSweep) → Decides p course.now (seen parent.entry) cell
        → old ≡ is_stored_in p.plan.old (corner_of cell n)
        → result ≡ is_kept p.plan (corner_of cell n) }
{
    match course.serves {
        Serves::Plain => old,
        Serves::Raising | Serves::Adapting => {
            if old {
                return true;
            }
            is_stored_after(course, parent, told, cell, n)
        }
    }
}

// Whether a kept corner stays: in a plain sweep each does, as one grid stores it before and after.
fn is_staying(
    course: &Course,
    parent: Option<&CellView>,
    told: Option<&ChildVertices>,
    cell: CellKey,
    n: u32,
) -> bool
    requires cell { IsCell course.now.dim cell }
    requires corner { n < corners course.now.dim }
    requires told { IsToldAbove course.now.dim course.now.serves (seen parent) (seen told) }
    requires asks { (p : TreeSweep) × Decides p course.now (seen parent) cell }
    ensures { (p : TreeSweep) → Decides p course.now (seen parent.entry) cell
        → is_kept p.plan (corner_of cell n) ≡ true
        → result ≡ is_stored p.plan.new (corner_of cell n) }
{
    match course.serves {
        Serves::Plain => true,
        Serves::Raising | Serves::Adapting => is_stored_after(course, parent, told, cell, n),
    }
}

/// What a visited cell knows of the cells round it.
pub fn around(course: &Course, parent: Option<&CellView>, cell: CellKey) -> Surroundings
    requires cell { IsCell course.now.dim cell }
    requires asks { (p : TreeSweep) × Decides p course.now (seen parent) cell }
    ensures { IsRound course.now cell result }
{
    Surroundings::of_cell(course.dim, course.dir, course.depth, &course.range, cell)
}

/// Whether the tree holds a cell. Far from a cut no interval is looked at.
pub fn is_held(course: &Course, round: &Surroundings, cell: CellKey) -> bool
    requires cell { IsCell course.now.dim cell }
    requires above { cell.level ≤ course.now.depth }
    requires depth { course.now.depth ≤ 12 }
    requires round { IsRound course.now cell round.now }
    ensures { (p : TreeSweep) → IsCourse p course.now → result ≡ is_held p.plan cell }
{
    if round.whole {
        return true;
    }
    interval(course.dim, cell, course.depth).meets(&course.range)
}

/// Where a corner of a cell comes from, as the cell is entered.
pub fn entry_of(
    course: &Course,
    parent: Option<&CellView>,
    told: Option<&ChildVertices>,
    round: &Surroundings,
    cell: CellKey,
    n: u32,
) -> Entry
    requires cell { IsCell course.now.dim cell }
    requires corner { n < corners course.now.dim }
    requires told { IsToldAbove course.now.dim course.now.serves (seen parent) (seen told) }
    requires asks { (p : TreeSweep) × Decides p course.now (seen parent) cell }
    requires round { IsRound course.now cell round.now }
    ensures value { (p : TreeSweep) → Decides p course.now (seen parent.entry) cell
        → EntryIs p.plan cell (corner_of cell n) result }
    ensures lane { IsLaneIn course.now.dim result }
{
    let old = is_stored_before(course, parent, told, cell, n);
    if !is_kept(course, parent, told, cell, n, old) {
        return Entry::Hanging;
    }
    let v = corner(course.dim, cell, n);
    match previous_of_run(
        round,
        course.dim,
        course.dir,
        course.depth,
        &course.range,
        cell,
        n,
    ) {
        Some(axis) => Entry::Lane(lane_of(&v, axis)),
        None => { if old { Entry::Input } else { Entry::Made } }
    }
}

/// Where a kept corner of a cell goes, as the cell is left.
pub fn exit_of(
    course: &Course,
    parent: Option<&CellView>,
    told: Option<&ChildVertices>,
    round: &Surroundings,
    cell: CellKey,
    n: u32,
) -> Exit
    requires cell { IsCell course.now.dim cell }
    requires corner { n < corners course.now.dim }
    requires told { IsToldAbove course.now.dim course.now.serves (seen parent) (seen told) }
    requires asks { (p : TreeSweep) × Decides p course.now (seen parent) cell }
    requires round { IsRound course.now cell round.now }
    ensures value { (p : TreeSweep) → Decides p course.now (seen parent.entry) cell
        → is_kept p.plan (corner_of cell n) ≡ true → ExitIs p.plan cell (corner_of cell n) result }
    ensures lane { IsLaneOut course.now.dim result }
{
    let v = corner(course.dim, cell, n);
    match next_of_run(
        round,
        course.dim,
        course.dir,
        course.depth,
        &course.range,
        cell,
        n,
    ) {
        Some(axis) => Exit::Lane(lane_of(&v, axis)),
        None => {
            if is_staying(course, parent, told, cell, n) {
                Exit::Output
            } else {
                Exit::GivenUp
            }
        }
    }
}

/// Whether the tree owns a visited cell: the cell's centre lies in the tree's range. Far from a cut no position is looked at.
pub fn is_owned(
    course: &Course,
    parent: Option<&CellView>,
    round: &Surroundings,
    cell: CellKey,
) -> bool
    requires cell { IsCell course.now.dim cell }
    requires round { IsRound course.now cell round.now }
    requires asks { (p : TreeSweep) × Decides p course.now (seen parent) cell }
    ensures { (p : TreeSweep) → Decides p course.now (seen parent.entry) cell
        → result ≡ is_owned p.plan cell }
{
    if round.whole {
        return true;
    }
    course.range.holds(centre(course.dim, cell, course.depth))
}

/// Whether a visited cell is one of the old grid.
pub fn is_old(course: &Course, parent: Option<&CellView>) -> bool
    ensures { (p : TreeSweep) (c : CellKey) → Decides p course.now (seen parent.entry) c
        → result ≡ is_cell_in p.plan.old c }
{
    match parent {
        Some(view) => matches!(view.was, Some(true)),
        None => !matches!(course.serves, Serves::Raising),
    }
}

/// Whether a visited cell is one of the new grid.
pub fn is_new(course: &Course, parent: Option<&CellView>) -> bool
    ensures { (p : TreeSweep) (c : CellKey) → Decides p course.now (seen parent.entry) c
        → result ≡ has_cell p.plan.new c }
{
    match parent {
        Some(view) => matches!(view.will, Some(true)),
        None => true,
    }
}
