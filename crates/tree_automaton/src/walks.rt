//! The walk of the cells of a tree.
ghost use Rattle.std.specs.Prelude.{◌≡◌, ◌+◌, ◌-◌, ◌^◌, ◌<◌, ◌≤◌, Option, List, Some, OnOk, OnErr, IsOk, IfOk, true, false, pos, ◌≤ℤ◌};
ghost use Rattle.peano_keys.specs.Cell.{IsCell, parent_of, root as root_cell};
ghost use Rattle.peano_curve.specs.Order.{place_along};
ghost use Rattle.sweep_visits.specs.Plan.{SweepPlan, IsSweepPlan, is_opened};
ghost use Rattle.sweep_visits.specs.Visits.{Visit};
ghost use Rattle.sweep_streams.specs.Streams.{ComesAfter};
ghost use Rattle.tree_automaton.specs.TreeLists.{IsRoomy};
ghost use Rattle.tree_automaton.specs.AtRest.{HasLists};
ghost use Rattle.tree_automaton.specs.declared.kinds.Serves.TheVariants.{Plain};
ghost use Rattle.tree_automaton.specs.Sweep.{TreeSweep, IsTreeSweep, cell_visits, flag_in, served_by};
ghost use Rattle.tree_automaton.specs.Decisions.{Decides};
ghost use Rattle.tree_automaton.specs.Handed.{IsRoundIn, IsTold, IsToldAbove};
ghost use Rattle.tree_automaton.specs.Promises.{IsViewIn};
ghost use Rattle.tree_automaton.specs.Views.{IsPlace, HavePlaces, ViewFits, says, seen};
ghost use Rattle.tree_automaton.specs.Story.{Story};
ghost use Rattle.tree_automaton.specs.Visits.{ViewTaken, IsSameTree};
ghost use Rattle.tree_automaton.specs.Sweeps.{SweepAsks, SweepGives, IsFor, WalkAsks, BelowAsks, VisitsGive, HasRoom, StaysNotLive, KeepsRoom, visits_below, visits_rest};

use crate::decide::{Course, is_held, is_new, told_below};
use crate::entering::enter_into;
use crate::kinds::Serves;
use crate::leaving::leave_from;
use crate::store::TreeStore;
use crate::views::{blank_view, blank_views};
use crate::visitor::Visitor;
use handed_down::{ChildVertices, Surroundings};
use peano_curve::{first_child, next_child};
use peano_keys::{CellKey, root};
use peano_records::CellView;
use std::alloc::AllocError;
use vertex_stacks::{Kind, SweepNote};

// Sets `will` of a cell of the new grid, as the visitor foresees it.
fn foresee<V: Visitor>(
    visitor: &mut V,
    course: &Course,
    parent: Option<&CellView>,
    view: &mut CellView,
)
    requires { IsViewIn (V.meaning visitor.old).dim view.old }
    ensures visitor { visitor.new ≡ visitor.old }
    ensures others { view.new ≡ record view.old { will = view.new.will } }
    ensures will { (m : Story) → Decides m.sweep course.now (seen parent.entry) view.old.key
        → IsFor m.sweep (V.meaning visitor.old) → ViewTaken m view.old.key view.old
        → view.new.will ≡ flag_in (Some m.sweep.plan.new) view.old.key }
{
    match course.serves {
        Serves::Plain => {}
        Serves::Raising | Serves::Adapting => {
            if is_new(course, parent) {
                let refined = visitor.refined_after(view);
                view.will = Some(refined);
            }
        }
    }
}

// Whether a sweep goes below a cell.
fn is_opened(view: &CellView) -> bool
    ensures { (p : TreeSweep) → IsTreeSweep p → ViewFits p view.now.key view.now
        → result ≡ is_opened p.plan view.now.key }
{
    is_refined(view.was) || is_refined(view.will)
}

// Whether a flag says that a cell is refined.
fn is_refined(flag: Option<bool>) -> bool
    ensures { result ≡ says flag }
{
    match flag {
        Some(refined) => refined,
        None => false,
    }
}

// Visits a cell that the tree holds, and all below it. The cell is entered into a view, and those below it into others.
#[cycle(walks)]
fn walk<V: Visitor>(
    store: &mut TreeStore,
    visitor: &mut V,
    kind: Kind,
    parent: Option<&CellView>,
    told: Option<&ChildVertices>,
    round: &Surroundings,
    cell: CellKey,
    view: &mut CellView,
    below: &mut [CellView],
) -> Result<(), AllocError>
    requires cell { IsCell store.old.lanes.dim cell }
    requires round { IsRoundIn store.old cell round.now }
    requires told { IsToldAbove store.old.lanes.dim (served_by kind) (seen parent) (seen told) }
    requires place { IsPlace store.old.lanes.dim view.old }
    requires places { HavePlaces store.old.lanes.dim (cell.level + 1) below.old }
    requires asks { (m : Story) × (made : List Visit) × (more : List Visit)
        × WalkAsks m (V.meaning visitor.old) made more (seen parent) cell kind store.old }
    ensures place { OnOk result (IsPlace store.old.lanes.dim view.new) }
    ensures places { OnOk result (HavePlaces store.old.lanes.dim (cell.level + 1) below.new) }
    ensures done { OnOk result
        ((m : Story) (made more : List Visit)
        → WalkAsks m (V.meaning visitor.old) made more (seen parent.entry) cell kind store.old
        → VisitsGive V.entered V.left m made
        (cell_visits m.sweep.plan cell) more store.new visitor.old visitor.new) }
    ensures same { V.meaning visitor.new ≡ V.meaning visitor.old }
    ensures tree { IsSameTree store.old store.new }
    ensures live { StaysNotLive store.old store.new }
    ensures room { OnOk result (KeepsRoom kind store.old store.new) }
    ensures memory { (m : Story) (made more : List Visit)
        → WalkAsks m (V.meaning visitor.old) made more (seen parent.entry) cell kind store.old
        → HasRoom m.sweep (V.meaning visitor.old) store.old → IsOk result }
{
    let course = store.course(kind);
    if !is_held(&course, round, cell) {
        return Ok(());
    }
    enter_into(store, parent, told, round, cell, kind, view);
    foresee(visitor, &course, parent, view);
    visitor.enter(view)?;
    walk_below(store, visitor, kind, round, view, below)?;
    visitor.leave(view)?;
    leave_from(store, parent, told, round, view, kind)
}

// Visits all below a cell.
#[cycle(walks)]
fn walk_below<V: Visitor>(
    store: &mut TreeStore,
    visitor: &mut V,
    kind: Kind,
    round: &Surroundings,
    view: &CellView,
    views: &mut [CellView],
) -> Result<(), AllocError>
    requires cell { IsCell store.old.lanes.dim view.now.key }
    requires round { IsRoundIn store.old view.now.key round.now }
    requires places { HavePlaces store.old.lanes.dim (view.now.key.level + 1) views.old }
    requires asks { (m : Story) × (made : List Visit) × (more : List Visit)
        × BelowAsks m (V.meaning visitor.old) made more view.now.key view.now
        (visits_below m.sweep.plan view.now.key) kind store.old }
    ensures places { OnOk result
        (HavePlaces store.old.lanes.dim (view.now.key.level + 1) views.new) }
    ensures done { OnOk result
        ((m : Story) (made more : List Visit)
        → BelowAsks m (V.meaning visitor.old) made more view.now.key view.now
        (visits_below m.sweep.plan view.now.key) kind store.old
        → VisitsGive V.entered V.left m made
        (visits_below m.sweep.plan view.now.key) more store.new visitor.old visitor.new) }
    ensures same { V.meaning visitor.new ≡ V.meaning visitor.old }
    ensures tree { IsSameTree store.old store.new }
    ensures live { StaysNotLive store.old store.new }
    ensures room { OnOk result (KeepsRoom kind store.old store.new) }
    ensures memory { (m : Story) (made more : List Visit)
        → BelowAsks m (V.meaning visitor.old) made more view.now.key view.now
        (visits_below m.sweep.plan view.now.key) kind store.old
        → HasRoom m.sweep (V.meaning visitor.old) store.old → IsOk result }
{
    if !is_opened(view) {
        return Ok(());
    }
    let dim = store.dim();
    let around = round.looked_at(dim, store.depth(), &store.range(), view.key);
    let told = told_below(dim, Serves::of(kind), view);
    let child = first_child(dim, view.key, store.direction());
    match views.split_first_mut() {
        Some((first, below)) => {
            walk_from(
                store, visitor, kind, view, &told, &around, child, first, below,
            )
        }
        None => unreachable!(),
    }
}

// Visits a child, the siblings after it, and all below them.
#[cycle(walks)]
fn walk_from<V: Visitor>(
    store: &mut TreeStore,
    visitor: &mut V,
    kind: Kind,
    parent: &CellView,
    told: &ChildVertices,
    above: &Surroundings,
    cell: CellKey,
    view: &mut CellView,
    below: &mut [CellView],
) -> Result<(), AllocError>
    requires cell { IsCell store.old.lanes.dim cell }
    requires round { IsRoundIn store.old parent.now.key above.now }
    requires told { IsTold store.old.lanes.dim (served_by kind) parent.now told.now }
    requires place { IsPlace store.old.lanes.dim view.old }
    requires places { HavePlaces store.old.lanes.dim (cell.level + 1) below.old }
    requires child { parent_of cell ≡ parent.now.key }
    requires below { 1 ≤ cell.level }
    requires asks { (m : Story) × (made : List Visit) × (more : List Visit)
        × BelowAsks m (V.meaning visitor.old) made more parent.now.key parent.now
        (visits_rest m.sweep.plan cell) kind store.old
        × (is_opened m.sweep.plan parent.now.key ≡ true) }
    ensures place { OnOk result (IsPlace store.old.lanes.dim view.new) }
    ensures places { OnOk result (HavePlaces store.old.lanes.dim (cell.level + 1) below.new) }
    ensures done { OnOk result
        ((m : Story) (made more : List Visit)
        → BelowAsks m (V.meaning visitor.old) made more parent.now.key parent.now
        (visits_rest m.sweep.plan cell) kind store.old
        → is_opened m.sweep.plan parent.now.key ≡ true
        → VisitsGive V.entered V.left m made
        (visits_rest m.sweep.plan cell) more store.new visitor.old visitor.new) }
    ensures same { V.meaning visitor.new ≡ V.meaning visitor.old }
    ensures tree { IsSameTree store.old store.new }
    ensures live { StaysNotLive store.old store.new }
    ensures room { OnOk result (KeepsRoom kind store.old store.new) }
    ensures memory { (m : Story) (made more : List Visit)
        → BelowAsks m (V.meaning visitor.old) made more parent.now.key parent.now
        (visits_rest m.sweep.plan cell) kind store.old
        → is_opened m.sweep.plan parent.now.key ≡ true
        → HasRoom m.sweep (V.meaning visitor.old) store.old → IsOk result }
{
    let dim = store.dim();
    let dir = store.direction();
    let round = above.below(dim, dir, cell);
    walk(
        store,
        visitor,
        kind,
        Some(parent),
        Some(told),
        &round,
        cell,
        view,
        below,
    )?;
    match next_child(dim, cell, dir) {
        Some(next) => walk_from(store, visitor, kind, parent, told, above, next, view, below),
        None => Ok(()),
    }
}

/// Visits all cells that the tree holds, along the store's direction, and turns the store. After a refusal the store is not
/// live. A sweep that is neither raising nor adapting reserves before its first cell, so from then on only a visitor that may
/// want memory can end it; in a roomy store it takes no memory, and it leaves a roomy store.
pub fn sweep<V: Visitor>(
    store: &mut TreeStore,
    visitor: &mut V,
    step: u32,
    kind: Kind,
) -> Result<SweepNote, AllocError>
    requires asks { (p : TreeSweep) × SweepAsks p (V.meaning visitor.old) kind store.old }
    ensures done { IfOk result
        (λ note. (p : TreeSweep) → SweepAsks p (V.meaning visitor.old) kind store.old
        → SweepGives V.entered V.left p step kind store.old.lanes.input store.old.lanes.tale
        store.new visitor.old visitor.new note) }
    ensures rest { IfOk result (λ note. (p : TreeSweep)
        → SweepAsks p (V.meaning visitor.old) kind store.old → (q : SweepPlan) → IsSweepPlan q
        → ComesAfter p.plan q → HasLists q p.tree store.new) }
    ensures same { V.meaning visitor.new ≡ V.meaning visitor.old }
    ensures refused { OnErr result (store.new.live ≡ false) }
    ensures tale { OnErr result (store.new.lanes.tale ≡ store.old.lanes.tale) }
    ensures memory { (p : TreeSweep) → SweepAsks p (V.meaning visitor.old) kind store.old
        → served_by kind ≡ Plain → (V.meaning visitor.old).may_want ≡ false → IsRoomy store.old
        → IsOk result }
    ensures roomy { IfOk result (λ _. (p : TreeSweep)
        → SweepAsks p (V.meaning visitor.old) kind store.old → served_by kind ≡ Plain
        → store.old.stored < 2 ^ 64 - 1 → IsRoomy store.new) }
    ensures first { OnErr result (served_by kind ≡ Plain → (V.meaning visitor.old).may_want ≡ false
        → visitor.new ≡ visitor.old) }
{
    store.stop();
    store.reserve()?;
    let mut view = blank_view();
    let mut below = blank_views();
    let round = Surroundings::of_root(store.dim(), store.depth(), &store.range());
    walk(
        store,
        visitor,
        kind,
        None,
        None,
        &round,
        root(),
        &mut view,
        &mut below,
    )?;
    Ok(store.turn(step, kind))
}
