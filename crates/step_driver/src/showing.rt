//! The sweeps of all trees that gather rows: to show them, or to cut the trees anew.
ghost use Rattle.std.specs.Prelude.{◌≡◌, ℕ, IfOk, OnErr, length};
ghost use Rattle.peano_keys.specs.Grid.{Spacetree};
ghost use Rattle.peano_keys.specs.Field.{States};
ghost use Rattle.peano_curve.specs.declared.order.Direction.{Direction};
ghost use Rattle.curve_cuts.specs.Keys.{cuts_of};
ghost use Rattle.spacetree.specs.Fields.{rows_of};
ghost use Rattle.step_world.specs.Notes.{note_over, by_trees};
ghost use Rattle.showing_sweep.specs.Sweeps.{CanShow, IsGathering};
ghost use Rattle.step_driver.specs.Gives.{EachIs, EachMayGive};
ghost use Rattle.step_driver.specs.Notes.{sizes_of, AddsFirst};
ghost use Rattle.step_driver.specs.Computing.{AllStandOn, AllCanStep};
ghost use Rattle.step_driver.specs.Worlds.{AreAt};
ghost use Rattle.step_driver.specs.Showing.{AreRowsOf, AreShown, ShowsTree, ShowTrees};

use crate::beside::{Swept, all_of, stores_of};
use curve_cuts::Keys;
use field_report::Traffic;
use showing_sweep::{Shown as ShownTree, show_tree};
use spacetree::Row;
use std::alloc::{AllocError, Global};
use std::thread;
use std::thread::Threads;
use tree_automaton::TreeStore;
use vertex_stacks::laws::tale_of_notes_grows;
use vertex_stacks::{Kind, SweepNote};

/// What a world shows after so many steps: the rows of its field in key order, and the traffic of each tree, by number.
#[derive(Debug, Drop)]
pub struct Shown {
    pub step: u32,
    pub rows: Vec<Row>,
    pub traffic: Vec<Traffic>,
}

/// All trees after their showing sweeps: their stores, and what they show.
#[derive(Drop)]
pub(crate) struct ShownTrees {
    pub(crate) stores: Vec<TreeStore>,
    pub(crate) shown: Shown,
}

// The sweep of one tree.
fn show_one(
    alloc: Global,
    mut store: TreeStore,
    keys: &Keys,
    step: u32,
    kind: Kind,
) -> Result<Swept<ShownTree>, AllocError>
    requires store { CanShow (cuts_of keys.now) store }
    requires kind { IsGathering kind }
    ensures { IfOk result (ShowsTree (cuts_of keys.now) step kind store) }
{
    let (note, found) = show_tree(alloc, &mut store, keys, step, kind)?;
    Ok(Swept { store, note, found })
}

// The sweep of each tree, beside those of the others.
fn show_each<R: Threads + Sync>(
    rt: &R,
    alloc: Global,
    stores: Vec<TreeStore>,
    keys: &Keys,
    step: u32,
    kind: Kind,
) -> Result<Vec<Result<Swept<ShownTree>, AllocError>>, AllocError>
    requires stores { EachIs (CanShow (cuts_of keys.now)) stores.items }
    requires kind { IsGathering kind }
    ensures { IfOk result
        (λ given. EachMayGive (ShowsTree (cuts_of keys.now) step kind) stores.items given.items) }
{
    thread::map_vec(
        rt,
        stores,
        &|store: TreeStore| -> Result<Swept<ShownTree>, AllocError>
            requires { CanShow (cuts_of keys.now) store × IsGathering kind }
            ensures { IfOk result (ShowsTree (cuts_of keys.entry.now) step kind store) }
        { show_one(alloc, store, keys, step, kind) },
    )
}

// Puts the rows of a field into key order.
fn put_in_order(rows: &mut [Row])
    ensures sorted { (f : States) → AreRowsOf f rows.old → rows.new ≡ rows_of f }
    ensures len { length rows.new ≡ length rows.old }
{
    rows.sort_unstable_by_key(|row| row.key);
}

/// The sweeps of all trees, beside each other: each notes its sweep. The rows stand as the trees gave them. May want
/// memory alone.
pub(crate) fn show_all<R: Threads + Sync>(
    rt: &R,
    alloc: Global,
    stores: Vec<TreeStore>,
    notes: &mut Vec<SweepNote>,
    keys: &Keys,
    step: u32,
    kind: Kind,
) -> Result<ShownTrees, AllocError>
    requires stores { (parts : ℕ) × AllCanStep (cuts_of keys.now) parts stores.items }
    requires kind { IsGathering kind }
    ensures shown { IfOk result
        (λ r. (parts : ℕ) (dir : Direction) (g : Spacetree) (f : States)
        → AllStandOn (cuts_of keys.now) parts dir g f stores.items
        → AreShown
        (cuts_of keys.now) parts dir g f step kind stores.items r.stores.items notes.old.items
        notes.new.items r.shown) }
    ensures step { IfOk result (λ r. r.shown.step ≡ step) }
    ensures stopped { OnErr result
        ((parts : ℕ) (dir : Direction) (g : Spacetree) (f : States)
        → AllStandOn (cuts_of keys.now) parts dir g f stores.items
        → AddsFirst notes.old.items notes.new.items
        (by_trees (cuts_of keys.now).trees
        (note_over (sizes_of (cuts_of keys.now)) step kind g))) }
{
    let swept = all_of(alloc, show_each(rt, alloc, stores, keys, step, kind)?)?;
    let mut rows = Vec::new(alloc);
    let mut traffic = Vec::new(alloc);
    for tree in &swept {
        rows.extend_from_slice(tree.found.rows.as_slice())?;
        traffic.push(tree.found.traffic)?;
        notes.push(tree.note)?;
    }
    let stores = stores_of(alloc, swept)?;
    Ok(ShownTrees {
        stores,
        shown: Shown {
            step,
            rows,
            traffic,
        },
    })
}

/// Shows all trees, or gathers their rows: in key order. Each notes its sweep. May want memory alone.
pub(crate) fn show_trees<R: Threads + Sync>(
    rt: &R,
    alloc: Global,
    stores: Vec<TreeStore>,
    notes: &mut Vec<SweepNote>,
    keys: &Keys,
    step: u32,
    kind: Kind,
) -> Result<ShownTrees, AllocError>
    requires at { (parts : ℕ) × (cells : ℕ) × (g : Spacetree) × (f : States)
        × AreAt parts (cuts_of keys.now) stores.items notes.old.items cells g f }
    requires kind { IsGathering kind }
    ensures shown { IfOk result
        (λ r. (parts cells : ℕ) (g : Spacetree) (f : States)
        → AreAt parts (cuts_of keys.now) stores.items notes.old.items cells g f
        → ShowTrees parts
        (cuts_of keys.now) g f step kind cells r.stores.items notes.old.items notes.new.items
        r.shown) }
    ensures stopped { OnErr result
        ((parts cells : ℕ) (g : Spacetree) (f : States)
        → AreAt parts (cuts_of keys.now) stores.items notes.old.items cells g f
        → AddsFirst notes.old.items notes.new.items
        (by_trees (cuts_of keys.now).trees
        (note_over (sizes_of (cuts_of keys.now)) step kind g))) }
{
    tale_of_notes_grows();
    let mut trees = show_all(rt, alloc, stores, notes, keys, step, kind)?;
    put_in_order(trees.shown.rows.as_mut_slice());
    Ok(trees)
}
