//! Trees as they start: raised one beside another, then exchanged.
ghost use Rattle.std.specs.Prelude.{◌≡◌, ◌<◌, ℕ, IfOk};
ghost use Rattle.curve_cuts.specs.Cuts.{IsCutGrid};
ghost use Rattle.curve_cuts.specs.Keys.{cuts_of};
ghost use Rattle.spacetree.specs.Fields.{IsFieldOn};
ghost use Rattle.step_driver.specs.Starts.{IsRaisedWith, MayBeRaised, AreRaised, AreStarted};

use crate::beside::{Swept, all_of, stores_of};
use crate::exchanging::exchange;
use adapt_sweep::raise_tree;
use curve_cuts::Keys;
use spacetree::{Field, Grid};
use std::alloc::{AllocError, Global};
use std::thread;
use std::thread::Threads;
use step_phases::Phase;
use tree_automaton::TreeStore;
use vertex_stacks::SweepNote;

/// The stores of all trees, by number, and notes of their sweeps.
#[derive(Drop)]
pub(crate) struct Forest {
    pub(crate) stores: Vec<TreeStore>,
    pub(crate) notes: Vec<SweepNote>,
}

// One tree, raised.
fn raise_one(
    alloc: Global,
    grid: &Grid,
    field: &Field,
    keys: &Keys,
    step: u32,
    tree: u32,
) -> Result<Swept<()>, AllocError>
    requires grid { IsCutGrid (cuts_of keys.now) grid.now }
    requires field { (parts : ℕ) × IsFieldOn parts grid.now field.now }
    requires tree { tree < (cuts_of keys.now).trees }
    ensures { IfOk result (IsRaisedWith (cuts_of keys.now) grid.now field.now step tree) }
{
    let mut store = TreeStore::new(alloc, keys.dim(), keys.depth(), keys.range(tree), tree);
    let note = raise_tree(&mut store, grid, field, keys, step)?;
    Ok(Swept {
        store,
        note,
        found: (),
    })
}

// All trees, each raised beside the others.
fn raise_each<R: Threads + Sync>(
    rt: &R,
    alloc: Global,
    grid: &Grid,
    field: &Field,
    keys: &Keys,
    step: u32,
) -> Result<Vec<Result<Swept<()>, AllocError>>, AllocError>
    requires grid { IsCutGrid (cuts_of keys.now) grid.now }
    requires field { (parts : ℕ) × IsFieldOn parts grid.now field.now }
    ensures { IfOk result
        (λ given. MayBeRaised (cuts_of keys.now) grid.now field.now step given.items) }
{
    thread::map_indices(
        rt,
        alloc,
        keys.trees() as usize,
        &|t: usize| -> Result<Swept<()>, AllocError>
            requires { IsCutGrid (cuts_of keys.now) grid.now
                × ((parts : ℕ) × IsFieldOn parts grid.now field.now)
                × (t < (cuts_of keys.now).trees) × (t < 4294967296) }
            ensures { IfOk result
                (IsRaisedWith (cuts_of keys.entry.now) grid.entry.now field.entry.now step t) }
        { raise_one(alloc, grid, field, keys, step, t as u32) },
    )
}

// All trees, raised.
fn raise_all<R: Threads + Sync>(
    rt: &R,
    alloc: Global,
    grid: &Grid,
    field: &Field,
    keys: &Keys,
    step: u32,
) -> Result<Forest, AllocError>
    requires grid { IsCutGrid (cuts_of keys.now) grid.now }
    requires field { (parts : ℕ) × IsFieldOn parts grid.now field.now }
    ensures { IfOk result
        (λ forest. AreRaised (cuts_of keys.now) grid.now field.now step
        (cuts_of keys.now).trees forest.stores.items forest.notes.items) }
{
    let swept = all_of(alloc, raise_each(rt, alloc, grid, field, keys, step)?)?;
    let mut notes = Vec::new(alloc);
    for tree in &swept {
        notes.push(tree.note)?;
    }
    let stores = stores_of(alloc, swept)?;
    Ok(Forest { stores, notes })
}

/// The trees of some keys over a grid and its field after so many steps: raised, then exchanged. May want memory alone.
pub(crate) fn plant<R: Threads + Sync>(
    rt: &R,
    alloc: Global,
    grid: &Grid,
    field: &Field,
    keys: &Keys,
    step: u32,
) -> Result<Forest, AllocError>
    requires grid { IsCutGrid (cuts_of keys.now) grid.now }
    requires field { (parts : ℕ) × IsFieldOn parts grid.now field.now }
    ensures { IfOk result
        (λ forest. AreStarted
        (cuts_of keys.now) grid.now field.now step forest.stores.items forest.notes.items) }
{
    let raised = raise_all(rt, alloc, grid, field, keys, step)?;
    let stores = exchange(rt, alloc, raised.stores, keys, Phase::Opening)?;
    Ok(Forest {
        stores,
        notes: raised.notes,
    })
}
