//! The sums of shared cells over all trees, and the exchange after them.
ghost use Rattle.std.specs.Prelude.{◌≡◌, IfOk};
ghost use Rattle.curve_cuts.specs.Keys.{cuts_of};
ghost use Rattle.shared_sums.specs.Adding.{TakesMeans};
ghost use Rattle.step_driver.specs.Gives.{EachIs, EachMayGive};
ghost use Rattle.step_driver.specs.Summing.{TakesSums, AllTakeSums, AllAdded, IsSettled};

use crate::beside::all_of;
use crate::exchanging::exchange;
use curve_cuts::Keys;
use peano_records::Partials;
use shared_sums::add_sums;
use std::alloc::{AllocError, Global};
use std::thread;
use std::thread::Threads;
use step_phases::Phase;
use tree_automaton::TreeStore;

// A tree gives the shared cells that it owns the means of their totals.
fn add_one(
    alloc: Global,
    mut store: TreeStore,
    keys: &Keys,
    all: &[Partials],
) -> Result<TreeStore, AllocError>
    requires { TakesSums (cuts_of keys.now) all.now store }
    ensures { IfOk result (TakesMeans (cuts_of keys.now) all.now store) }
{
    add_sums(alloc, &mut store, keys, all)?;
    Ok(store)
}

// Each tree does, beside the others.
fn add_each<R: Threads + Sync>(
    rt: &R,
    alloc: Global,
    stores: Vec<TreeStore>,
    keys: &Keys,
    all: &[Partials],
) -> Result<Vec<Result<TreeStore, AllocError>>, AllocError>
    requires { EachIs (TakesSums (cuts_of keys.now) all.now) stores.items }
    ensures { IfOk result
        (λ given. EachMayGive (TakesMeans (cuts_of keys.now) all.now) stores.items given.items) }
{
    thread::map_vec(
        rt,
        stores,
        &|store: TreeStore| -> Result<TreeStore, AllocError>
            requires { TakesSums (cuts_of keys.now) all.now store }
            ensures { IfOk result (TakesMeans (cuts_of keys.entry.now) all.entry.now store) }
        { add_one(alloc, store, keys, all) },
    )
}

// All trees take the sums of the cells that they share, of which each tree has a part.
fn add_all<R: Threads + Sync>(
    rt: &R,
    alloc: Global,
    stores: Vec<TreeStore>,
    keys: &Keys,
    all: &[Partials],
) -> Result<Vec<TreeStore>, AllocError>
    requires { AllTakeSums (cuts_of keys.now) all.now stores.items }
    ensures { IfOk result (λ after. AllAdded (cuts_of keys.now) all.now stores.items after.items) }
{
    all_of(alloc, add_each(rt, alloc, stores, keys, all)?)
}

/// The part of a step that settles, once it is known that the step is not refused: shared cells take their new values from
/// the partials of all trees, and then all trees tell each other what each cell is to become. May want memory alone.
pub(crate) fn settle<R: Threads + Sync>(
    rt: &R,
    alloc: Global,
    stores: Vec<TreeStore>,
    partials: &[Partials],
    keys: &Keys,
) -> Result<Vec<TreeStore>, AllocError>
    requires { AllTakeSums (cuts_of keys.now) partials.now stores.items }
    ensures { IfOk result
        (λ after. IsSettled (cuts_of keys.now) partials.now stores.items after.items) }
{
    let added = add_all(rt, alloc, stores, keys, partials)?;
    exchange(rt, alloc, added, keys, Phase::Second)
}
