//! Whole sweeps of a tree.
ghost use Rattle.std.specs.Prelude.{◌≡◌, ℕ, false, IfOk, OnErr};
ghost use Rattle.peano_curve.specs.declared.order.Direction.TheVariants.{Backward};
ghost use Rattle.spacetree.specs.Fields.{IsFieldOn};
ghost use Rattle.curve_cuts.specs.Cuts.{range_of};
ghost use Rattle.curve_cuts.specs.Keys.{cuts_of};
ghost use Rattle.tree_automaton.specs.AtRest.{StandsFor};
ghost use Rattle.step_phases.specs.Change.{Change};
ghost use Rattle.adapt_sweep.specs.Raising.{CanBeRaised, IsRaisedTree};
ghost use Rattle.adapt_sweep.specs.Adapting.{CanBeAdapted, IsAdaptedTree};

use crate::adapt::{Adapt, NewGrid};
use crate::raise::Raise;
use curve_cuts::Keys;
use spacetree::{Field, Grid};
use std::alloc::AllocError;
use tree_automaton::{TreeStore, sweep};
use vertex_stacks::{Kind, SweepNote};

/// Raises the empty store of a tree over a grid and its field, whose states all have as many values. Where there is one
/// tree, it stands for them then. It is refused for want of memory alone, and then the store is not live.
pub fn raise_tree(
    store: &mut TreeStore,
    grid: &Grid,
    field: &Field,
    keys: &Keys,
    step: u32,
) -> Result<SweepNote, AllocError>
    requires store { CanBeRaised (cuts_of keys.now) grid.now store.old }
    requires field { (parts : ℕ) × IsFieldOn parts grid.now field.now }
    ensures raised { IfOk result
        (λ note. IsRaisedTree (cuts_of keys.now) grid.now field.now step store.old store.new note) }
    ensures alone { IfOk result
        (λ _. (cuts_of keys.now).trees ≡ 1
        → StandsFor (cuts_of keys.now).depth
        (range_of
        (cuts_of keys.now) store.old.tree) store.old.tree Backward grid.now field.now
        store.new) }
    ensures refused { OnErr result (store.new.live ≡ false) }
    ensures tale { OnErr result (store.new.lanes.tale ≡ store.old.lanes.tale) }
{
    let tree = store.tree();
    let mut visitor = Raise::new(grid, field, keys, tree);
    sweep(store, &mut visitor, step, Kind::Raise)
}

/// Leads the store of a tree from one grid to the next, which the type parameter tells contracts. It is refused for want of
/// memory alone, and then the store is not live.
pub fn adapt_tree<N: NewGrid>(
    store: &mut TreeStore,
    keys: &Keys,
    step: u32,
) -> Result<SweepNote, AllocError>
    requires { (w : Change) × (w.new ≡ N.grid) × CanBeAdapted (cuts_of keys.now) w store.old }
    ensures adapted { IfOk result (λ note. (w : Change) → w.new ≡ N.grid
        → CanBeAdapted (cuts_of keys.now) w store.old
        → IsAdaptedTree (cuts_of keys.now) w step store.old store.new note) }
    ensures refused { OnErr result (store.new.live ≡ false) }
    ensures tale { OnErr result (store.new.lanes.tale ≡ store.old.lanes.tale) }
{
    let tree = store.tree();
    let mut visitor = Adapt::<N>::new(keys, tree);
    sweep(store, &mut visitor, step, Kind::Adapt)
}
