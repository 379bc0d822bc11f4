//! The whole showing sweep of a tree, and the one that gathers its rows before the trees are cut anew.
ghost use Rattle.std.specs.Prelude.{◌≡◌, ◌-◌, ◌^◌, ◌<◌, ℕ, false, IfOk, OnErr};
ghost use Rattle.peano_keys.specs.Grid.{Spacetree};
ghost use Rattle.peano_keys.specs.Field.{States};
ghost use Rattle.peano_curve.specs.declared.order.Direction.{Direction};
ghost use Rattle.curve_cuts.specs.Keys.{cuts_of};
ghost use Rattle.tree_automaton.specs.TreeLists.{IsRoomy};
ghost use Rattle.step_sweeps.specs.Sweeps.{StandsOn};
ghost use Rattle.showing_sweep.specs.Sweeps.{CanShow, IsGathering, IsShownTree};

use crate::sent::sent_from;
use crate::show::Show;
use curve_cuts::Keys;
use field_report::Traffic;
use spacetree::Row;
use std::alloc::{AllocError, Global};
use tree_automaton::{TreeStore, sweep};
use vertex_stacks::{Kind, SweepNote};

/// What a tree shows of a grid and a field: a row of each leaf that it owns, in no promised order, and its traffic.
#[derive(Debug, Drop)]
pub struct Shown {
    pub rows: Vec<Row>,
    pub traffic: Traffic,
}

/// Shows a tree, or gathers its rows before the trees are cut anew: the rows of the leaves that it owns, with their
/// states, and what the tree holds of the grid and moves over it. The note is of the kind that is asked for, `Show` or
/// `Recut`; all else is the same. The store stands for the same grid and field after it. Takes memory for the rows and
/// what a sweep reserves; after a refusal the store is not live.
pub fn show_tree(
    alloc: Global,
    store: &mut TreeStore,
    keys: &Keys,
    step: u32,
    kind: Kind,
) -> Result<(SweepNote, Shown), AllocError>
    requires store { CanShow (cuts_of keys.now) store.old }
    requires kind { IsGathering kind }
    ensures shown { IfOk result (λ r. (parts : ℕ) (dir : Direction) (g : Spacetree) (f : States)
        → StandsOn (cuts_of keys.now) parts dir g f store.old
        → IsShownTree (cuts_of keys.now) parts dir g f step kind store.old store.new r.0 r.1) }
    ensures refused { OnErr result (store.new.live ≡ false) }
    ensures roomy { IfOk result (λ _. store.old.stored < 2 ^ 64 - 1 → IsRoomy store.new) }
{
    let tree = store.tree();
    let sent = sent_from(store, keys);
    let mut visitor = Show::new(alloc, keys, tree);
    let note = sweep(store, &mut visitor, step, kind)?;
    let counts = visitor.counts();
    let traffic = Traffic {
        tree,
        cells: counts.cells,
        stored: note.put(),
        pushes: note.pushed(),
        hanging: counts.hanging,
        enclave: counts.enclave,
        skeleton: counts.skeleton,
        sent,
    };
    Ok((
        note,
        Shown {
            rows: visitor.into_rows(),
            traffic,
        },
    ))
}
