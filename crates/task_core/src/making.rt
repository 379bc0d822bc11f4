//! How a core is made.
ghost use Rattle.std.specs.Prelude.{◌≡◌, ◌<◌, ◌≤◌, ℕ, length, IfOk};
ghost use Rattle.peano_keys.specs.Grid.{IsGrid};
ghost use Rattle.curve_cuts.specs.Cuts.{IsCutGrid};
ghost use Rattle.curve_cuts.specs.Keys.{cuts_of};
ghost use Rattle.spacetree.specs.Fields.{IsFieldOn};
ghost use Rattle.sweep_visits.specs.Runs.{turned_round};
ghost use Rattle.task_core.specs.Opening.{Opens, CoversAll};
ghost use Rattle.task_core.specs.Work.{IsServedTree, AreServed};
ghost use Rattle.task_core.specs.Visits.{BeginsTree, BeginTrees, Begins};
ghost use Rattle.task_core.specs.Replies.{core_of, solver_of};

use crate::answers::AnswerMap;
use crate::event::Sweep;
use crate::forest::Forest;
use crate::machine::Core;
use crate::tree::TreeWork;
use crate::visits::Tour;
use curve_cuts::Keys;
use peano_curve::Direction;
use solver_api::Solver;
use spacetree::{Field, Grid};
use std::alloc::{AllocError, Global};

// The other direction.
fn turned(dir: Direction) -> Direction
    ensures { result ≡ turned_round dir }
{
    match dir {
        Direction::Forward => Direction::Backward,
        Direction::Backward => Direction::Forward,
    }
}

// A tree before its first visit.
fn begin_tree(
    alloc: Global,
    grid: &Grid,
    field: &Field,
    keys: &Keys,
    tree: u32,
    dir: Direction,
) -> Result<TreeWork, AllocError>
    requires grid { IsCutGrid (cuts_of keys.now) grid.now }
    requires tree { tree < (cuts_of keys.now).trees }
    ensures begins { IfOk result
        (λ work. BeginsTree (cuts_of keys.now) grid.now field.now tree dir work) }
    ensures served { IfOk result (λ work. (n : ℕ) → IsFieldOn n grid.now field.now
        → IsServedTree n work) }
{
    let there = Tour {
        grid,
        field,
        keys,
        tree,
        dir,
    };
    let back = Tour {
        grid,
        field,
        keys,
        tree,
        dir: turned(dir),
    };
    let first = there.stops(alloc)?;
    let second = back.stops(alloc)?;
    Ok(TreeWork::begin(alloc, first, second))
}

// All trees before their first visits.
fn begin_trees(
    alloc: Global,
    grid: &Grid,
    field: &Field,
    keys: &Keys,
    dir: Direction,
) -> Result<Vec<TreeWork>, AllocError>
    requires { IsCutGrid (cuts_of keys.now) grid.now }
    ensures count { IfOk result (λ trees. length trees.items ≡ (cuts_of keys.now).trees) }
    ensures begin { IfOk result
        (λ trees. BeginTrees (cuts_of keys.now) grid.now field.now dir trees.items) }
    ensures served { IfOk result (λ trees. (n : ℕ) → IsFieldOn n grid.now field.now
        → AreServed n trees.items) }
{
    let mut trees = Vec::new(alloc);
    for tree in 0..keys.trees() {
        let work = begin_tree(alloc, grid, field, keys, tree, dir)?;
        trees.push(work)?;
    }
    Ok(trees)
}

impl<S: Solver> Core<S> {
    /// One step over a grid and its field, before its first event. Each tree visits the cells that it holds along a
    /// direction in the first sweep, and the other way in the second; it numbers the leaves that it offers as tasks in the
    /// order of the first.
    pub fn new(
        alloc: Global,
        depth: u32,
        grid: &Grid,
        field: &Field,
        keys: &Keys,
        solver: S,
        dir: Direction,
    ) -> Result<Core<S>, AllocError>
        requires depth { depth ≤ 12 }
        requires grid { IsGrid depth grid.now }
        requires keys { keys.now.depth ≡ depth }
        requires dim { grid.now.dim ≡ keys.now.dim }
        requires field { IsFieldOn (S.parts_of solver) grid.now field.now }
        ensures begins { IfOk result
            (λ core. Begins (cuts_of keys.now) grid.now field.now dir (core_of core)) }
        ensures solver { IfOk result (λ core. solver_of core ≡ solver) }

        // So the laws of cores hold for it: it opens the field, and has all leaves of the grid.
        ensures opens { IfOk result (λ core. Opens grid.now field.now (core_of core)) }
        ensures covers { IfOk result (λ core. CoversAll grid.now field.now (core_of core)) }
    {
        let _ = depth;
        let _ = keys.trees();
        let trees = begin_trees(alloc, grid, field, keys, dir)?;
        Ok(Core {
            sweep: Sweep::First,
            forest: Forest::of(solver.parts(), trees),
            answers: AnswerMap::empty(alloc),
            solver,
        })
    }
}
