//! The keys of trees: the positions along the curve where their ranges begin.
ghost use Rattle.std.specs.Prelude.{◌≡◌, ◌≢◌, ℕ, ◌+◌, ◌-◌, ◌*◌, ◌/◌, ◌^◌, ◌<◌, ◌≤◌, ◌↔◌, IsTrue, IfOk, length};
ghost use Rattle.peano_keys.specs.Dim.{corners, children};
ghost use Rattle.peano_keys.specs.Cell.{IsCell};
ghost use Rattle.peano_keys.specs.Vertex.{IsVertex};
ghost use Rattle.peano_curve.specs.Order.{interval_of};
ghost use Rattle.peano_curve.specs.Run.{Holds};
ghost use Rattle.curve_cuts.specs.Cuts.{AreCuts, range_of, Held, Owns, IsShared};
ghost use Rattle.curve_cuts.specs.Foreign.{IsForeign};
ghost use Rattle.curve_cuts.specs.Keys.{cuts_of, AreEqualCuts};
ghost use Rattle.curve_cuts.specs.Leaves.{InCurveOrder};
ghost use Rattle.curve_cuts.specs.Round.{IsPartOf, SharesNoCorner};

use crate::round::cell_round;
use crate::tiles::positions;
use peano_curve::{Range, centre, interval};
use peano_keys::{CellKey, Dim, VertexKey, adjacent};
use std::alloc::{AllocError, Global};
use std::marker::Model;

/// The keys of 1 to 64 trees, numbered along the curve. Contracts see the dimension, the depth and a list of positions
/// that rise from 0: where the range of each tree begins, and at last the number of all positions of the depth.
#[derive(Drop)]
pub struct Keys {
    dim: Dim,
    depth: u32,
    starts: Vec<u64>,
}

impl Model for Keys {
    ghost use Rattle.curve_cuts.specs.Keys.{CutPoints, AreCutPoints};

    ghost Value = { CutPoints };

    ghost view = { λ k. record { dim = k.dim; depth = k.depth; starts = k.starts.items } };

    ghost invariant = { λ k. AreCutPoints
        (record { dim = k.dim; depth = k.depth; starts = k.starts.items }) };
}

// The place among `count` leaves where the share of a tree begins.
fn share(tree: u32, trees: u32, count: usize) -> usize
    requires tree { tree < trees }
    requires trees { trees ≤ 64 }
    requires some { 0 < count }
    ensures value { result ≡ tree * count / trees }
    ensures place { result < count }
{
    let [tree, trees] = [tree as usize, trees as usize];
    tree * (count / trees) + tree * (count % trees) / trees
}

// How many adjacent positions a vertex has.
fn position_count(dim: Dim) -> u32
    ensures { result ≡ corners dim }
{
    match dim {
        Dim::Two => 4,
        Dim::Three => 8,
    }
}

impl Keys {
    /// Keys that give each tree an equal share of the leaves of a grid, which come in the order of the curve: tree `t` of
    /// `trees` begins with leaf `t * leaves / trees`, rounded down. Where there are more trees than leaves some ranges are
    /// empty. `is_tiling` tells whether a list of cells is one of leaves.
    pub fn equal(
        alloc: Global,
        dim: Dim,
        depth: u32,
        leaves: &[CellKey],
        trees: u32,
    ) -> Result<Keys, AllocError>
        requires depth { depth ≤ 12 }
        requires leaves { InCurveOrder dim depth leaves.now }
        requires some { 1 ≤ trees }
        requires trees { trees ≤ 64 }
        ensures ok { IfOk result (λ keys. AreEqualCuts dim depth leaves.now trees keys) }
        ensures cuts { IfOk result (λ keys. AreCuts (cuts_of keys)) }
    {
        let mut starts = Vec::with_capacity(alloc, trees as usize + 1)?;
        for tree in 0..trees {
            let place = share(tree, trees, leaves.len());
            starts.push(interval(dim, leaves[place], depth).lo)?;
        }
        starts.push(positions(dim, depth))?;
        Ok(Keys { dim, depth, starts })
    }

    /// How many trees there are.
    pub fn trees(&self) -> u32
        ensures value { result ≡ (cuts_of self.now).trees }
        ensures some { 1 ≤ result }
        ensures most { result ≤ 64 }
        ensures cuts { AreCuts (cuts_of self.now) }
    {
        (self.starts.len() - 1) as u32
    }

    /// The dimension of the cells.
    pub fn dim(&self) -> Dim
        ensures { result ≡ self.now.dim }
    {
        self.dim
    }

    /// The level of which the positions are those of cells.
    pub fn depth(&self) -> u32
        ensures value { result ≡ self.now.depth }
        ensures most { result ≤ 12 }
    {
        self.depth
    }

    /// The positions of a tree.
    pub fn range(&self, tree: u32) -> Range
        requires { tree < (cuts_of self.now).trees }
        ensures { result ≡ range_of (cuts_of self.now) tree }
    {
        Range {
            lo: self.starts[tree as usize],
            hi: self.starts[tree as usize + 1],
        }
    }

    /// The tree whose range has a position, found by halving.
    pub fn tree_of(&self, position: u64) -> u32
        requires { position < children self.now.dim ^ self.now.depth }
        ensures tree { result < (cuts_of self.now).trees }
        ensures holds { Holds (range_of (cuts_of self.now) result) position }
    {
        let after = self.starts.partition_point(|start| *start <= position);
        (after - 1) as u32
    }

    /// The tree that owns a cell: its range has the cell's centre.
    pub fn owner(&self, cell: CellKey) -> u32
        requires cell { IsCell self.now.dim cell }
        requires level { cell.level ≤ self.now.depth }
        ensures owns { Owns (cuts_of self.now) result cell }
        ensures alone { (s : ℕ) → Owns (cuts_of self.now) s cell → s ≡ result }
    {
        self.tree_of(centre(self.dim, cell, self.depth))
    }

    /// Whether a tree owns a cell: its range has the cell's centre.
    pub fn owns(&self, cell: CellKey, tree: u32) -> bool
        requires cell { IsCell self.now.dim cell }
        requires level { cell.level ≤ self.now.depth }
        requires tree { tree < (cuts_of self.now).trees }
        ensures { IsTrue result ↔ Owns (cuts_of self.now) tree cell }
    {
        self.range(tree).holds(centre(self.dim, cell, self.depth))
    }

    /// Whether a tree holds a cell: the cell's interval meets the tree's range.
    pub fn held(&self, cell: CellKey, tree: u32) -> bool
        requires cell { IsCell self.now.dim cell }
        requires level { cell.level ≤ self.now.depth }
        requires tree { tree < (cuts_of self.now).trees }
        ensures { IsTrue result ↔ Held (cuts_of self.now) tree cell }
    {
        interval(self.dim, cell, self.depth).meets(&self.range(tree))
    }

    /// Whether a cell is whole in a tree's range.
    pub fn is_whole(&self, cell: CellKey, tree: u32) -> bool
        requires cell { IsCell self.now.dim cell }
        requires level { cell.level ≤ self.now.depth }
        requires tree { tree < (cuts_of self.now).trees }
        ensures { IsTrue result
            → IsPartOf (interval_of self.now.dim cell self.now.depth)
            (range_of (cuts_of self.now) tree) }
    {
        let own = interval(self.dim, cell, self.depth);
        let range = self.range(tree);
        range.lo <= own.lo && own.hi <= range.hi
    }

    /// Whether a look at one coarser cell shows that no other tree holds a cell round a corner of a cell: there is one tree,
    /// or the nearest cell above that has all of them in it is whole in the tree's range. It says no of some cells of which
    /// that is so, those near a cut.
    pub fn has_round(&self, cell: CellKey, tree: u32) -> bool
        requires cell { IsCell self.now.dim cell }
        requires level { cell.level ≤ self.now.depth }
        requires tree { tree < (cuts_of self.now).trees }
        ensures { IsTrue result → SharesNoCorner (cuts_of self.now) tree cell }
    {
        if self.trees() == 1 {
            return true;
        }
        match cell_round(self.dim, cell) {
            Some(around) => self.is_whole(around, tree),
            None => false,
        }
    }

    // Whether an adjacent position of a vertex, where it is inside the domain, has positions along the curve that are not
    // the tree's.
    fn is_foreign(&self, vertex: VertexKey, n: u32, tree: u32) -> bool
        requires vertex { IsVertex self.now.dim vertex }
        requires level { vertex.level ≤ self.now.depth }
        requires position { n < corners self.now.dim }
        requires tree { tree < (cuts_of self.now).trees }
        ensures { IsTrue result ↔ IsForeign (cuts_of self.now) tree vertex n }
    {
        let range = self.range(tree);
        match adjacent(self.dim, vertex, n) {
            Some(cell) => {
                let own = interval(self.dim, cell, self.depth);
                own.lo < range.lo || range.hi < own.hi
            }
            None => false,
        }
    }

    /// Whether another tree holds an adjacent position of a vertex.
    pub fn is_shared(&self, vertex: VertexKey, tree: u32) -> bool
        requires vertex { IsVertex self.now.dim vertex }
        requires level { vertex.level ≤ self.now.depth }
        requires tree { tree < (cuts_of self.now).trees }
        ensures { IsTrue result ↔ IsShared (cuts_of self.now) tree vertex }
    {
        for n in 0..position_count(self.dim) {
            if self.is_foreign(vertex, n, tree) {
                return true;
            }
        }
        false
    }
}
