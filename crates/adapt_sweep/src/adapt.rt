//! What a tree is adapted by.
ghost use Rattle.std.specs.Prelude.{◌≡◌, ◌<◌};
ghost use Rattle.peano_keys.specs.Grid.{Spacetree};
ghost use Rattle.curve_cuts.specs.Keys.{cuts_of};
ghost use Rattle.adapt_sweep.specs.Lone.{lone};

use curve_cuts::Keys;
use std::marker::{Brand, PhantomData};

/// The grid that an adaptation leads to. Contracts alone see it: a visitor finds in the slots what it needs of it.
pub trait NewGrid {
    ghost grid: { Spacetree };
}

impl NewGrid for Brand {
    ghost grid = { lone };
}

/// Adapts a tree: each cell that the tree owns gets its status in the new grid and its value into its slots at all its
/// vertices, also those that are stored from now on. A cell that is new takes its parent's value. Takes no memory.
pub struct Adapt<'a, N: NewGrid> {
    pub(crate) keys: &'a Keys,
    pub(crate) tree: u32,
    of: PhantomData<N>,
    ghost same: { N.grid.dim ≡ keys.now.dim },
    ghost one: { tree < (cuts_of keys.now).trees },
}

impl<'a, N: NewGrid> Drop for Adapt<'a, N> {
    fn drop(self) {
        let Adapt {
            keys: _,
            tree: _,
            of: _,
        } = self;
    }
}

impl<'a, N: NewGrid> Adapt<'a, N> {
    /// A visitor that adapts one of the trees of some keys.
    pub fn new(keys: &'a Keys, tree: u32) -> Adapt<'a, N>
        requires dim { N.grid.dim ≡ keys.now.dim }
        requires one { tree < (cuts_of keys.now).trees }
        ensures keys { result.keys.now ≡ keys.now }
        ensures tree { result.tree ≡ tree }
    {
        Adapt {
            keys,
            tree,
            of: PhantomData,
        }
    }
}
