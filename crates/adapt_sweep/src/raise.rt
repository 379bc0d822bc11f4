//! What a tree is raised from.
ghost use Rattle.std.specs.Prelude.{◌≡◌, ◌<◌, ℕ};
ghost use Rattle.peano_keys.specs.Grid.{IsGrid};
ghost use Rattle.spacetree.specs.Fields.{IsFieldOn};
ghost use Rattle.curve_cuts.specs.Keys.{cuts_of};
ghost use Rattle.adapt_sweep.specs.Uniform.{IsUniformField};

use curve_cuts::Keys;
use spacetree::{Field, Grid};

/// Raises a tree: each slot of every vertex takes its status from the grid, whoever owns the cell, and the slots of the
/// cells that the tree owns take their values from the field. Takes no memory.
#[derive(Drop)]
pub struct Raise<'a> {
    pub(crate) grid: &'a Grid,
    pub(crate) field: &'a Field,
    pub(crate) keys: &'a Keys,
    pub(crate) tree: u32,
    ghost uniform: { IsUniformField grid.now field.now },
    ghost same: { grid.now.dim ≡ keys.now.dim },
    ghost one: { tree < (cuts_of keys.now).trees },
}

impl<'a> Raise<'a> {
    /// A visitor that raises one of the trees of some keys over a grid and its field, whose states all have as many
    /// values.
    pub fn new(grid: &'a Grid, field: &'a Field, keys: &'a Keys, tree: u32) -> Raise<'a>
        requires depth { IsGrid 12 grid.now }
        requires parts { (parts : ℕ) × IsFieldOn parts grid.now field.now }
        requires dim { grid.now.dim ≡ keys.now.dim }
        requires one { tree < (cuts_of keys.now).trees }
        ensures grid { result.grid.now ≡ grid.now }
        ensures field { result.field.now ≡ field.now }
        ensures keys { result.keys.now ≡ keys.now }
        ensures tree { result.tree ≡ tree }
    {
        Raise {
            grid,
            field,
            keys,
            tree,
        }
    }
}
