//! Trees that hold the whole domain of a grid.
ghost use Rattle.std.specs.Prelude.{◌≡◌, ◌≤◌, IfOk, IfSome, All};
ghost use Rattle.peano_keys.specs.Grid.{IsGrid};
ghost use Rattle.peano_curve.specs.declared.order.Direction.TheVariants.{Backward};
ghost use Rattle.curve_cuts.specs.Cuts.{IsCutGrid, AreCuts, range_of};
ghost use Rattle.curve_cuts.specs.Keys.{cuts_of};
ghost use Rattle.spacetree.specs.Build.{IsShape, IsZone};
ghost use Rattle.spacetree.specs.Fields.{IsFieldOn};
ghost use Rattle.tree_automaton.specs.AtRest.{StandsFor};

use adapt_sweep::raise_tree;
use curve_cuts::{Keys, is_tiling};
use peano_keys::{Dim, root};
use spacetree::{Field, Grid, Listed, Shape, Zone};
use std::alloc::{AllocError, Global};
use tree_automaton::TreeStore;

// The shape of a grid of a level all over, with one zone.
fn with_zone(
    alloc: Global,
    dim: Dim,
    depth: u32,
    level: u32,
    zone: Zone,
) -> Result<Shape, AllocError>
    requires most { depth ≤ 12 }
    requires level { level ≤ depth }
    requires zone { IsZone dim depth zone }
    ensures shape { IfOk result (λ s. IsShape s) }
    ensures dim { IfOk result (λ s. s.dim ≡ dim) }
    ensures depth { IfOk result (λ s. s.depth ≡ depth) }
{
    let mut zones = Vec::new(alloc);
    zones.push(zone)?;
    Ok(Shape {
        dim,
        depth,
        base: level,
        zones: Listed::new(zones),
    })
}

/// The shape of a grid of a level all over, of which the middle is refined down to a depth.
pub fn middle(alloc: Global, dim: Dim, depth: u32, level: u32) -> Result<Shape, AllocError>
    requires least { 1 ≤ depth }
    requires most { depth ≤ 12 }
    requires level { level ≤ depth }
    ensures shape { IfOk result (λ s. IsShape s) }
{
    let zone = Zone {
        level: 1,
        from: [1; 3],
        to: [2; 3],
        until: depth,
    };
    with_zone(alloc, dim, depth, level, zone)
}

/// The shape of a grid that is refined to the greatest depth in the corner cell of a level, and not beside it.
#[tactic(auto, using(peano_keys::proofs::Powers::pow3_positive))]
pub fn corner(alloc: Global, dim: Dim, level: u32) -> Result<Shape, AllocError>
    requires level { level ≤ 12 }
    ensures shape { IfOk result (λ s. IsShape s) }
{
    let zone = Zone {
        level,
        from: [0; 3],
        to: [1; 3],
        until: 12,
    };
    with_zone(alloc, dim, 12, 0, zone)
}

/// The keys of one tree, which has all positions; none where the root does not tile the domain.
pub fn one_tree(alloc: Global, dim: Dim, depth: u32) -> Result<Option<Keys>, AllocError>
    requires { depth ≤ 12 }
    ensures dim { IfOk result (λ found. IfSome found (λ keys. keys.dim ≡ dim)) }
    ensures depth { IfOk result (λ found. IfSome found (λ keys. keys.depth ≡ depth)) }
    ensures one { IfOk result (λ found. IfSome found (λ keys. (cuts_of keys).trees ≡ 1)) }
    ensures cuts { IfOk result (λ found. IfSome found (λ keys. AreCuts (cuts_of keys))) }
{
    let cells = [root()];
    if !is_tiling(dim, depth, &cells) {
        return Ok(None);
    }
    let keys = Keys::equal(alloc, dim, depth, &cells, 1)?;
    Ok(Some(keys))
}

/// The store of the tree, raised over a grid and its field.
pub fn raised(
    alloc: Global,
    grid: &Grid,
    field: &Field,
    keys: &Keys,
) -> Result<TreeStore, AllocError>
    requires grid { IsCutGrid (cuts_of keys.now) grid.now }
    requires one { (cuts_of keys.now).trees ≡ 1 }
    requires field { IsFieldOn 1 grid.now field.now }
    ensures { IfOk result
        (λ store. StandsFor keys.now.depth
        (range_of (cuts_of keys.now) 0) 0 Backward grid.now field.now store) }
{
    let mut store = TreeStore::new(alloc, grid.dim(), keys.depth(), keys.range(0), 0);
    raise_tree(&mut store, grid, field, keys, 0)?;
    Ok(store)
}
