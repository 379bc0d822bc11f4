//! Merges and splits, each decided from the slots that a view shows.
ghost use Rattle.std.specs.Prelude.{◌≡◌, ◌<◌, ◌≤◌, ◌↔◌, ℕ, IsTrue, false};
ghost use Rattle.peano_keys.specs.declared.dim.Dim.{Dim};
ghost use Rattle.peano_keys.specs.declared.cell.CellKey.{CellKey};
ghost use Rattle.peano_keys.specs.declared.side.Mark.{Mark};
ghost use Rattle.peano_keys.specs.declared.side.Mark.TheVariants.{Coarsen};
ghost use Rattle.peano_keys.specs.Dim.{corners};
ghost use Rattle.peano_keys.specs.Cell.{IsCell, parent_of};
ghost use Rattle.peano_keys.specs.Grid.{Spacetree};
ghost use Rattle.peano_keys.specs.Next.{Splits, Merges};
ghost use Rattle.peano_records.specs.Tells.{slot_tells, corner_at};
ghost use Rattle.adapt_marks.specs.Decisions.{IsLeafMarked, AllCoarsen, CornerCoarsens};
ghost use Rattle.adapt_marks.specs.Views.{dim_shown, ShowsMarks, IsCentre};

use peano_keys::{Dim, Mark, corner_count, home_corner, slot_of};
use peano_records::{CellView, Corner, Intent, Slot, Status, Stored};

// Whether a slot tells that its cell is refined.
fn tells_refined(slot: Slot) -> bool
    ensures { result ≡ slot_tells false slot }
{
    match slot.intent {
        Intent::Stay => matches!(slot.status, Status::Refined),
        Intent::Split => false,
        Intent::Merge => true,
    }
}

// Whether a slot tells of a leaf with this mark.
fn is_leaf_marked(slot: Slot, mark: Mark) -> bool
    ensures { IsTrue result ↔ IsLeafMarked mark slot }
{
    !tells_refined(slot) && slot.mark == mark
}

// Corner number `n` of a view.
fn corner_in(view: &CellView, n: u32) -> &Corner
    requires { n < 8 }
    ensures { result.now ≡ corner_at view.now n }
{
    &view.corners[n as usize]
}

// The dimension, which the corner in the fifth place tells: in a plane there is none.
fn dim_of(view: &CellView) -> Dim
    ensures { result ≡ dim_shown view.now }
{
    match corner_in(view, 4) {
        Corner::Beyond => Dim::Two,
        _ => Dim::Three,
    }
}

// Whether the first `count` slots of a record tell of leaves that are marked to be coarsened.
fn all_coarsen(stored: &Stored, count: u32) -> bool
    requires { count ≤ 8 }
    ensures { IsTrue result ↔ AllCoarsen count stored.now }
{
    for k in 0..count {
        if !is_leaf_marked(stored.slot(k), Mark::Coarsen) {
            return false;
        }
    }
    true
}

// Whether a corner is stored and its first `count` slots tell so.
fn corner_coarsens(corner: &Corner, count: u32) -> bool
    requires { count ≤ 8 }
    ensures { IsTrue result ↔ CornerCoarsens count corner.now }
{
    match corner {
        Corner::Vertex(stored) => all_coarsen(stored, count),
        _ => false,
    }
}

/// Whether the parent of this centre child merges: all its children are leaves that are marked to be coarsened. Each of
/// them has a slot at a corner of the centre child.
pub fn merges(centre: &CellView) -> bool
    ensures { (g : Spacetree) (marks : CellKey → Mark) → IsCentre g.dim centre.now.key
        → ShowsMarks g marks centre.now
        → IsTrue result ↔ Merges g marks (parent_of centre.now.key) }
{
    let count = corner_count(dim_of(centre));
    for n in 0..count {
        if !corner_coarsens(corner_in(centre, n), count) {
            return false;
        }
    }
    true
}

/// Whether this leaf splits: it is marked to be refined. Its slot at its home corner tells, which is stored wherever the
/// leaf is a cell of the grid.
pub fn splits(leaf: &CellView) -> bool
    requires { IsCell (dim_shown leaf.now) leaf.now.key }
    ensures { (g : Spacetree) (marks : CellKey → Mark) → ShowsMarks g marks leaf.now
        → IsTrue result ↔ Splits g marks leaf.now.key }
{
    let dim = dim_of(leaf);
    let home = home_corner(dim, leaf.key);
    match corner_in(leaf, home) {
        Corner::Vertex(stored) => is_leaf_marked(stored.slot(slot_of(dim, home)), Mark::Refine),
        _ => false,
    }
}
