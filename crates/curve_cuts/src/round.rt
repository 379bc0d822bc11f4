//! Whether a tree's range has all cells round a cell, by one look at a coarser cell.
ghost use Rattle.std.specs.Prelude.{◌<◌, ◌≤◌, IsTrue, IfSome};
ghost use Rattle.peano_keys.specs.Cell.{IsCell};
ghost use Rattle.curve_cuts.specs.Round.{IsBetween, IsThirdBetween, LiesInside, SurroundsCell};

use peano_keys::{CellKey, Dim, extent};

// Whether a coordinate is neither the first nor the last one of a part of so many.
fn is_between(span: u32, x: u32) -> bool
    requires { 0 < span }
    ensures { IsTrue result → IsBetween span x }
{
    let place = x % span;
    place > 0 && place < span - 1
}

// Whether the third one is; a plane has none.
fn is_third_between(dim: Dim, span: u32, third: u32) -> bool
    requires { 0 < span }
    ensures { IsTrue result → IsThirdBetween dim span third }
{
    match dim {
        Dim::Two => true,
        Dim::Three => is_between(span, third),
    }
}

// Whether the coordinates of a cell are such, on each axis.
fn is_inside(dim: Dim, span: u32, cell: &CellKey) -> bool
    requires span { 0 < span }
    requires cell { IsCell dim cell.now }
    ensures { IsTrue result → LiesInside dim span cell.now }
{
    is_between(span, cell.x[0])
        && is_between(span, cell.x[1])
        && is_third_between(dim, span, cell.x[2])
}

/// The nearest cell above a cell that has all cells round its corners in it, if there is one.
pub(crate) fn cell_round(dim: Dim, cell: CellKey) -> Option<CellKey>
    requires { IsCell dim cell }
    ensures cell { IfSome result (λ around. IsCell dim around) }
    ensures level { IfSome result (λ around. around.level ≤ cell.level) }
    ensures round { IfSome result (λ around. SurroundsCell dim around cell) }
{
    for levels in 1..cell.level + 1 {
        let span = extent(levels);
        if is_inside(dim, span, &cell) {
            return Some(CellKey {
                level: cell.level - levels,
                x: [cell.x[0] / span, cell.x[1] / span, cell.x[2] / span],
            });
        }
    }
    None
}
