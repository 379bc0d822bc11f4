//! Laws of the curve, for both dimensions and all levels.
ghost use Rattle.std.specs.Prelude.{◌≡◌, ◌<◌, ◌≤◌, Some, IsSome};
ghost use Rattle.std.specs.Ordering.{ordering_reverse};
ghost use Rattle.peano_keys.specs.declared.cell.CellKey.{CellKey};
ghost use Rattle.peano_keys.specs.Dim.{axes};
ghost use Rattle.peano_keys.specs.Cell.{IsCell, neighbour_of};
ghost use Rattle.peano_curve.specs.Order.{curve_cmp};
ghost use Rattle.peano_curve.specs.Splits.{RanksArePlaces};
ghost use Rattle.peano_curve.specs.Laws.{IsIn, IsAtFace, RunIsGray, HeldAreUnbroken, RanksTellApart, ChildAtPlace, SplitsOrderChildren, OrderIsByDigits, AncestorComesFirst, IntervalIsDescendants, CentreIsShared};

use crate::order::compare;
use peano_keys::{CellKey, Dim, Face};
use std::cmp::Ordering;

/// Mirror order along a face: `compare` of two cells of one level that touch a face of `p` from inside, and the reverse of
/// `compare` of their neighbours across it.
pub fn mirror(dim: Dim, p: CellKey, face: Face, a: CellKey, b: CellKey) -> Ordering
    requires cell { IsCell dim p }
    requires axis { face.axis < axes dim }
    requires neighbour { IsSome (neighbour_of p face) }
    requires first { IsCell dim a }
    requires second { IsCell dim b }
    requires level { a.level ≡ b.level }
    requires first_in { IsIn p a }
    requires second_in { IsIn p b }
    requires first_at { IsAtFace p face a }
    requires second_at { IsAtFace p face b }
    ensures value { result ≡ curve_cmp dim a b }
    ensures first_image { IsSome (neighbour_of a face) }
    ensures second_image { IsSome (neighbour_of b face) }
    ensures mirror { (n m : CellKey) → neighbour_of a face ≡ Some n → neighbour_of b face ≡ Some m
        → curve_cmp dim n m ≡ ordering_reverse result }
{
    compare(dim, &a, &b)
}

/// Consecutive cells of a vertex's run differ on one axis, by one.
pub fn run_is_gray()
    ensures { RunIsGray }
{}

/// The cells of a level that a range holds are unbroken along the curve: one between two of them is held too.
pub fn held_are_unbroken()
    ensures { HeldAreUnbroken }
{}

/// Cells of one level have different ranks along the curve.
pub fn ranks_tell_apart()
    ensures { RanksTellApart }
{}

/// A cell is the child of its parent at its place.
pub fn child_at_place()
    ensures { ChildAtPlace }
{}

/// Nested splits of a cell into three, one axis after another, give the order of its children.
pub fn splits_order_children()
    ensures { SplitsOrderChildren }
{}

/// The rank of a cell is the place of its box among those that splits along one axis at a time make.
pub fn ranks_are_places()
    ensures { RanksArePlaces }
{}

/// The order is that of the digits below the last common ancestor.
pub fn order_is_by_digits()
    ensures { OrderIsByDigits }
{}

/// An ancestor comes before its descendants.
pub fn ancestor_comes_first()
    ensures { AncestorComesFirst }
{}

/// The interval of a cell has the ranks of its descendants and no others.
pub fn interval_is_descendants()
    ensures { IntervalIsDescendants }
{}

/// A cell and its centre child have one centre.
pub fn centre_is_shared()
    ensures { CentreIsShared }
{}
