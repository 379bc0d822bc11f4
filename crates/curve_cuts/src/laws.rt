//! Laws of trees, each for all cuts of both dimensions.
ghost use Rattle.curve_cuts.specs.Tiles.{TilesAreLeaves};
ghost use Rattle.curve_cuts.specs.Laws.{PositionHasTree, PositionHasOneTree, RangesInOrder, OwnerExists, OwnerIsOne, OwnerHolds, CentreKeepsOwner, HeldFromAbove, SharedIsHadToo, LeavesShareNone, LeafIsOwned, EnclaveIsAlone};

/// Each position has a tree.
pub fn position_has_tree()
    ensures { PositionHasTree }
{}

/// A position has one tree alone.
pub fn position_has_one_tree()
    ensures { PositionHasOneTree }
{}

/// Ranges stand in the order of their trees.
pub fn ranges_are_in_order()
    ensures { RangesInOrder }
{}

/// Each cell of a level down to the depth has an owner.
pub fn owner_exists()
    ensures { OwnerExists }
{}

/// A cell has one owner alone.
pub fn owner_is_one()
    ensures { OwnerIsOne }
{}

/// The owner of a cell holds it.
pub fn owner_holds()
    ensures { OwnerHolds }
{}

/// A cell and its centre child have one owner.
pub fn centre_keeps_owner()
    ensures { CentreKeepsOwner }
{}

/// A tree that holds a cell holds its parent.
pub fn held_from_above()
    ensures { HeldFromAbove }
{}

/// A stored vertex that a tree has is shared exactly where another tree has it too.
pub fn shared_is_had_too()
    ensures { SharedIsHadToo }
{}

/// Cells that tile the domain along the curve are the leaves of a grid, in the order that `Keys::equal` asks for.
pub fn tiles_are_leaves()
    ensures { TilesAreLeaves }
{}

/// Two leaves of a grid that share a position are one: so leaves that are sorted by where they begin, each once, rise.
pub fn leaves_share_none()
    ensures { LeavesShareNone }
{}

/// Each leaf of a grid is owned by a tree.
pub fn leaf_is_owned()
    ensures { LeafIsOwned }
{}

/// No other tree has a vertex of an enclave.
pub fn enclave_is_alone()
    ensures { EnclaveIsAlone }
{}
