//! Laws of what is handed down, for all cells and ranges of both dimensions.
ghost use Rattle.handed_down.specs.Laws.{FacesTellOrder, WholeIsHandedDown, WholeAtRoot};

/// The curve goes out by a face exactly where the neighbour across it comes later, and in exactly where it comes earlier.
pub fn faces_tell_order()
    ensures { FacesTellOrder }
{}

/// Where a range has the whole intervals of a cell and of all round it, it has those of its children and of all round them.
pub fn whole_is_handed_down()
    ensures { WholeIsHandedDown }
{}

/// A range that has the whole curve has all round the root.
pub fn whole_at_root()
    ensures { WholeAtRoot }
{}
