//! Laws of keys, each for all cells and vertices of both dimensions.
ghost use Rattle.peano_keys.specs.Laws.{StandsInSlot, SharesAnchor, HomeIsStored, AnchorIsStored, TouchesFromPosition};

/// A cell stands in slot `2^d - 1 - n` of its corner `n`.
pub fn cell_stands_in_slot()
    ensures { StandsInSlot }
{}

/// Two face neighbours have one anchor: the same vertex, each by its own number.
pub fn neighbours_share_anchor()
    ensures { SharesAnchor }
{}

/// The home corner of a cell of a grid is stored there.
pub fn home_is_stored()
    ensures { HomeIsStored }
{}

/// The anchor of two face neighbours that are both cells of a grid is stored there.
pub fn anchor_is_stored()
    ensures { AnchorIsStored }
{}

/// The cells that touch a vertex are those of its adjacent positions.
pub fn touching_cells_stand_at_positions()
    ensures { TouchesFromPosition }
{}
