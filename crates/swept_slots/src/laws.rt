//! Laws of what sweeps leave in slots, for every sweep of a tree and every visitor.
ghost use Rattle.swept_slots.specs.Laws.{HeldCellsChange, PlainCellsChange, StoreHasCopies, RestIsSaid, SaidIsRest, SaidIsBefore};

use tree_automaton::Visitor;

/// Where the two calls at each cell change the slots of that cell alone, the sweep changes so, once, the slots of each cell
/// that the tree holds, and no other slot.
pub fn held_cells_change<V: Visitor>()
    ensures { HeldCellsChange V.entered V.left }
{}

/// In a sweep that changes no grid this leads from the copies before it to those after it.
pub fn plain_cells_change<V: Visitor>()
    ensures { PlainCellsChange V.entered V.left }
{}

/// Each vertex that a tree has in a grid has its copy in a store that has the lists of the grid.
pub fn store_has_copies()
    ensures { StoreHasCopies }
{}

/// Where a store stands for a grid and a field, its copies say what is so at rest.
pub fn rest_is_said()
    ensures { RestIsSaid }
{}

/// Where its copies say what is so at rest, a store with the lists of the grid stands for the grid and the field.
pub fn said_is_rest()
    ensures { SaidIsRest }
{}

/// Where they say what is so after the second exchange, it stands before an adaptation.
pub fn said_is_before()
    ensures { SaidIsBefore }
{}
