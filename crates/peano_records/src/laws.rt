//! Laws of slots, each for all records, grids and fields.
ghost use Rattle.peano_records.specs.Laws.{FreshSaysOutside, FreshStays, SetChangesOneSlot, IntentsFollowMarks, SlotsTellBothGrids, RestIntendsNothing};

/// A new record says `Outside` at the positions outside the domain, by their coordinates, and nowhere else.
pub fn new_says_outside_by_coordinates()
    ensures { FreshSaysOutside }
{}

/// A new record intends nothing.
pub fn new_intends_nothing()
    ensures { FreshStays }
{}

/// Setting a slot changes that slot and no other.
pub fn set_changes_one_slot()
    ensures { SetChangesOneSlot }
{}

/// The intents that lead from a grid to the next one are those that the marks ask for.
pub fn intents_follow_marks()
    ensures { IntentsFollowMarks }
{}

/// Before an adaptation a slot tells whether its cell is refined in the old grid and in the new one.
pub fn slots_tell_both_grids()
    ensures { SlotsTellBothGrids }
{}

/// A record at rest is one before an adaptation that changes nothing.
pub fn rest_intends_nothing()
    ensures { RestIntendsNothing }
{}
