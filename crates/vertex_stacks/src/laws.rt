//! Laws of tales.
ghost use Rattle.vertex_stacks.specs.Tales.{TaleGrows};

/// The tale that lanes keep note by note is the tale of the list of their notes.
pub fn tale_of_notes_grows()
    ensures { TaleGrows }
{}
