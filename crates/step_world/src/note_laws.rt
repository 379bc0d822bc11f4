//! Laws of the notes of a run.
ghost use Rattle.step_world.specs.Notes.{NotesAreOfEvaluation, NotesExist};

/// The notes of a run are of the grids and fields of the evaluation.
pub fn notes_are_of_evaluation()
    ensures { NotesAreOfEvaluation }
{}

/// For each evaluation there are notes.
pub fn notes_exist()
    ensures { NotesExist }
{}
