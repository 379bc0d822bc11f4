//! Laws of sweeps, of the moments inside them, and of whole steps.
ghost use Rattle.step_phases.specs.Moments.{SecondaryBegins, SecondaryViewsShow, AdaptBegins, MadeTellsNew, MovedTellsBoth, MovedTellsNew};
ghost use Rattle.step_phases.specs.SweepLaws.{RaiseSweep, PrimarySweep, SecondarySweep, AdaptSweep, StartRests, WholeStep, PlainStep, ChainExists};

/// Raised stores have the status of each cell and the values of the tree's own cells.
pub fn raise_sweep()
    ensures { RaiseSweep }
{}

/// The primary sweep gives the tree's own leaves their marks, and their new values to its skeleton leaves.
pub fn primary_sweep()
    ensures { PrimarySweep }
{}

/// The secondary sweep gives the tree's own cells their new values and intents.
pub fn secondary_sweep()
    ensures { SecondarySweep }
{}

/// What the first exchange left is right for a secondary sweep.
pub fn secondary_begins()
    ensures { SecondaryBegins }
{}

/// At each moment of a secondary sweep a view shows the marks that decide on splits and merges.
pub fn secondary_views_show()
    ensures { SecondaryViewsShow }
{}

/// The adaptation sweep gives the tree's own cells status and value in the new grid.
pub fn adapt_sweep()
    ensures { AdaptSweep }
{}

/// What the second exchange left is right for an adaptation sweep.
pub fn adapt_begins()
    ensures { AdaptBegins }
{}

/// A vertex that is made says of no cell that it is refined, and intends nothing.
pub fn made_tells_new()
    ensures { MadeTellsNew }
{}

/// At each moment of an adaptation sweep the slots of vertices of the old grid tell both grids.
pub fn moved_tells_both()
    ensures { MovedTellsBoth }
{}

/// And those of vertices that were made tell what is refined only where it is.
pub fn moved_tells_new()
    ensures { MovedTellsNew }
{}

/// Raising sweeps and the opening exchange bring the stores to rest.
pub fn start_rests()
    ensures { StartRests }
{}

/// A whole step leads from rest to rest, over the new grid.
pub fn whole_step()
    ensures { WholeStep }
{}

/// So does a step without an adaptation, over the same grid.
pub fn plain_step()
    ensures { PlainStep }
{}

/// For each change there are stores that take every move of a step.
pub fn chain_exists()
    ensures { ChainExists }
{}
