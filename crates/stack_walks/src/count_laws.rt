// How many vertices a walk gives along its lanes and to its output.

ghost use Rattle.stack_walks.specs.Counts.{EachKeptCornerIsGiven, EachVertexEndsOnce, GivenOnceLessThanTheRun, PushesAreRunsLessOne};

/// Each kept corner of a visited cell is given along a lane or to the output.
pub fn each_kept_corner_is_given()
    ensures { EachKeptCornerIsGiven }
{}

/// Each kept vertex that a visited cell touches goes to the output once.
pub fn each_vertex_ends_once()
    ensures { EachVertexEndsOnce }
{}

/// Each kept vertex is given along the lanes once less than its run is long.
pub fn given_once_less_than_the_run()
    ensures { GivenOnceLessThanTheRun }
{}

/// All that is given along the lanes is the sum of run length less one.
pub fn pushes_are_runs_less_one()
    ensures { PushesAreRunsLessOne }
{}
