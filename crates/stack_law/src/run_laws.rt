// The cells round a vertex, one after another.

ghost use Rattle.stack_law.specs.RunLaws.{RunsGoAcrossFaces, VisitedRunsGoAcrossFaces, NextIsLeastLaterNeighbour};

/// Round a vertex each cell but the last is followed by a face neighbour.
pub fn runs_go_across_faces()
    ensures { RunsGoAcrossFaces }
{}

/// So it is for the visited cells, where they are unbroken round the vertex.
pub fn visited_runs_go_across_faces()
    ensures { VisitedRunsGoAcrossFaces }
{}

/// The next cell round a vertex is the least of the later visited neighbours.
pub fn next_is_least_later_neighbour()
    ensures { NextIsLeastLaterNeighbour }
{}
