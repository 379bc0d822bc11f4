//! Laws of sweeps over records, for every sweep of a tree and every visitor.
ghost use Rattle.std.specs.Prelude.{List};
ghost use Rattle.tree_automaton.specs.Story.{Call};
ghost use Rattle.tree_automaton.specs.AtRest.{StoreCanBeSwept, StoreCanBeAdapted, StoreCanBeRaised, FittingIsAtRest};
ghost use Rattle.tree_automaton.specs.Journeys.{EachRecordHasAJourney};
ghost use Rattle.tree_automaton.specs.Carries.{Collects};

use crate::visitor::Visitor;

/// Each record that a sweep left at a cell came there along the run of its vertex, from the input or new.
pub fn each_record_has_a_journey()
    ensures { EachRecordHasAJourney }
{}

/// Where each call keeps one part of a visitor and adds to a list of it, the calls of a sweep together add in order what
/// each of them adds.
pub fn calls_collect<V: Visitor, K, R>()
    ensures { (kept : V → K) (list : V → List R) (adds : K → Call → List R)
        → Collects V.entered V.left kept list adds }
{}

/// A store that stands for a grid and a field can be swept by a visitor that changes no grid.
pub fn store_can_be_swept()
    ensures { StoreCanBeSwept }
{}

/// A store that stands before an adaptation can be adapted.
pub fn store_can_be_adapted()
    ensures { StoreCanBeAdapted }
{}

/// An empty store can be raised.
pub fn store_can_be_raised()
    ensures { StoreCanBeRaised }
{}

/// In a sweep that changes no grid a vertex whose slots intend nothing is at rest.
pub fn fitting_is_at_rest()
    ensures { FittingIsAtRest }
{}
