//! The core: a solver and the state of one step of all trees.
ghost use Rattle.std.specs.Prelude.{◌≡◌};

use crate::answers::AnswerMap;
use crate::event::Sweep;
use crate::forest::Forest;
use solver_api::Solver;

/// One step of all trees: which sweep they are in, how far each is, the words of their tasks, and the answers so far.
/// Contracts see it as its solver and a machine.
#[derive(Drop)]
pub struct Core<S: Solver> {
    pub(crate) solver: S,
    pub(crate) sweep: Sweep,
    pub(crate) forest: Forest,
    pub(crate) answers: AnswerMap,
    ghost fits: { forest.parts ≡ S.parts_of solver },
}
