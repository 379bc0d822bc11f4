//! How a run ended, with what its text needs, and the world that it leaves.
ghost use Rattle.std.specs.Prelude.{◌≡◌, None, Some};

use crate::answer::Answer;
use peano_keys::Dim;
use step_driver::World;
use volume_solver::AnySolver;

// An answer, the dimension in which its text names a leaf, and the world that is left.
#[derive(Drop)]
pub(crate) struct Ending {
    pub dim: Dim,
    pub answer: Answer,
    pub world: Option<World<AnySolver>>,
}

impl Ending {
    // An answer that names no leaf and leaves no world.
    pub(crate) fn of(answer: Answer) -> Ending
        ensures { result ≡ record { dim = Dim.Two; answer = answer; world = None } }
    {
        Ending {
            dim: Dim::Two,
            answer,
            world: None,
        }
    }

    // An answer that names no leaf, with a world.
    pub(crate) fn with(answer: Answer, world: World<AnySolver>) -> Ending
        ensures { result ≡ record { dim = Dim.Two; answer = answer; world = Some world } }
    {
        Ending {
            dim: Dim::Two,
            answer,
            world: Some(world),
        }
    }
}
