//! Why a plan's run has no report, and the world that it leaves.
ghost use Rattle.std.specs.Prelude.{◌≡◌, None, Some};

use crate::answer::Answer;
use std::alloc::AllocError;
use step_driver::World;
use volume_solver::AnySolver;

// The answer in place of a report, and the world, where one is left.
#[derive(Drop)]
pub(crate) struct Refused {
    pub answer: Answer,
    pub world: Option<World<AnySolver>>,
}

impl Refused {
    // An answer with which no world is left.
    pub(crate) fn at_once(answer: Answer) -> Refused
        ensures { result ≡ record { answer = answer; world = None } }
    {
        Refused {
            answer,
            world: None,
        }
    }

    // An answer with a world.
    pub(crate) fn with(answer: Answer, world: World<AnySolver>) -> Refused
        ensures { result ≡ record { answer = answer; world = Some world } }
    {
        Refused {
            answer,
            world: Some(world),
        }
    }
}

impl From<AllocError> for Refused {
    ghost use Rattle.std.specs.Prelude.{◌≡◌, None};
    ghost use Rattle.peano_run.specs.declared.answer.Answer.TheVariants.{NoMemory};

    ghost from_gives = { λ _ e. e ≡ record { answer = NoMemory; world = None } };

    fn from(_e: AllocError) -> Refused {
        Refused {
            answer: Answer::NoMemory,
            world: None,
        }
    }
}
