//! Why a file gives no plan.
ghost use Rattle.std.specs.Prelude.{◌≡◌};
ghost use Rattle.grid_file.specs.Faults.{malformed};
ghost use Rattle.grid_file.specs.Places.{place_of};

use crate::place::{KeyName, Part, Place};
use std::alloc::{AllocError, AllocFailed};
use thiserror::Error;

/// A refusal: its code, 1 to 15, and its place.
#[derive(Clone, Copy, Debug, PartialEq, Eq)]
pub struct Malformed {
    pub code: u8,
    pub place: Place,
}

impl Malformed {
    // A code at a key of a part, or at the whole of it.
    pub(crate) fn at(code: u8, part: Part, index: u32, key: KeyName) -> Malformed
        ensures { result ≡ malformed code (place_of part index key) }
    {
        Malformed {
            code,
            place: Place { part, index, key },
        }
    }
}

/// Why a file gives no plan: it is malformed, or memory ran out.
#[derive(Clone, Copy, Debug, PartialEq, Eq, Error)]
pub enum PlanFault {
    #[error("malformed")]
    Malformed(Malformed),
    #[error("out of memory")]
    NoMemory,
}

impl From<AllocError> for PlanFault {
    ghost use Rattle.grid_file.specs.declared.fault.PlanFault.TheVariants.{NoMemory};

    ghost from_gives = { λ _ fault. fault ≡ NoMemory };

    fn from(_: AllocError) -> PlanFault {
        PlanFault::NoMemory
    }
}

impl<T: Drop> From<AllocFailed<T>> for PlanFault {
    ghost use Rattle.grid_file.specs.declared.fault.PlanFault.TheVariants.{NoMemory};

    ghost from_gives = { λ _ fault. fault ≡ NoMemory };

    fn from(_: AllocFailed<T>) -> PlanFault {
        PlanFault::NoMemory
    }
}

// The refusal of it.
pub(crate) fn refused(code: u8, part: Part, index: u32, key: KeyName) -> PlanFault
    ensures { result ≡ PlanFault.Malformed (malformed code (place_of part index key)) }
{
    PlanFault::Malformed(Malformed::at(code, part, index, key))
}
