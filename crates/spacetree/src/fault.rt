//! Why a grid was not built or a list is not that of leaves, and why an evaluation ended early.
use peano_keys::CellKey;
use std::alloc::AllocError;
use thiserror::Error;

/// Why a grid was not built.
#[derive(Clone, Copy, Debug, PartialEq, Eq, Error)]
pub enum BuildFault {
    /// The grid would have more than 200,000 cells.
    #[error("more than 200000 cells")]
    TooMany,
    #[error("out of memory")]
    NoMemory,
}

impl From<AllocError> for BuildFault {
    ghost use Rattle.std.specs.Prelude.{◌≡◌};
    ghost use Rattle.spacetree.specs.declared.fault.BuildFault.{BuildFault};
    ghost use Rattle.spacetree.specs.declared.fault.BuildFault.TheVariants.{NoMemory};

    ghost from_gives = { λ _ e. e ≡ NoMemory };

    fn from(_e: AllocError) -> BuildFault {
        BuildFault::NoMemory
    }
}

/// Why a list of leaves makes no grid.
#[derive(Clone, Copy, Debug, PartialEq, Eq, Error)]
pub enum LeavesFault {
    /// The list is not, in key order, that of the leaves of a grid of the depth with at most 200,000 cells.
    #[error("not the leaves of a grid")]
    NotLeaves,
    #[error("out of memory")]
    NoMemory,
}

impl From<AllocError> for LeavesFault {
    ghost use Rattle.std.specs.Prelude.{◌≡◌};
    ghost use Rattle.spacetree.specs.declared.fault.LeavesFault.{LeavesFault};
    ghost use Rattle.spacetree.specs.declared.fault.LeavesFault.TheVariants.{NoMemory};

    ghost from_gives = { λ _ e. e ≡ NoMemory };

    fn from(_e: AllocError) -> LeavesFault {
        LeavesFault::NoMemory
    }
}

/// Why an evaluation ended early.
#[derive(Clone, Copy, Debug, PartialEq, Eq, Error)]
pub enum EvalFault {
    /// In this step, counted from 1, this leaf's new state left the range of `i64`: the least such leaf in key order.
    #[error("overflow in step {step}")]
    Overflow { step: u32, key: CellKey },
    /// In this step, counted from 1, no leaf's new state left its range, and the next grid would have so many cells, more than 200,000.
    #[error("{cells} cells in step {step}")]
    Crowded { step: u32, cells: u64 },
    #[error("out of memory")]
    NoMemory,
}

impl From<AllocError> for EvalFault {
    ghost use Rattle.std.specs.Prelude.{◌≡◌};
    ghost use Rattle.spacetree.specs.declared.fault.EvalFault.{EvalFault};
    ghost use Rattle.spacetree.specs.declared.fault.EvalFault.TheVariants.{NoMemory};

    ghost from_gives = { λ _ e. e ≡ NoMemory };

    fn from(_e: AllocError) -> EvalFault {
        EvalFault::NoMemory
    }
}
