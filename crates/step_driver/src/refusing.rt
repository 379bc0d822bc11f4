//! Why a step is refused.
ghost use Rattle.step_driver.specs.Refusing.{IsRefusal};

use peano_keys::CellKey;
use spacetree::{EvalFault, MOST_CELLS};

/// Why a step is refused, if it is: because of the least leaf that fails; or, where none does, because the next grid has too
/// many cells.
pub(crate) fn refusal(failing: Option<CellKey>, cells: u64, step: u32) -> Option<EvalFault>
    ensures { IsRefusal failing cells step result }
{
    if let Some(key) = failing {
        return Some(EvalFault::Overflow { step, key });
    }
    if cells > MOST_CELLS {
        return Some(EvalFault::Crowded { step, cells });
    }
    None
}
