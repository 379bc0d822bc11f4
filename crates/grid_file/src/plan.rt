//! What a file asks for.
ghost use Rattle.std.specs.Prelude.{◌≡◌};
ghost use Rattle.grid_file.specs.Plan.{printed};

use spacetree::{Fill, Listed, Shape};
use volume_solver::AnySolver;

/// What a file asks for: the opening grid, the boxes of the opening field, the solver, how many steps are taken,
/// which of them are printed besides the last, and after which of them the trees are cut anew.
#[derive(Drop)]
pub struct Plan {
    pub shape: Shape,
    pub fills: Listed<Fill>,
    pub solver: AnySolver,
    pub steps: u32,
    pub print_every: Option<u32>,
    pub recut_every: Option<u32>,
}

/// Whether the field after a step is printed: the last step is, and up to it each multiple of `print_every`.
pub fn is_printed(plan: &Plan, step: u32) -> bool
    ensures { result ≡ printed plan.now step }
{
    if step == plan.steps {
        return true;
    }
    match plan.print_every {
        None => false,
        Some(every) => step <= plan.steps && step.is_multiple_of(every),
    }
}
