//! What stands behind the domain's edge.
ghost use Rattle.std.specs.Prelude.{◌≡◌};
ghost use Rattle.volume_solver.specs.Kernel.{across};

use peano_keys::{Side, State};

/// What a leaf sees at the domain's edge: a copy of its own state, or a fixed state.
#[derive(Clone, Copy, Debug, PartialEq, Eq)]
pub enum EdgeRule {
    Copy,
    Fixed(State),
}

// The state across a face.
pub(crate) fn across(rule: EdgeRule, own: State, side: Side) -> State
    ensures { result ≡ across rule own side }
{
    match (side, rule) {
        (Side::Same(there) | Side::Coarse(there), _) => there,
        (Side::Edge, EdgeRule::Copy) => own,
        (Side::Edge, EdgeRule::Fixed(there)) => there,
    }
}
