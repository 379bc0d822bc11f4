//! What a phase makes of one slot.
ghost use Rattle.std.specs.Prelude.{◌≡◌, ◌<◌, true};
ghost use Rattle.step_phases.specs.declared.phase.Phase.TheVariants.{First};
ghost use Rattle.step_phases.specs.Exchange.{overwritten, finished};
ghost use Rattle.boundary_streams.specs.Merges.{taken};

use peano_keys::State;
use peano_records::{Intent, Parcel, Slot};
use step_phases::Phase;

// A slot with the fields that a phase takes from the owner's.
fn overwrite(phase: Phase, theirs: Slot, ours: Slot) -> Slot
    ensures { result ≡ overwritten phase theirs ours }
{
    match phase {
        Phase::First => Slot {
            next: theirs.next,
            mark: theirs.mark,
            ..ours
        },
        Phase::Second => Slot {
            next: theirs.next,
            intent: theirs.intent,
            ..ours
        },
        Phase::Third | Phase::Opening => Slot {
            status: theirs.status,
            value: theirs.value,
            ..ours
        },
    }
}

// What a phase at last does to every slot.
fn finish(phase: Phase, slot: Slot) -> Slot
    ensures { result ≡ finished phase slot }
{
    match phase {
        Phase::First => slot,
        Phase::Second => Slot {
            value: slot.next,
            ..slot
        },
        Phase::Third | Phase::Opening => Slot {
            intent: Intent::Stay,
            ..slot
        },
    }
}

/// What a phase makes of slot `n`, with the parcel of the tree that owns its cell if there is one.
pub(crate) fn exchange(phase: Phase, n: u32, theirs: &Option<Parcel>, ours: Slot) -> Slot
    requires { n < 8 }
    ensures { result ≡ finished phase (taken phase n theirs.now ours) }
{
    match theirs {
        Some(parcel) => finish(phase, overwrite(phase, parcel.slots[n as usize], ours)),
        None => finish(phase, ours),
    }
}

// Whether two states are the same.
fn is_same_state(one: &State, other: &State) -> bool
    ensures { result ≡ true → one.now ≡ other.now }
{
    match (one, other) {
        (State::Single(a), State::Single(b)) => *a == *b,
        (State::Pair(a, c), State::Pair(b, d)) => *a == *b && *c == *d,
        _ => false,
    }
}

/// Whether it is the first phase, which leaves every slot as it is where nothing was sent.
pub(crate) fn is_first(phase: Phase) -> bool
    ensures { result ≡ true → phase ≡ First }
{
    match phase {
        Phase::First => true,
        Phase::Second | Phase::Third | Phase::Opening => false,
    }
}

/// Whether a phase without a parcel leaves a slot as it is. It may say no where it does: states of more than two values
/// are not compared.
pub(crate) fn is_left(phase: Phase, slot: &Slot) -> bool
    ensures { result ≡ true → finished phase slot.now ≡ slot.now }
{
    match phase {
        Phase::First => true,
        Phase::Second => is_same_state(&slot.value, &slot.next),
        Phase::Third | Phase::Opening => matches!(slot.intent, Intent::Stay),
    }
}
