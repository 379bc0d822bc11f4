//! The generator of a demonstration.
ghost use Rattle.std.specs.Prelude.{◌≡◌, ◌<◌, pos, ◌-ℤ◌};
ghost use Rattle.peano_keys.specs.declared.state.State.TheVariants.{Single};
ghost use Rattle.demonstration.specs.Draws.{next_number, number_after, drawn};
ghost use Rattle.demonstration.specs.Demo.{drawn_fill, drawn_zone};

use peano_keys::State;
use spacetree::{Fill, Zone};

// The multiplier of the generator.
const FACTOR: u64 = 6_364_136_223_846_793_005;

// Its summand.
const SUMMAND: u64 = 1_442_695_040_888_963_407;

// The generator's number that follows another one.
fn next(number: u64) -> u64
    ensures { result ≡ next_number number }
{
    number.wrapping_mul(FACTOR).wrapping_add(SUMMAND)
}

// The value of a fill by its draw: from -1000 to 1000.
fn value_by(draw: u32) -> State
    requires { draw < 2001 }
    ensures { result ≡ Single (pos draw -ℤ pos 1000) }
{
    State::Single(i64::from(draw) - 1000)
}

// A generator, by its number, which each draw moves on.
#[derive(Clone, Copy)]
pub(crate) struct Draws {
    pub number: u64,
}

impl Draws {
    // One draw below a bound.
    fn below(&mut self, bound: u32) -> u32
        requires { 0 < bound }
        ensures moved { self.new.number ≡ next_number self.old.number }
        ensures value { result ≡ drawn bound self.new.number }
        ensures below { result < bound }
    {
        self.number = next(self.number);
        ((self.number >> 33) % u64::from(bound)) as u32
    }

    // The next fill, by three draws.
    pub(crate) fn fill(&mut self) -> Fill
        ensures moved { self.new.number ≡ number_after self.old.number 3 }
        ensures value { result ≡ drawn_fill self.old.number }
    {
        let x = self.below(25);
        let y = self.below(25);
        let value = self.below(2001);
        Fill {
            level: 3,
            from: [x, y, 0],
            to: [x + 2, y + 2, 0],
            value: value_by(value),
        }
    }

    // The next box to refine, by two draws.
    pub(crate) fn zone(&mut self) -> Zone
        ensures moved { self.new.number ≡ number_after self.old.number 2 }
        ensures value { result ≡ drawn_zone self.old.number }
    {
        let x = self.below(27);
        let y = self.below(27);
        Zone {
            level: 3,
            from: [x, y, 0],
            to: [x + 1, y + 1, 0],
            until: 5,
        }
    }
}
