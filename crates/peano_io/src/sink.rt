//! A sink of bytes: what it has taken, and how often it failed.
ghost use Rattle.std.specs.Prelude.{◌<◌, ℕ, List, Option, length};
ghost use Rattle.std.specs.Io.KnownBytes.{WriteAppends};
ghost use Rattle.peano_io.specs.Causes.{HasCause};
ghost use Rattle.peano_io.specs.Writing.{TakesSome};

/// A write failed. The sink's count of faults rose, or stands at its last value.
#[derive(Clone, Copy, Debug, PartialEq, Eq)]
pub struct WriteFailed;

/// A device that takes bytes piece by piece.
pub trait Sink {
    /// The bytes that were taken, where the sink tells them.
    ghost taken: { Self → Option (List ℕ) };

    /// How often a write failed. It never falls.
    ghost faults: { Self → ℕ };

    /// Takes some bytes from the front of `piece`, at least one, and answers how many. A write that failed took
    /// nothing; a device that takes nothing has failed.
    fn write(&mut self, piece: &[u8]) -> Result<usize, WriteFailed>
        requires { 0 < length piece.now }
        ensures count { TakesSome result piece.now }
        ensures bytes { WriteAppends (taken self.old) (taken self.new) result piece.now }
        ensures cause { HasCause (faults self.old) (faults self.new) result };
}
