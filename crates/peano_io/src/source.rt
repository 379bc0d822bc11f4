//! A source of bytes: what it has left, and how often it failed.
ghost use Rattle.std.specs.Prelude.{◌≡◌, ◌<◌, ℕ, Bool, false, List, Option, length};
ghost use Rattle.std.specs.Io.{ReadsAtMost};
ghost use Rattle.std.specs.Io.KnownBytes.{ReadConsumes};
ghost use Rattle.peano_io.specs.Causes.{HasCause};
ghost use Rattle.peano_io.specs.Reading.{tells_end};

/// A read failed. The source's count of faults rose, or stands at its last value.
#[derive(Clone, Copy, Debug, PartialEq, Eq)]
pub struct ReadFailed;

/// Bytes that are read piece by piece.
pub trait Source {
    /// The bytes that are left, where the source tells them.
    ghost left: { Self → Option (List ℕ) };

    /// How often a read failed. It never falls.
    ghost faults: { Self → ℕ };

    /// Whether a read told the end of the input.
    ghost ended: { Self → Bool };

    /// Moves some of the bytes left to the front of `buf`, and answers how many; what stands behind them may be
    /// anything. 0 comes only at the end of the input, and no read may come after it. A read that failed took nothing.
    fn read(&mut self, buf: &mut [u8]) -> Result<usize, ReadFailed>
        requires room { 0 < length buf.old }
        requires before_end { ended self.old ≡ false }
        ensures bound { ReadsAtMost result buf.new }
        ensures bytes { ReadConsumes (left self.old) (left self.new) result buf.new }
        ensures end { ended self.new ≡ tells_end result }
        ensures cause { HasCause (faults self.old) (faults self.new) result };
}
