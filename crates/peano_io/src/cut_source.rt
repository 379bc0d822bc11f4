//! A source in memory that is cut off.
ghost use Rattle.std.specs.Prelude.{◌≤◌, length};
ghost use Rattle.peano_io.specs.Memory.{unread_bytes};

use crate::memory_source::Unread;
use crate::source::{ReadFailed, Source};

/// A source in memory that is cut off before its end, or at it: once so many bytes were read, every read fails.
#[derive(Drop)]
pub struct CutSource {
    unread: Unread,
    until: u64,
    faults: u64,
    ghost within: { until ≤ length (unread_bytes unread) },
}

impl CutSource {
    ghost use Rattle.std.specs.Prelude.{◌≡◌, ◌≤◌, vec_len};
    ghost use Rattle.peano_io.specs.Cut.{cut_left, until_cut, read_faults};

    /// A source of these bytes, of which `cut` can be read.
    pub fn new(bytes: Vec<u8>, cut: u64) -> CutSource
        requires { cut ≤ vec_len bytes }
        ensures left { cut_left result ≡ bytes.items }
        ensures until { until_cut result ≡ cut }
        ensures faults { read_faults result ≡ 0 }
    {
        CutSource {
            unread: Unread::new(bytes),
            until: cut,
            faults: 0,
        }
    }

    /// The bytes that are left, before the cut and behind it.
    pub fn left(&self) -> &[u8]
        ensures { result.now ≡ cut_left self.now }
    {
        self.unread.left()
    }
}

impl Source for CutSource {
    ghost use Rattle.std.specs.Prelude.{◌≡◌, ◌↔◌, ◌<◌, ◌-◌, min, length, Some, IsErr, IfOk, OnErr, false};
    ghost use Rattle.std.specs.Io.{ReadsAtMost};
    ghost use Rattle.std.specs.Io.KnownBytes.{ReadConsumes};
    ghost use Rattle.peano_io.specs.Causes.{HasCause, counted};
    ghost use Rattle.peano_io.specs.Reading.{tells_end};
    ghost use Rattle.peano_io.specs.Cut.{cut_left, until_cut, read_faults};

    ghost left = { λ s. Some (cut_left s) };

    ghost faults = { λ s. read_faults s };

    // Its end is never told.
    ghost ended = { λ s. false };

    fn read(&mut self, buf: &mut [u8]) -> Result<usize, ReadFailed>
        requires { 0 < length buf.old }
        ensures bound { ReadsAtMost result buf.new }
        ensures bytes { ReadConsumes (Some (cut_left self.old))
            (Some (cut_left self.new)) result buf.new }
        ensures end { false ≡ tells_end result }
        ensures cause { HasCause (read_faults self.old) (read_faults self.new) result }

        // It fails exactly at the cut, and else fills the buffer as far as there are bytes before the cut.
        ensures fails { IsErr result ↔ (until_cut self.old ≡ 0) }
        ensures filled { IfOk result (λ count. count ≡ min (length buf.old) (until_cut self.old)) }
        ensures until { IfOk result (λ count. until_cut self.new ≡ until_cut self.old - count) }
        ensures failed { OnErr result ((until_cut self.new ≡ 0)
            × (read_faults self.new ≡ counted (read_faults self.old))) }
    {
        if self.until == 0 {
            self.faults = self.faults.saturating_add(1);
            return Err(ReadFailed);
        }
        let most = buf.len().min(self.until as usize);
        let count = self.unread.take_into(&mut buf[..most]);
        self.until -= count as u64;
        Ok(count)
    }
}
