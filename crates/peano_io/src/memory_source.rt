//! Sources in memory: one that fails at listed calls, and one that never fails.
ghost use Rattle.std.specs.Prelude.{◌≤◌, vec_len};

use crate::calls::Calls;
use crate::source::{ReadFailed, Source};

// Bytes that are handed out from the front, and whether their end was told.
#[derive(Drop)]
pub(crate) struct Unread {
    bytes: Vec<u8>,
    at: usize,
    ended: bool,
    ghost within: { at ≤ vec_len bytes },
}

impl Unread {
    ghost use Rattle.std.specs.Prelude.{◌≡◌, ◌++◌, min, take, drop, length, false, nat_eq};
    ghost use Rattle.peano_io.specs.Memory.{unread_bytes};

    pub(crate) fn new(bytes: Vec<u8>) -> Unread
        ensures bytes { unread_bytes result ≡ bytes.items }
        ensures ended { result.ended ≡ false }
    {
        Unread {
            bytes,
            at: 0,
            ended: false,
        }
    }

    pub(crate) fn left(&self) -> &[u8]
        ensures { result.now ≡ unread_bytes self.now }
    {
        &self.bytes[self.at..]
    }

    // Moves as many bytes as `buf` can hold to its front.
    pub(crate) fn take_into(&mut self, buf: &mut [u8]) -> usize
        ensures count { result ≡ min (length buf.old) (length (unread_bytes self.old)) }
        ensures moved { take result buf.new ≡ take result (unread_bytes self.old) }
        ensures rest { unread_bytes self.new ≡ drop result (unread_bytes self.old) }
        ensures ended { self.new.ended ≡ nat_eq result 0 }
    {
        let rest = self.left();
        let count = buf.len().min(rest.len());
        buf[..count].copy_from_slice(&rest[..count]);
        self.at += count;
        self.ended = count == 0;
        count
    }
}

/// A source in memory that fails exactly at the calls whose numbers, from 0, are listed.
#[derive(Drop)]
pub struct MemSource {
    unread: Unread,
    calls: Calls,
}

impl MemSource {
    ghost use Rattle.std.specs.Prelude.{◌≡◌, false};
    ghost use Rattle.peano_io.specs.Memory.{source_left, source_calls, source_ended};

    /// A source of these bytes, before its call 0.
    pub fn new(bytes: Vec<u8>, failing: Vec<u64>) -> MemSource
        ensures left { source_left result ≡ bytes.items }
        ensures failing { (source_calls result).failing ≡ failing }
        ensures next { (source_calls result).next ≡ 0 }
        ensures faults { (source_calls result).faults ≡ 0 }
        ensures ended { source_ended result ≡ false }
    {
        MemSource {
            unread: Unread::new(bytes),
            calls: Calls::new(failing),
        }
    }

    /// The bytes that are left.
    pub fn left(&self) -> &[u8]
        ensures { result.now ≡ source_left self.now }
    {
        self.unread.left()
    }

    /// Whether a read told the end. No read may come after it.
    pub fn has_ended(&self) -> bool
        ensures { result ≡ source_ended self.now }
    {
        self.unread.ended
    }
}

impl Source for MemSource {
    ghost use Rattle.std.specs.Prelude.{◌≡◌, ◌↔◌, ◌<◌, min, length, Some, IsErr, IfOk, is_ok, false};
    ghost use Rattle.std.specs.Io.{ReadsAtMost};
    ghost use Rattle.std.specs.Io.KnownBytes.{ReadConsumes};
    ghost use Rattle.peano_io.specs.Causes.{HasCause};
    ghost use Rattle.peano_io.specs.Reading.{tells_end};
    ghost use Rattle.peano_io.specs.Memory.{source_left, source_calls, source_ended, IsListed, after_call};

    ghost left = { λ s. Some (source_left s) };

    ghost faults = { λ s. (source_calls s).faults };

    ghost ended = { source_ended };

    fn read(&mut self, buf: &mut [u8]) -> Result<usize, ReadFailed>
        requires room { 0 < length buf.old }
        requires before_end { source_ended self.old ≡ false }
        ensures bound { ReadsAtMost result buf.new }
        ensures bytes { ReadConsumes (Some (source_left self.old))
            (Some (source_left self.new)) result buf.new }
        ensures end { source_ended self.new ≡ tells_end result }
        ensures cause { HasCause (source_calls self.old).faults
            (source_calls self.new).faults result }

        // It fails exactly at the listed calls, and else fills the buffer as far as there are bytes.
        ensures listed { IsErr result ↔ IsListed (source_calls self.old) }
        ensures filled { IfOk result
            (λ count. count ≡ min (length buf.old) (length (source_left self.old))) }
        ensures calls { source_calls self.new ≡ after_call (source_calls self.old) (is_ok result) }
    {
        if self.calls.begin() {
            self.calls.fail();
            return Err(ReadFailed);
        }
        Ok(self.unread.take_into(buf))
    }
}

/// A source in memory that never fails.
#[derive(Drop)]
pub struct SureSource {
    unread: Unread,
}

impl SureSource {
    ghost use Rattle.std.specs.Prelude.{◌≡◌, false};
    ghost use Rattle.peano_io.specs.Memory.{sure_left, sure_ended};

    /// A source of these bytes.
    pub fn new(bytes: Vec<u8>) -> SureSource
        ensures left { sure_left result ≡ bytes.items }
        ensures ended { sure_ended result ≡ false }
    {
        SureSource {
            unread: Unread::new(bytes),
        }
    }

    /// The bytes that are left.
    pub fn left(&self) -> &[u8]
        ensures { result.now ≡ sure_left self.now }
    {
        self.unread.left()
    }
}

impl Source for SureSource {
    ghost use Rattle.std.specs.Prelude.{◌≡◌, ◌<◌, min, length, Some, Ok, false};
    ghost use Rattle.std.specs.Io.{ReadsAtMost};
    ghost use Rattle.std.specs.Io.KnownBytes.{ReadConsumes};
    ghost use Rattle.peano_io.specs.Causes.{HasCause};
    ghost use Rattle.peano_io.specs.Reading.{tells_end};
    ghost use Rattle.peano_io.specs.Memory.{sure_left, sure_ended};

    ghost left = { λ s. Some (sure_left s) };

    ghost faults = { λ s. 0 };

    ghost ended = { sure_ended };

    fn read(&mut self, buf: &mut [u8]) -> Result<usize, ReadFailed>
        requires room { 0 < length buf.old }
        requires before_end { sure_ended self.old ≡ false }
        ensures bound { ReadsAtMost result buf.new }
        ensures bytes { ReadConsumes (Some (sure_left self.old))
            (Some (sure_left self.new)) result buf.new }
        ensures end { sure_ended self.new ≡ tells_end result }
        ensures cause { HasCause 0 0 result }
        ensures filled { result ≡ Ok (min (length buf.old) (length (sure_left self.old))) }
    {
        Ok(self.unread.take_into(buf))
    }
}
