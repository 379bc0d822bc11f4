//! A sink in memory that is cut off.
ghost use Rattle.std.specs.Prelude.{◌≡◌, ◌^◌, ◌-◌, []};
ghost use Rattle.peano_io.specs.Memory.{sink_piece, sink_calls};

use crate::memory_sink::MemSink;
use crate::sink::{Sink, WriteFailed};
use std::alloc::{AllocError, Global};

/// A sink in memory that takes each piece as far as it can: once so many bytes were taken, every write fails.
#[derive(Drop)]
pub struct CutSink {
    sink: MemSink,
    ghost any_length: { sink_piece sink ≡ 2 ^ 64 - 1 },
    ghost never_else: { (sink_calls sink).failing.items ≡ [] },
}

impl CutSink {
    ghost use Rattle.std.specs.Prelude.{◌≡◌, ◌≤◌, ◌^◌, [], IfOk};
    ghost use Rattle.peano_io.specs.Cut.{cut_bytes, cut_room, write_faults};

    /// A sink that takes `cut` bytes. The memory for them is taken here, and no write takes any.
    pub fn new(alloc: Global, cut: u64) -> Result<CutSink, AllocError>
        requires { cut ≤ 2 ^ 30 }
        ensures bytes { IfOk result (λ s. cut_bytes s ≡ []) }
        ensures room { IfOk result (λ s. cut_room s ≡ cut) }
        ensures faults { IfOk result (λ s. write_faults s ≡ 0) }
    {
        let sink = MemSink::new(alloc, cut, u64::MAX, Vec::new(alloc))?;
        Ok(CutSink { sink })
    }

    /// The bytes that were taken.
    pub fn bytes(&self) -> &[u8]
        ensures { result.now ≡ cut_bytes self.now }
    {
        self.sink.bytes()
    }
}

impl Sink for CutSink {
    ghost use Rattle.std.specs.Prelude.{◌≡◌, ◌↔◌, ◌≤◌, ◌<◌, ◌-◌, min, length, Some, IsErr, IfOk, OnErr};
    ghost use Rattle.std.specs.Io.KnownBytes.{WriteAppends};
    ghost use Rattle.peano_io.specs.Causes.{HasCause, counted};
    ghost use Rattle.peano_io.specs.Writing.{TakesSome};
    ghost use Rattle.peano_io.specs.Cut.{cut_bytes, cut_room, write_faults};

    ghost taken = { λ s. Some (cut_bytes s) };

    ghost faults = { λ s. write_faults s };

    fn write(&mut self, piece: &[u8]) -> Result<usize, WriteFailed>
        requires { 0 < length piece.now }
        ensures count { TakesSome result piece.now }
        ensures bytes { WriteAppends (Some (cut_bytes self.old))
            (Some (cut_bytes self.new)) result piece.now }
        ensures cause { HasCause (write_faults self.old) (write_faults self.new) result }

        // It fails exactly where all was taken, and else takes as much as it can.
        ensures fails { IsErr result ↔ (cut_room self.old ≤ length (cut_bytes self.old)) }
        ensures takes { IfOk result
            (λ count. count
            ≡ min (length piece.now) (cut_room self.old - length (cut_bytes self.old))) }
        ensures failed { OnErr result (write_faults self.new ≡ counted (write_faults self.old)) }
        ensures room { cut_room self.new ≡ cut_room self.old }
    {
        self.sink.write(piece)
    }
}
