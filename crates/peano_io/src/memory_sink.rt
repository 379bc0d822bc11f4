//! A sink in memory with a fixed room, that takes pieces of a bounded length and fails at listed calls.
ghost use Rattle.std.specs.Prelude.{◌≤◌, vec_len, vec_capacity};

use crate::calls::Calls;
use crate::sink::{Sink, WriteFailed};
use std::alloc::{AllocError, Global};

/// A sink in memory. A write takes the least of the piece's length, the sink's `piece` and the room that is left. It
/// fails exactly at the calls whose numbers, from 0, are listed, and where no room is left.
#[derive(Drop)]
pub struct MemSink {
    bytes: Vec<u8>,
    room: u64,
    piece: u64,
    calls: Calls,
    ghost within: { vec_len bytes ≤ room },
    ghost reserved: { room ≤ vec_capacity bytes },
    ghost takes_some: { 1 ≤ piece },
}

impl MemSink {
    ghost use Rattle.std.specs.Prelude.{◌≡◌, ◌≤◌, ◌^◌, [], IfOk};
    ghost use Rattle.peano_io.specs.Memory.{sink_bytes, sink_room, sink_piece, sink_calls};

    /// A sink for `room` bytes, before its call 0. The memory for them is taken here, and no write takes any.
    pub fn new(
        alloc: Global,
        room: u64,
        piece: u64,
        failing: Vec<u64>,
    ) -> Result<MemSink, AllocError>
        requires room { room ≤ 2 ^ 30 }
        requires piece { 1 ≤ piece }
        ensures bytes { IfOk result (λ s. sink_bytes s ≡ []) }
        ensures room { IfOk result (λ s. sink_room s ≡ room) }
        ensures piece { IfOk result (λ s. sink_piece s ≡ piece) }
        ensures failing { IfOk result (λ s. (sink_calls s).failing ≡ failing) }
        ensures next { IfOk result (λ s. (sink_calls s).next ≡ 0) }
        ensures faults { IfOk result (λ s. (sink_calls s).faults ≡ 0) }
    {
        let bytes = Vec::with_capacity(alloc, room as usize)?;
        Ok(MemSink {
            bytes,
            room,
            piece,
            calls: Calls::new(failing),
        })
    }

    /// The bytes that were taken.
    pub fn bytes(&self) -> &[u8]
        ensures { result.now ≡ sink_bytes self.now }
    {
        &self.bytes
    }
}

impl Sink for MemSink {
    ghost use Rattle.std.specs.Prelude.{◌≡◌, ◌↔◌, ◌⊎◌, ◌≤◌, ◌<◌, ◌-◌, min, length, Some, IsErr, IfOk, is_ok};
    ghost use Rattle.std.specs.Io.KnownBytes.{WriteAppends};
    ghost use Rattle.peano_io.specs.Causes.{HasCause};
    ghost use Rattle.peano_io.specs.Writing.{TakesSome};
    ghost use Rattle.peano_io.specs.Memory.{sink_bytes, sink_room, sink_piece, sink_calls, IsListed, after_call};

    ghost taken = { λ s. Some (sink_bytes s) };

    ghost faults = { λ s. (sink_calls s).faults };

    fn write(&mut self, piece: &[u8]) -> Result<usize, WriteFailed>
        requires { 0 < length piece.now }
        ensures count { TakesSome result piece.now }
        ensures bytes { WriteAppends (Some (sink_bytes self.old))
            (Some (sink_bytes self.new)) result piece.now }
        ensures cause { HasCause (sink_calls self.old).faults (sink_calls self.new).faults result }

        // It fails exactly at the listed calls and where no room is left, and else takes as much as it may.
        ensures fails { IsErr result ↔ (IsListed (sink_calls self.old)
            ⊎ (sink_room self.old ≤ length (sink_bytes self.old))) }
        ensures takes { IfOk result (λ count. count ≡ min (length piece.now)
            (min (sink_piece self.old) (sink_room self.old - length (sink_bytes self.old)))) }
        ensures calls { sink_calls self.new ≡ after_call (sink_calls self.old) (is_ok result) }
        ensures room { sink_room self.new ≡ sink_room self.old }
        ensures piece { sink_piece self.new ≡ sink_piece self.old }
    {
        let room = self.room as usize - self.bytes.len();
        if self.calls.begin() || room == 0 {
            self.calls.fail();
            return Err(WriteFailed);
        }
        let count = piece.len().min(self.piece as usize).min(room);
        self.bytes.extend_from_slice(&piece[..count]).unwrap();
        Ok(count)
    }
}
