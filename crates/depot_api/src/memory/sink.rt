//! A sink in memory.
ghost use Rattle.std.specs.Prelude.{◌≡◌, ◌≤◌, ◌+◌, ◌-◌, ◌↔◌, ◌||◌, [], length, min, vec_len, IfOk, IsErr, IsTrue, is_err};
ghost use Rattle.std.specs.Vec.{vec_capacity};
ghost use Rattle.std.specs.Io.KnownBytes.{WriteAppends};
ghost use Rattle.reg_names.specs.Cause.{HasCause};
ghost use Rattle.depot_api.specs.Calls.{no_calls, fails, with_call};
ghost use Rattle.depot_api.specs.Memory.{is_full};
ghost use Rattle.depot_api.specs.Streams.{TakesSome};

use crate::memory::calls::Calls;
use crate::{NoMemory, Sink, SinkFault};
use std::alloc::Global;

/// Room in memory that bytes are written to. Every write has a number, from 0.
#[derive(Drop)]
pub struct MemSink {
    taken: Vec<u8>,
    room: usize,
    calls: Calls,
    ghost reserved: { vec_len taken + room ≤ vec_capacity taken },
}

impl MemSink {
    ghost use Rattle.depot_api.specs.MemSink.{sink_taken, sink_room, sink_calls};

    /// A sink with room for so many bytes, for all of which it takes the memory at once. The writes whose
    /// numbers stand in `fail` fail.
    pub fn new(alloc: Global, room: usize, fail: Vec<u64>) -> Result<MemSink, NoMemory>
        ensures taken { IfOk result (λ s. sink_taken s ≡ []) }
        ensures room { IfOk result (λ s. sink_room s ≡ room) }
        ensures calls { IfOk result (λ s. sink_calls s ≡ no_calls fail.items) }
    {
        Ok(MemSink {
            taken: Vec::with_capacity(alloc, room)?,
            room,
            calls: Calls::new(fail),
        })
    }

    /// The bytes that it has taken.
    pub fn written(&self) -> &[u8]
        ensures { result.now ≡ sink_taken self.now }
    {
        &self.taken
    }

    /// How often it has failed.
    pub fn faults(&self) -> u64
        ensures { result ≡ (sink_calls self.now).faults }
    {
        self.calls.faults()
    }
}

impl Sink for MemSink {
    ghost use Rattle.depot_api.specs.MemSink.{sink_taken, sink_room, sink_calls, sink_faults, sink_told, taken_by};

    ghost taken = { sink_told };

    ghost faults = { sink_faults };

    fn write(&mut self, piece: &[u8]) -> Result<usize, SinkFault>
        // Which writes fail, and that each is counted.
        ensures failed { IsErr result
            ↔ IsTrue (fails (sink_calls self.old) || is_full (sink_room self.old) piece.now) }
        ensures calls { sink_calls self.new ≡ with_call (sink_calls self.old) (is_err result) }
        ensures cause { HasCause (sink_faults self.old) (sink_faults self.new) (IsErr result) }

        // How many bytes it takes, and that these are those in front.
        ensures length { IfOk result (λ n. n ≡ min (length piece.now) (sink_room self.old)) }
        ensures room { sink_room self.new ≡ sink_room self.old - taken_by result }
        ensures bytes { WriteAppends (sink_told self.old) (sink_told self.new) result piece.now }
        ensures count { TakesSome piece.now result }
    {
        let full = self.room == 0 && !piece.is_empty();
        let failed = self.calls.fails() || full;
        self.calls.count(failed);
        if failed {
            return Err(SinkFault);
        }
        let length = piece.len().min(self.room);
        let Ok(()) = self.taken.extend_from_slice(&piece[..length]) else {
            unreachable!()
        };
        self.room -= length;
        Ok(length)
    }
}
