//! A sink in memory.
ghost use Rattle.std.specs.Prelude.{◌≡◌, ◌≤◌, [], Some, IfOk, length, vec_len, vec_capacity, if◌then◌else◌};
ghost use Rattle.std.specs.Io.{WritesAtMost};
ghost use Rattle.std.specs.Io.KnownBytes.{WriteAppends};
ghost use Rattle.vr_base.specs.Causes.{one_more};
ghost use Rattle.vr_edge.specs.Counts.{HasWriteCause};

use crate::calls::is_listed;
use crate::{Sink, WriteFailed};
use std::alloc::{AllocError, Global};

/// A sink in memory, which takes as much as it has room for, but for the calls that fail.
#[derive(Drop)]
pub struct MemSink {
    bytes: Vec<u8>,
    room: usize,
    calls: u64,
    failing: Vec<u64>,
    faults: u64,
    ghost within: { vec_len bytes ≤ room },
    ghost made: { room ≤ vec_capacity bytes },
}

impl MemSink {
    /// A sink with room for so many bytes. The writes with the numbers in `failing`, counted from 0, fail, and
    /// each write where no room is left.
    pub fn new(alloc: Global, room: usize, failing: Vec<u64>) -> Result<MemSink, AllocError>
        ensures taken { IfOk result (λ s. ⟦<MemSink as Sink>⟧.taken s ≡ Some []) }
        ensures room { IfOk result (λ s. s.room ≡ room) }
        ensures failing { IfOk result (λ s. s.failing.items ≡ failing.items) }
        ensures calls { IfOk result (λ s. s.calls ≡ 0) }
        ensures faults { IfOk result (λ s. s.faults ≡ 0) }
    {
        Ok(MemSink {
            bytes: Vec::with_capacity(alloc, room)?,
            room,
            calls: 0,
            failing,
            faults: 0,
        })
    }

    /// The bytes that were taken.
    pub fn bytes(&self) -> &[u8]
        ensures { Some result.now ≡ ⟦<MemSink as Sink>⟧.taken self.now }
    {
        &self.bytes
    }
}

impl Sink for MemSink {
    ghost use Rattle.vr_edge.specs.Calls.{sink_fails, sink_takes};

    ghost taken = { λ s. Some s.bytes.items };

    ghost faults = { λ s. s.faults };

    fn write(&mut self, from: &[u8]) -> Result<usize, WriteFailed>
        ensures bound { WritesAtMost result from.now }
        ensures bytes { WriteAppends (⟦<MemSink as Sink>⟧.taken self.old) (⟦<MemSink as Sink>⟧.taken self.new) result from.now }
        ensures cause { HasWriteCause self.old.faults self.new.faults (length from.now) result }
        ensures result { result ≡ sink_takes self.old (length from.now) }
        ensures calls { self.new.calls ≡ one_more self.old.calls }
        ensures failing { self.new.failing ≡ self.old.failing }
        ensures room { self.new.room ≡ self.old.room }
        ensures faults { self.new.faults ≡ (if sink_fails self.old then one_more self.old.faults else self.old.faults) }
    {
        let call = self.calls;
        self.calls = call.saturating_add(1);
        let room = self.room - self.bytes.len();
        if room == 0 || is_listed(&self.failing, call) {
            self.faults = self.faults.saturating_add(1);
            return Err(WriteFailed);
        }
        let count = from.len().min(room);
        self.bytes.extend_from_slice(&from[..count]).unwrap();
        Ok(count)
    }
}
