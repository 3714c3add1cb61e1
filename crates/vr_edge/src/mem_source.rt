//! A source in memory.
ghost use Rattle.std.specs.Prelude.{◌≡◌, ◌≤◌, ◌<◌, [], Some, IfOk, drop, false, length, min, true, if◌then◌else◌};
ghost use Rattle.std.specs.Io.{ReadsAtMost};
ghost use Rattle.std.specs.Io.KnownBytes.{ReadConsumes};
ghost use Rattle.vr_base.specs.Causes.{HasCause, one_more};
ghost use Rattle.vr_edge.specs.Told.{ZeroAtEnd};

use crate::calls::is_listed;
use crate::{ReadFailed, Source};
use std::alloc::Global;

/// A source in memory, which gives as much as it has and the buffer takes, or that in pieces of growing size, but for the calls that fail.
#[derive(Drop)]
pub struct MemSource {
    bytes: Vec<u8>,
    at: usize,
    /// The read of number `i`, from 0, gives `i + 1` bytes at most.
    in_pieces: bool,
    calls: u64,
    failing: Vec<u64>,
    faults: u64,
    ghost within: { at ≤ length bytes.items },
}

impl MemSource {
    /// A source of these bytes. The reads with the numbers in `failing`, counted from 0, fail.
    pub fn new(bytes: Vec<u8>, failing: Vec<u64>) -> MemSource
        ensures left { ⟦<MemSource as Source>⟧.left result ≡ Some bytes.items }
        ensures failing { result.failing.items ≡ failing.items }
        ensures calls { result.calls ≡ 0 }
        ensures faults { result.faults ≡ 0 }
        ensures in_pieces { result.in_pieces ≡ false }
    {
        MemSource {
            bytes,
            at: 0,
            in_pieces: false,
            calls: 0,
            failing,
            faults: 0,
        }
    }

    /// A source of these bytes, which gives at most 1, 2, 3, .. of them in turn.
    pub fn pieces(alloc: Global, bytes: Vec<u8>) -> MemSource
        ensures left { ⟦<MemSource as Source>⟧.left result ≡ Some bytes.items }
        ensures failing { result.failing.items ≡ [] }
        ensures calls { result.calls ≡ 0 }
        ensures faults { result.faults ≡ 0 }
        ensures in_pieces { result.in_pieces ≡ true }
    {
        MemSource {
            bytes,
            at: 0,
            in_pieces: true,
            calls: 0,
            failing: Vec::new(alloc),
            faults: 0,
        }
    }
}

impl MemSource {
    ghost use Rattle.vr_edge.specs.Calls.{source_most};

    /// The most bytes that a read into a buffer of this length gives.
    fn most(&self, call: u64, room: usize) -> usize
        ensures most { result ≡ source_most self.now call room }
        ensures within { result ≤ room }
        ensures some { 0 < room → 0 < result }
    {
        if self.in_pieces {
            room.min(call.saturating_add(1) as usize)
        } else {
            room
        }
    }
}

impl Source for MemSource {
    ghost use Rattle.vr_edge.specs.Calls.{source_fails, source_gives};

    ghost left = { λ s. Some (drop s.at s.bytes.items) };

    ghost faults = { λ s. s.faults };

    fn read(&mut self, to: &mut [u8]) -> Result<usize, ReadFailed>
        ensures bound { ReadsAtMost result to.new }
        ensures bytes { ReadConsumes (⟦<MemSource as Source>⟧.left self.old) (⟦<MemSource as Source>⟧.left self.new) result to.new }
        ensures end { IfOk result (λ count. ZeroAtEnd (⟦<MemSource as Source>⟧.left self.old) (length to.new) count) }
        ensures cause { HasCause self.old.faults self.new.faults result }
        ensures result { result ≡ source_gives self.old (length to.old) }
        ensures calls { self.new.calls ≡ one_more self.old.calls }
        ensures failing { self.new.failing ≡ self.old.failing }
        ensures in_pieces { self.new.in_pieces ≡ self.old.in_pieces }
        ensures faults { self.new.faults ≡ (if source_fails self.old then one_more self.old.faults else self.old.faults) }
    {
        let call = self.calls;
        self.calls = call.saturating_add(1);
        if is_listed(&self.failing, call) {
            self.faults = self.faults.saturating_add(1);
            return Err(ReadFailed);
        }
        let count = self.most(call, to.len()).min(self.bytes.len() - self.at);
        to[..count].copy_from_slice(&self.bytes[self.at..self.at + count]);
        self.at += count;
        Ok(count)
    }
}
