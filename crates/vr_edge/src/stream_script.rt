//! What comes over streams in memory, and what fails on them.
ghost use Rattle.std.specs.Prelude.{◌≡◌, ◌≤◌, [], IfOk};

use crate::calls::is_listed;
use crate::{Piece, StreamFailed};
use std::alloc::Global;

/// What a poll finds.
#[derive(Drop, PartialEq, Eq)]
pub enum Coming {
    Nothing,
    Fault,
    /// Bytes, of which as much comes as a poll's buffer takes; the rest is lost.
    Piece(Piece),
    /// The end of the stream at this port.
    End(u32),
}

/// What comes over streams in memory and what fails on them, by the numbers of the calls of each kind, from 0.
#[derive(Drop)]
pub struct StreamScript {
    /// What each poll finds, nothing past the list. What comes at a port up to its next end is one connection.
    pub comes: Vec<Coming>,
    pub failing_attaches: Vec<u64>,
    pub failing_writes: Vec<u64>,
    /// The writes that take a byte less than they are given.
    pub short_writes: Vec<u64>,
    pub failing_closes: Vec<u64>,
}

impl StreamScript {
    ghost use Rattle.vr_edge.specs.StreamScripts.{write_takes};

    /// Nothing comes, and nothing fails.
    pub fn quiet(alloc: Global) -> StreamScript
        ensures comes { result.comes.items ≡ [] }
        ensures attaches { result.failing_attaches.items ≡ [] }
        ensures writes { result.failing_writes.items ≡ [] }
        ensures short { result.short_writes.items ≡ [] }
        ensures closes { result.failing_closes.items ≡ [] }
    {
        StreamScript {
            comes: Vec::new(alloc),
            failing_attaches: Vec::new(alloc),
            failing_writes: Vec::new(alloc),
            short_writes: Vec::new(alloc),
            failing_closes: Vec::new(alloc),
        }
    }
    /// How much the write with this number takes of so many bytes.
    pub fn take(&self, number: u64, count: usize) -> Result<usize, StreamFailed>
        ensures takes { result ≡ write_takes self.now number count }
        ensures bound { IfOk result (λ taken. taken ≤ count) }
    {
        if is_listed(&self.failing_writes, number) {
            return Err(StreamFailed);
        }
        if is_listed(&self.short_writes, number) {
            return Ok(count.saturating_sub(1));
        }
        Ok(count)
    }
}
