//! Public functions that only tests call, and tests aren't proved: here each is called once at a concrete type, so that the prover sees its
//! `requires` met.

use std::alloc::{AllocError, Global};
use vr_ckpt::{DATA, Name, write_block};
use vr_disk::Halt;
use vr_edge::{LogRoom, MemStreams, StreamScript};
use vr_mem::MemDisk;
use vr_stream::StreamLink;

/// Writes block 5 of a checkpoint of group 3.
pub fn writes_a_block(alloc: Global, disk: &mut MemDisk) -> Result<Name, Halt> {
    write_block(alloc, disk, 3, 5, 32, DATA, b"payload")
}

/// A link of a group of two over streams in memory.
pub fn links_over_streams(
    alloc: Global,
    script: StreamScript,
    room: LogRoom,
) -> Result<StreamLink<MemStreams>, AllocError> {
    StreamLink::over_new(alloc, 2, MemStreams::new(alloc, 66, script, room)?)
}
