//! What a checkpoint has in its blocks.
ghost use Rattle.std.specs.Prelude.{◌≡◌};
ghost use Rattle.vr_ckpt.specs.Places.{empty};

use crate::Name;
use std::alloc::Global;
use vr_base::{ByteList, Seq};

/// A part of a text, of at most 3,968 bytes, and the block that has it.
#[derive(Debug, Drop, PartialEq, Eq)]
pub struct Payload {
    pub name: Name,
    pub bytes: ByteList,
}

/// The payloads of a checkpoint's texts, in order.
#[derive(Debug, Drop, PartialEq, Eq)]
pub struct PayloadTable {
    /// At most 49.
    pub sessions: Seq<Payload>,
    /// At most 99.
    pub keys: Seq<Payload>,
}

impl PayloadTable {
    /// The table of no checkpoint; it takes no memory.
    pub fn new(alloc: Global) -> PayloadTable
        ensures { result ≡ empty }
    {
        PayloadTable {
            sessions: Seq::new(alloc),
            keys: Seq::new(alloc),
        }
    }
}
