//! What is done to a member.

use vr_lie::Fault;
use vr_msg::{Event, RequestFields};

/// What is done to a member.
#[derive(Clone, Copy)]
pub enum Deed<'a> {
    /// An event reaches it. Where it is stopped, nothing happens.
    Handle(&'a Event),
    /// A client asks it, in the version of its file, where the request isn't of a later one. Where it is stopped, nothing happens.
    Ask(&'a RequestFields),
    /// It loses its memory.
    Stop,
    /// It is recovered. Where it runs, or its superblock doesn't open, nothing happens.
    Start,
    /// Its file becomes one of version 2. Where it runs, or its file is of that version already, or its superblock doesn't open, nothing happens.
    Migrate,
    /// The call of its disk of this number from now on is cut by a code.
    Fuse { call: u64, code: u64 },
    /// Its disk begins to lie, unless the fault is kept out.
    Lie(Fault),
}
