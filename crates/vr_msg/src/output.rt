//! What a replica puts out.

use crate::{Message, Reply};
use vr_base::Seq;
use vr_header::{Entry, Part};

/// A message on its way between replicas.
#[derive(Drop, PartialEq, Eq)]
pub struct Sent {
    pub from: u8,
    pub to: u8,
    pub message: Message,
}

/// A replica applied an entry.
#[derive(Drop, PartialEq, Eq)]
pub struct Committed {
    pub replica: u8,
    pub entry: Entry,
}

/// A new primary chose the log of its view.
#[derive(Drop, PartialEq, Eq)]
pub struct Chosen {
    pub replica: u8,
    pub view: u32,
    /// The greatest log view, and the greatest commit number, of the statements.
    pub log_view: u32,
    pub commit: u64,
    /// Where the log ends.
    pub head: u64,
    /// The replica's own Parts before, from the op after its own commit number on.
    pub own: Seq<Part>,
}

/// A new primary can't choose a log yet, for what it doesn't know of `op`.
#[derive(Clone, Copy, PartialEq, Eq)]
pub struct Waiting {
    pub replica: u8,
    pub view: u32,
    pub op: u64,
}

/// A replica recovered with these numbers.
#[derive(Clone, Copy, PartialEq, Eq)]
pub struct Started {
    pub replica: u8,
    pub view: u32,
    pub log_view: u32,
    pub commit: u64,
}

/// One output of a replica, or the world's answer to a fault.
#[derive(Drop, PartialEq, Eq)]
pub enum Output {
    Send(Sent),
    Commit(Committed),
    /// A reply to a client; its sender is the replica.
    Reply(Reply),
    Choose(Chosen),
    Wait(Waiting),
    Start(Started),
    /// The replica of this number stopped in the middle of a step.
    Halted(u8),
    /// The file of the replica of this number became one of version 2.
    Migrated(u8),
    /// A fault was put into a disk.
    Done,
    /// A fault was kept out of a disk.
    KeptOut,
}

/// The outputs of a step, in order.
pub type Outbox = Seq<Output>;
