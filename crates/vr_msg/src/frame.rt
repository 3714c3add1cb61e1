//! The kinds of messages, and what each carries.

use crate::{Reply, Request, Statement, SvBody};
use vr_base::{ByteList, Sum, Version};
use vr_header::Entry;

/// An entry goes out from the primary of `view`.
#[derive(Drop, PartialEq, Eq)]
pub struct Prepare {
    pub version: Version,
    pub replica: u8,
    pub view: u32,
    pub commit: u64,
    /// The frame's group and op are the entry's, whose version is no later than the frame's.
    pub entry: Entry,
}

impl Prepare {
    ghost use Rattle.std.specs.Prelude.{◌≡◌, true};

    /// Whether both are one.
    #[tactic(auto, using(crate::proofs::Same::prepare_is))]
    pub fn is(&self, other: &Prepare) -> bool
        ensures { result ≡ true → self.now ≡ other.now }
    {
        self == other
    }
}

/// The entry of this op and name is stored.
#[derive(Clone, Copy, PartialEq, Eq)]
pub struct PrepareOk {
    pub version: Version,
    pub cluster: u64,
    pub replica: u8,
    pub view: u32,
    pub op: u64,
    /// The entry's name.
    pub name: Sum,
    /// The view in which the entry was made.
    pub made: u32,
}

/// The primary's head and commit number.
#[derive(Clone, Copy, PartialEq, Eq)]
pub struct Commit {
    pub version: Version,
    pub cluster: u64,
    pub replica: u8,
    pub view: u32,
    pub head: u64,
    pub commit: u64,
}

/// The sender has entered `view`.
#[derive(Clone, Copy, PartialEq, Eq)]
pub struct StartViewChange {
    pub version: Version,
    pub cluster: u64,
    pub replica: u8,
    pub view: u32,
}

/// The sender's statement for the choice of the log of `view`.
#[derive(Drop, PartialEq, Eq)]
pub struct DoViewChange {
    pub version: Version,
    pub cluster: u64,
    pub replica: u8,
    pub view: u32,
    pub statement: Statement,
}

/// The log of `view`, up to `head`.
#[derive(Drop, PartialEq, Eq)]
pub struct StartView {
    pub version: Version,
    pub cluster: u64,
    pub replica: u8,
    pub view: u32,
    pub head: u64,
    pub commit: u64,
    pub body: SvBody,
}

/// Asks for the log of `view`.
#[derive(Clone, Copy, PartialEq, Eq)]
pub struct GetView {
    pub version: Version,
    pub cluster: u64,
    pub replica: u8,
    pub view: u32,
}

/// Asks for the entry of this op and name.
#[derive(Clone, Copy, PartialEq, Eq)]
pub struct GetPrepare {
    pub version: Version,
    pub cluster: u64,
    pub replica: u8,
    pub op: u64,
    /// The entry's name.
    pub name: Sum,
    /// The view in which the entry was made.
    pub made: u32,
}

/// An entry that was asked for.
#[derive(Drop, PartialEq, Eq)]
pub struct GivePrepare {
    pub version: Version,
    pub replica: u8,
    /// The frame's group and op are the entry's, whose version is no later than the frame's.
    pub entry: Entry,
}

/// Asks for the block of this address and name.
#[derive(Clone, Copy, PartialEq, Eq)]
pub struct GetBlock {
    pub version: Version,
    pub cluster: u64,
    pub replica: u8,
    pub address: u64,
    /// The block's name.
    pub name: Sum,
}

/// A block that was asked for.
#[derive(Drop, PartialEq, Eq)]
pub struct GiveBlock {
    pub version: Version,
    pub cluster: u64,
    pub replica: u8,
    pub address: u64,
    /// 4,096 bytes.
    pub block: ByteList,
}

/// Asks for the checkpoint and the log of `view`.
#[derive(Clone, Copy, PartialEq, Eq)]
pub struct GetSync {
    pub version: Version,
    pub cluster: u64,
    pub replica: u8,
    pub view: u32,
}

/// The checkpoint of the primary of `view`, and its log from below the checkpoint up to `head`.
#[derive(Drop, PartialEq, Eq)]
pub struct SyncView {
    pub version: Version,
    pub cluster: u64,
    pub replica: u8,
    pub view: u32,
    pub head: u64,
    pub commit: u64,
    /// The checkpoint's op, above the op below the first header.
    pub checkpoint: u64,
    /// Where the checkpoint's root stands in the grid, below 128.
    pub root_address: u64,
    /// The root's name.
    pub root_name: Sum,
    pub body: SvBody,
}

/// What a message says, by its kind.
#[derive(Drop, PartialEq, Eq)]
pub enum Frame {
    Request(Request),
    Reply(Reply),
    Prepare(Prepare),
    PrepareOk(PrepareOk),
    Commit(Commit),
    StartViewChange(StartViewChange),
    DoViewChange(DoViewChange),
    StartView(StartView),
    GetView(GetView),
    GetPrepare(GetPrepare),
    GivePrepare(GivePrepare),
    GetBlock(GetBlock),
    GiveBlock(GiveBlock),
    GetSync(GetSync),
    SyncView(SyncView),
}

impl Frame {
    ghost use Rattle.std.specs.Prelude.{◌≡◌};
    ghost use Rattle.vr_msg.specs.Spelling.{version_of};

    /// Its version.
    pub fn version(&self) -> Version
        ensures { result ≡ version_of self.now }
    {
        match self {
            Frame::Request(q) => q.fields().version,
            Frame::Reply(r) => r.fields().version,
            Frame::Prepare(p) => p.version,
            Frame::PrepareOk(p) => p.version,
            Frame::Commit(c) => c.version,
            Frame::StartViewChange(s) => s.version,
            Frame::DoViewChange(d) => d.version,
            Frame::StartView(v) => v.version,
            Frame::GetView(g) => g.version,
            Frame::GetPrepare(g) => g.version,
            Frame::GivePrepare(g) => g.version,
            Frame::GetBlock(g) => g.version,
            Frame::GiveBlock(g) => g.version,
            Frame::GetSync(g) => g.version,
            Frame::SyncView(v) => v.version,
        }
    }
}
