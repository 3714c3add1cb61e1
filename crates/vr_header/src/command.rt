//! What a header is for.

/// What a header is for: a record of the disk, an entry of the log, or a kind of message.
#[derive(Clone, Copy, Debug, PartialEq, Eq)]
pub enum Command {
    /// Of the disk: an empty place of the header ring.
    Reserved,
    /// What op 1 stands on; it is never stored.
    Root,
    /// An entry of the log.
    Entry,
    Request,
    Reply,
    Prepare,
    PrepareOk,
    Commit,
    StartViewChange,
    DoViewChange,
    StartView,
    GetView,
    GetPrepare,
    GivePrepare,
    GetBlock,
    GiveBlock,
    /// Of the disk: a block of a checkpoint.
    Block,
    GetSync,
    SyncView,
}
