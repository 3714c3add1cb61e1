//! What replicas tell each other of their logs.

use vr_base::Seq;
use vr_header::{HeaderList, Part};

/// What a replica knows of the ops from `first` on, a Part for each; of later ones it knows nothing.
#[derive(Drop, PartialEq, Eq)]
pub struct DvcBody {
    /// Where the run of known headers begins that ends at the sender's head and has at most 64.
    pub first: u64,
    /// At most 128 Parts, the last of which isn't Nothing.
    pub parts: Seq<Part>,
}

/// The headers of the ops after `lo`, in order.
#[derive(Drop, PartialEq, Eq)]
pub struct SvBody {
    pub lo: u64,
    /// At most 64 headers of entries.
    pub headers: HeaderList,
}

/// What a replica states of its log for the choice of a new one.
#[derive(Drop, PartialEq, Eq)]
pub struct Statement {
    /// The last view in which the replica had its log from the primary.
    pub log_view: u32,
    /// The greatest op that it knows to be committed.
    pub commit: u64,
    /// The greatest op up to which it knows every header.
    pub head: u64,
    pub body: DvcBody,
}
