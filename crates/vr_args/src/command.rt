//! What a command line asks for.
use vr_base::{Config, Kind, Version};

/// Why words are no command.
#[derive(Clone, Copy, Debug, PartialEq, Eq)]
pub enum WordsFault {
    /// They aren't one of the forms, or a number or a count is out of its range.
    Usage,
    NoMemory,
}

/// `soak SEED COUNT`.
#[derive(Clone, Copy, Debug, PartialEq, Eq)]
pub struct SoakWords {
    pub seed: u64,
    /// At most 999,999.
    pub count: u32,
}

/// `node CLUSTER REPLICA FILE TURNS ADDR..`, with `--fresh` or not; with it, each of `--careful` and `--v2` may stand there.
#[derive(Debug, Drop, PartialEq, Eq)]
pub struct NodeWords {
    pub cluster: u64,
    /// Below the number of peers.
    pub replica: u8,
    pub file: String,
    pub turns: u64,
    /// From 2 to 6 addresses; one alone where a file of version 2 is made, or where the file is found again.
    pub peers: Vec<String>,
    /// What its file is made as; none where it is found again.
    pub fresh: Option<Kind>,
}

/// `client CLUSTER ID TURNS ADDR..`, with `--v2` or not.
#[derive(Debug, Drop, PartialEq, Eq)]
pub struct ClientWords {
    /// 2 with `--v2`.
    pub version: Version,
    pub cluster: u64,
    /// Not 0.
    pub id: u64,
    pub turns: u64,
    /// From 2 to 6 addresses, and from 1 of version 2.
    pub peers: Vec<String>,
}

/// `trial CLUSTER TURNS FILES ADDR..`.
#[derive(Debug, Drop, PartialEq, Eq)]
pub struct TrialWords {
    pub cluster: u64,
    pub turns: u64,
    /// What the names of the members' files begin with.
    pub files: String,
    /// From 2 to 6 addresses.
    pub peers: Vec<String>,
}

/// `migrate CLUSTER REPLICA N FILE`.
#[derive(Debug, Drop, PartialEq, Eq)]
pub struct MigrateWords {
    /// The number in it is below its size, which is from 1 to 6.
    pub config: Config,
    pub file: String,
}

/// A command.
#[derive(Debug, Drop, PartialEq, Eq)]
pub enum Command {
    Replay,
    Soak(SoakWords),
    Node(NodeWords),
    Client(ClientWords),
    Trial(TrialWords),
    Migrate(MigrateWords),
}
