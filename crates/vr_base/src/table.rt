//! A group of replicas: who is in it, and how many of its members decide.

/// One member of a group.
#[derive(Clone, Copy, Debug, PartialEq, Eq)]
pub struct Config {
    /// The number of the group.
    pub cluster: u64,
    /// The number of the member, below `n`.
    pub replica: u8,
    /// How many members the group has, from 2 to 6, and from 1 where the files have version 2.
    pub n: u8,
}

/// How many members of a group decide.
#[derive(Clone, Copy, Debug, PartialEq, Eq)]
pub struct Quorums {
    /// So many hold an operation before it counts as committed.
    pub replication: u8,
    /// So many say what they hold before a new primary chooses a log.
    pub view_change: u8,
    /// So many say that they never accepted an operation before it may be dropped.
    pub nack: u8,
}
