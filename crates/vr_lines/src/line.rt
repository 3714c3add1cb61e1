//! What a line is.

use vr_base::Kind;
use vr_msg::Request;

/// What happens to a group. Replicas are those of the group, and sectors those of a disk.
#[derive(Debug, Drop, PartialEq, Eq)]
pub enum Line {
    /// A group of so many replicas begins, 2 to 6 on files of version 1 and 1 to 6 on files of version 2, each on a new file of this kind.
    Cluster {
        n: u8,
        kind: Kind,
    },
    /// A client asks a replica.
    Request {
        replica: u8,
        request: Request,
    },
    /// The message of this number reaches its destination.
    Deliver(u64),
    /// Time goes by at a replica.
    Tick(u8),
    /// A replica loses its memory.
    Stop(u8),
    /// It is recovered.
    Start(u8),
    /// Its file becomes one of version 2, where it is stopped.
    Migrate(u8),
    /// The call of its disk of this number from now on, 1 to 1,000,000, is cut, by a code.
    Fuse {
        replica: u8,
        call: u32,
        code: u64,
    },
    /// A sector of its disk reads as what it should hold with every bit turned.
    Damage {
        replica: u8,
        sector: u32,
    },
    /// It reads as what it held before its last write.
    Stale {
        replica: u8,
        sector: u32,
    },
    /// It can't be read.
    Unread {
        replica: u8,
        sector: u32,
    },
    /// It reads as what it held before its last write, and another one as what it should hold.
    Misdirect {
        replica: u8,
        sector: u32,
        other: u32,
    },
}
