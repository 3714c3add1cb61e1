//! How a run ends.
ghost use Rattle.std.specs.Prelude.{◌≡◌, IfOk, string_bytes};
ghost use Rattle.vr_base.specs.Texts.{code_of, status_text};

use crate::Config;
use crate::member::MemberText;
use std::alloc::{AllocError, Global};
use std::fmt;

/// How a run of a command ends. Each has a code and a text.
#[derive(Clone, Copy, Debug, PartialEq, Eq)]
pub enum Status {
    /// The defined end.
    Done,
    /// The words are no command line.
    Usage,
    /// The line with this number is none.
    Refused(u32),
    /// The group no longer knows the client's session.
    SessionLost,
    /// A read from the source failed.
    ReadFault,
    /// A write to the sink failed.
    WriteFault,
    /// The disk's attach, a write or a sync failed.
    DiskFault,
    /// The link's attach or a receive failed.
    LinkFault,
    /// No two good copies of the superblock agree.
    SuperLost,
    /// The disk is that of the first of these members, and the second was asked for.
    OtherMember(Config, Config),
    NoMemory,
    /// A member that was to be made anew has a superblock.
    Occupied,
    /// No answer came in the turns of an ask.
    NoAnswer,
    /// A program couldn't be started or ended.
    SpawnFault,
}

/// The exit status of the program.
pub fn code(status: &Status) -> u8
    ensures { result ≡ code_of status.now }
{
    match status {
        Status::Done => 0,
        Status::Usage => 2,
        Status::Refused(_) => 3,
        Status::SessionLost => 4,
        Status::ReadFault => 5,
        Status::WriteFault => 6,
        Status::DiskFault => 7,
        Status::LinkFault => 8,
        Status::SuperLost => 9,
        Status::OtherMember(_, _) => 10,
        Status::NoMemory => 11,
        Status::Occupied => 12,
        Status::NoAnswer => 13,
        Status::SpawnFault => 14,
    }
}

impl fmt::Display for Status {
    ghost use Rattle.std.specs.Prelude.{Some};
    ghost use Rattle.vr_base.specs.Texts.{status_text};

    ghost output = { λ s. Some (status_text s) };

    fn fmt<W: fmt::Write>(&self, f: &mut fmt::Formatter<W>) -> fmt::Result {
        match self {
            Status::Done => Ok(()),
            Status::Usage => write!(f, "usage"),
            Status::Refused(line) => write!(f, "refused: line {line}"),
            Status::SessionLost => write!(f, "session lost"),
            Status::ReadFault => write!(f, "read fault"),
            Status::WriteFault => write!(f, "write fault"),
            Status::DiskFault => write!(f, "disk fault"),
            Status::LinkFault => write!(f, "link fault"),
            Status::SuperLost => write!(f, "superblock lost"),
            Status::OtherMember(found, asked) => {
                let found = MemberText { config: *found };
                let asked = MemberText { config: *asked };
                write!(f, "other member: found {found} asked {asked}")
            }
            Status::NoMemory => write!(f, "no memory"),
            Status::Occupied => write!(f, "occupied"),
            Status::NoAnswer => write!(f, "no answer"),
            Status::SpawnFault => write!(f, "spawn fault"),
        }
    }
}

/// What the program writes on standard error.
pub fn status_line(alloc: Global, status: &Status) -> Result<String, AllocError>
    ensures { IfOk result (λ t. string_bytes t ≡ status_text status.now) }
{
    status.to_string(alloc)
}
