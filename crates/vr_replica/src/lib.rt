//! A replica of a group: it is made or recovered, and each event is one step, which is the step of the definitions.
//!
//! Whoever runs one in a program of his own finds here what he names: docs/HOSTING.md says what he owes it.
#![tactic(auto)]

pub mod bounds;
mod entries;
mod member;
mod reacting;
mod ticking;

pub use member::Replica;

/// Which group, which member of it, and how many there are; of what kind a new member's file is: strict or not, and of which version.
pub use vr_base::{Config, Kind, Mode, Version};

/// A list as contracts see it, one of bytes, and want of memory.
pub use vr_base::{ByteList, NoMemory, Seq};

/// The disk that a host gives: its calls, its sectors and how many there are, the longest name, and the answer of a call that failed.
pub use vr_disk::{DiskFailed, NAME_MOST, Room, SECTORS, Sector, SectorDisk};

/// The digest of bytes, which a disk may keep with the bytes.
pub use vr_base::{Sum, checksum};

/// What a client may ask.
pub use vr_header::{Key, Operation, Value};

/// Why a step stopped. The replica that took it takes no other.
pub use vr_actions::Halt;

/// What happens to a replica: a client asks, a message arrives, or time goes by.
pub use vr_msg::{Event, Message, Request, RequestFields};

/// What a step puts out, in order: messages to members, replies to clients, and what is told of the rest.
pub use vr_msg::{Outbox, Output, Reply, Sent};

/// Why there is no replica of a disk: of a new one, of one that is the asked member's, and of one that is whatever member's.
pub use vr_opening::{FreshFault, NoValue, Refusal};
