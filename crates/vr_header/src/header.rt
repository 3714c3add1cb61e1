//! The header of 128 bytes that stands before each body.

use crate::codec::{name_of_rest, written};
use crate::{Command, HEADER_SIZE, LAST_OP, Operation, Size};
use vr_base::{Seq, Sum, Version, checksum};

/// The header of an entry, of a message, or of a record of the disk. A field that its command has no
/// use for is zero.
#[derive(Clone, Copy, Debug, PartialEq, Eq)]
pub struct Header {
    /// The name of the body.
    pub body: Sum,
    /// The name of what comes before: of an entry's header, or of what is asked for.
    pub parent: Sum,
    /// The name of the request's header.
    pub request_name: Sum,
    /// The number of the group.
    pub cluster: u64,
    /// The number of the client.
    pub client: u64,
    /// The number of the client's request.
    pub request: u32,
    pub view: u32,
    pub op: u64,
    pub commit: u64,
    /// How many bytes header and body have.
    pub size: Size,
    pub command: Command,
    /// The number of the sender.
    pub replica: u8,
    /// Of the frame, or of the entry.
    pub version: Version,
    /// Which kind of reply, or of block.
    pub kind: u8,
    /// One number more, by command.
    pub aux: u64,
}

/// Headers in order.
pub type HeaderList = Seq<Header>;

/// Why bytes spell no header: the first of these that applies.
#[derive(Clone, Copy, Debug, PartialEq, Eq)]
pub enum HeaderFault {
    /// Fewer than 128 bytes.
    Short,
    /// Bytes 16 to 127 don't have the name that the first 16 bytes give.
    BadSum,
    /// No command has this number.
    BadCommand,
    /// The version is neither 1 nor 2.
    BadVersion,
    /// The size is below 128 or above 20,480.
    BadSize,
    /// Bytes 120 to 127 aren't zero.
    NotZero,
}

impl Header {
    ghost use Rattle.std.specs.Prelude.{◌≡◌, ◌+◌, ◌↔◌, IsTrue, length};
    ghost use Rattle.vr_base.specs.Bytes.{name_of};
    ghost use Rattle.vr_header.specs.Bodies.{operation_bytes};
    ghost use Rattle.vr_header.specs.declared.operation.Operation.{Operation};
    ghost use Rattle.vr_header.specs.Made.{IsEntryHeader, is_bare, is_entry_header};
    ghost use Rattle.vr_header.specs.Names.{header_name, request_header, root_header};
    ghost use Rattle.vr_header.specs.Same.{same_header};

    /// What op 1 of a group stands on.
    pub fn root(cluster: u64) -> Header
        ensures { result ≡ root_header cluster }
    {
        Header::over(checksum(&[]), cluster)
    }

    // The root's header with this body: all else is as there.
    fn over(body: Sum, cluster: u64) -> Header
        ensures { result ≡ record (root_header cluster) { body = body } }
    {
        Header {
            body,
            parent: Sum([0; 16]),
            request_name: Sum([0; 16]),
            cluster,
            client: 0,
            request: 0,
            view: 0,
            op: 0,
            commit: 0,
            size: Size::new(HEADER_SIZE as u32),
            command: Command::Root,
            replica: 0,
            version: Version::new(1),
            kind: 0,
            aux: 0,
        }
    }

    /// The header of a client's request in a frame of this version, with the request's number.
    pub fn of_request(
        version: Version,
        cluster: u64,
        client: u64,
        request: u32,
        operation: &Operation,
    ) -> Header
        ensures { result ≡ request_header version cluster client request operation.now }
    {
        Header {
            version,
            client,
            request,
            size: operation.size(),
            command: Command::Request,
            ..Header::over(operation.body_name(), cluster)
        }
    }

    /// The header of a client's request whose operation has this name, and this size with a header.
    pub fn of_named(
        version: Version,
        cluster: u64,
        client: u64,
        request: u32,
        size: Size,
        body: Sum,
    ) -> Header
        ensures { (o : Operation) → body.0 ≡ name_of (operation_bytes o) → size ≡ 128 + length (operation_bytes o) → result ≡ request_header version cluster client request o }
    {
        Header {
            version,
            client,
            request,
            size,
            command: Command::Request,
            ..Header::over(body, cluster)
        }
    }

    /// The name of this header: of its bytes 16 to 127.
    pub fn name(&self) -> Sum
        ensures { result ≡ header_name self.now }
    {
        name_of_rest(&written(*self))
    }

    /// Whether the two headers are one.
    #[tactic(auto, unfolding(crate::specs::Same::same_header))]
    pub fn is(&self, other: &Header) -> bool
        ensures { result ≡ same_header self.now other.now }
    {
        self == other
    }

    /// Whether an entry may have this header.
    pub fn is_entry(&self) -> bool
        ensures value { result ≡ is_entry_header self.now }
        ensures meaning { IsTrue result ↔ IsEntryHeader self.now }
    {
        self.command == Command::Entry
            && HEADER_SIZE < self.size.get() as usize
            && self.size.get() as usize <= HEADER_SIZE + self.version.body_limit() as usize
            && self.view < u32::MAX
            && 1 <= self.op
            && self.op <= LAST_OP
            && self.is_bare()
    }

    // Whether the fields that an entry has no use for are zero.
    fn is_bare(&self) -> bool
        ensures { result ≡ is_bare self.now }
    {
        self.commit == 0 && self.replica == 0 && self.kind == 0 && self.aux == 0
    }
}
