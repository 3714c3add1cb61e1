//! From whom a message is taken.
ghost use Rattle.std.specs.Prelude.{◌≡◌};
ghost use Rattle.vr_io_policy.specs.Origins.{MembersAloneSpeak, is_request, is_taken, origin_of};

use crate::guest::HEADER;
use crate::topic::COMMAND_AT;

/// The command of a request.
const REQUEST: u8 = 4;

/// One of a member's two addresses.
#[derive(Clone, Copy, Debug, PartialEq, Eq)]
pub enum Door {
    /// Its own, at which the other members speak to it.
    Own,
    /// The one at which clients alone ask.
    Clients,
}

/// Where a message comes from.
#[derive(Clone, Copy, Debug, PartialEq, Eq)]
pub enum Origin {
    /// From an address of the group's list, at the member's own address.
    Member,
    /// From any other address, at the member's own address.
    Stranger,
    /// From any address, at the one for clients.
    Client,
}

impl Door {
    /// Where what comes here comes from, by whether the sender's address is one of the group's list.
    pub fn origin(self, is_listed: bool) -> Origin
        ensures { result ≡ origin_of self is_listed }
    {
        match self {
            Door::Own if is_listed => Origin::Member,
            Door::Own => Origin::Stranger,
            Door::Clients => Origin::Client,
        }
    }
}

// Whether bytes begin with the header of a request.
fn is_request(bytes: &[u8]) -> bool
    ensures { result ≡ is_request bytes.now }
{
    bytes.len() >= HEADER && bytes[COMMAND_AT] == REQUEST
}

/// Whether a message is taken, by where it comes from: members' messages come from members, and whoever asks sends requests alone.
pub fn is_taken(origin: Origin, bytes: &[u8]) -> bool
    ensures { result ≡ is_taken origin bytes.now }
{
    match origin {
        Origin::Member => true,
        Origin::Stranger | Origin::Client => is_request(bytes),
    }
}

/// What isn't a request is taken from addresses of the group's list alone, at the member's own address; a request from everywhere. It does nothing.
#[tactic(auto, using(crate::proofs::Speaking::members_alone_speak))]
pub fn origin_laws()
    ensures { MembersAloneSpeak }
{}
