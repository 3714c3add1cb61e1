//! What comes over a link.
ghost use Rattle.std.specs.Prelude.{◌≡◌, ◌≤◌, [], ◌∷◌, IfOk, OnErr, vec_capacity};
ghost use Rattle.vr_edge.specs.Datagrams.{Arrival};
ghost use Rattle.vr_edge.specs.Told.{Grows};
ghost use Rattle.vr_mail.specs.Letters.{Gives, IsOfGroup, Reads, ReceiveCause};
ghost use Rattle.vr_msg.specs.declared.frame.Frame.{Frame};
ghost use Rattle.vr_mail.specs.declared.receiving.ReceiveFault.TheVariants as fault;

use crate::cluster::tells_group;
use std::alloc::{AllocError, Global};
use vr_base::Version;
use vr_codec::{MsgFault, decode};
use vr_edge::{Link, LinkFailed, RECEIVE_ROOM, Received};
use vr_msg::Message;

/// A message that came, and the port of its sender.
#[derive(Drop, PartialEq, Eq)]
pub struct Letter {
    pub port: u32,
    pub message: Message,
}

/// Why nothing could be received.
#[derive(Clone, Copy, Debug, PartialEq, Eq)]
pub enum ReceiveFault {
    /// The link failed.
    Link,
    /// There was no memory for a message that came.
    NoMemory,
}

impl From<LinkFailed> for ReceiveFault {
    ghost from_gives = { λ _ e. e ≡ fault.Link };

    fn from(_failed: LinkFailed) -> ReceiveFault {
        ReceiveFault::Link
    }
}

impl From<AllocError> for ReceiveFault {
    ghost from_gives = { λ _ e. e ≡ fault.NoMemory };

    fn from(_error: AllocError) -> ReceiveFault {
        ReceiveFault::NoMemory
    }
}

/// The message of this version and group that bytes spell. Bytes that tell another version or group aren't decoded.
#[tactic(auto, using(std::proofs::lemmas::Grind::common_steps, crate::proofs::Groups::not_told, crate::proofs::Groups::is_told))]
fn read_message(
    alloc: Global,
    version: Version,
    cluster: u64,
    bytes: &[u8],
) -> Result<Option<Message>, AllocError>
    ensures reads { IfOk result (Reads version cluster bytes.now) }
    ensures wants { OnErr result ((m : Frame) × IsOfGroup version cluster bytes.now m) }
{
    if !tells_group(version, cluster, bytes) {
        return Ok(None);
    }
    match decode(alloc, bytes) {
        Ok(message) => Ok(Some(message)),
        Err(MsgFault::NoMemory) => Err(AllocError),
        Err(_) => Ok(None),
    }
}

/// One receive. Bytes that are no message of this version and group are as if nothing came.
pub fn receive_letter<L: Link>(
    alloc: Global,
    link: &mut L,
    version: Version,
    cluster: u64,
    to: &mut Vec<u8>,
) -> Result<Option<Letter>, ReceiveFault>
    requires { RECEIVE_ROOM ≤ vec_capacity to.old }
    ensures received { (arrival : Arrival) × Grows (L.received link.old) (L.received link.new) (arrival ∷ []) × Gives version cluster arrival result }
    ensures cause { ReceiveCause (L.faults link.old) (L.faults link.new) result }
    ensures sent { L.sent link.new ≡ L.sent link.old }
    ensures others { L.send_faults link.new ≡ L.send_faults link.old }
    ensures room { RECEIVE_ROOM ≤ vec_capacity to.new }
    ensures attached { L.attached link.new ≡ L.attached link.old }
{
    let Received::Datagram(port) = link.receive(to)? else {
        return Ok(None);
    };
    match read_message(alloc, version, cluster, to.as_slice())? {
        Some(message) => Ok(Some(Letter { port, message })),
        None => Ok(None),
    }
}
