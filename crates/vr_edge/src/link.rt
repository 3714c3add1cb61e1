//! A link over which datagrams go.
ghost use Rattle.std.specs.Prelude.{◌≡◌, List, [], ◌∷◌, ℕ, Option, ◌≤◌, IfOk, vec_capacity};
ghost use Rattle.vr_base.specs.Causes.{HasCause};
ghost use Rattle.vr_edge.specs.Attaching.{attached_by, texts_of};
ghost use Rattle.vr_edge.specs.Told.{Grows, IsNothing};
ghost use Rattle.vr_edge.specs.Datagrams.{Arrival, sent_by, received_by};
ghost use Rattle.vr_edge.specs.declared.attach.Attach.{Attach};
ghost use Rattle.vr_edge.specs.declared.datagram.Datagram.{Datagram};

use thiserror::Error;

/// The room in bytes that the buffer of a receive has: one more than the longest message, so that a datagram
/// that is too long is seen as such.
pub const RECEIVE_ROOM: usize = 20481;

// How long a message may be, the contracts say by it.
const _: () = prove!(RECEIVE_ROOM == 20481);

/// A call of a link that failed.
#[derive(Clone, Copy, Debug, PartialEq, Eq, Error)]
#[error("link failed")]
pub struct LinkFailed;

/// What a receive gave.
#[derive(Clone, Copy, PartialEq, Eq)]
pub enum Received {
    /// A datagram from the sender with this port.
    Datagram(u32),
    /// Nothing was waiting.
    Quiet,
    /// Something came that ends no datagram: bytes of a stream that are short of a message, or its end.
    Part,
}

/// Datagrams to peers, and from whoever sends some. One that is sent may be lost, come late, or come twice.
pub trait Link {
    /// What each attach so far was given, and whether it went well, where the link tells it.
    ghost attached: { Self → Option (List Attach) };

    /// What each send so far did, where the link tells it: what it sent, `None` where it failed.
    ghost sent: { Self → Option (List (Option Datagram)) };

    /// What each receive so far gave, where the link tells it.
    ghost received: { Self → Option (List Arrival) };

    /// The datagrams that wait for the next receive, where the link tells them.
    ghost waiting: { Self → Option (List Datagram) };

    /// How often attach or receive has failed.
    ghost faults: { Self → ℕ };

    /// How often a send has failed.
    ghost send_faults: { Self → ℕ };

    /// Takes the own address, empty for an object that only asks, and those of the peers, whose ports are 0, 1, ..
    fn attach(&mut self, own: &str, peers: &Vec<String>) -> Result<(), LinkFailed>
        ensures cause { HasCause (faults self.old) (faults self.new) result }
        ensures attached { Grows (attached self.old) (attached self.new) (attached_by own.now (texts_of peers.now.items) result ∷ []) }
        ensures sent { sent self.new ≡ sent self.old }
        ensures received { received self.new ≡ received self.old }
        ensures others { send_faults self.new ≡ send_faults self.old };

    /// Sends the bytes to a port as one datagram. A failed send is a loss of that datagram and nothing else.
    fn send(&mut self, to: u32, bytes: &[u8]) -> Result<(), LinkFailed>
        ensures cause { HasCause (send_faults self.old) (send_faults self.new) result }
        ensures attached { attached self.new ≡ attached self.old }
        ensures sent { Grows (sent self.old) (sent self.new) (sent_by to bytes.now result ∷ []) }
        ensures received { received self.new ≡ received self.old }
        ensures others { faults self.new ≡ faults self.old };

    /// The next datagram, whose bytes take the place of what `to` holds; it is never longer than the room of `to`.
    fn receive(&mut self, to: &mut Vec<u8>) -> Result<Received, LinkFailed>
        requires { RECEIVE_ROOM ≤ vec_capacity to.old }
        ensures cause { HasCause (faults self.old) (faults self.new) result }
        ensures attached { attached self.new ≡ attached self.old }
        ensures quiet { IfOk result (λ r. r ≡ Received.Quiet → IsNothing (waiting self.old)) }
        ensures sent { sent self.new ≡ sent self.old }
        ensures received { Grows (received self.old) (received self.new) (received_by result to.new.items ∷ []) }
        ensures room { RECEIVE_ROOM ≤ vec_capacity to.new }
        ensures others { send_faults self.new ≡ send_faults self.old };
}
