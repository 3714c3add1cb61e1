//! Streams of bytes, one at each port.
ghost use Rattle.std.specs.Prelude.{◌≡◌, ◌≤◌, List, [], ◌∷◌, ℕ, Option, IfOk, OnErr, OnOk, length, vec_len};
ghost use Rattle.vr_base.specs.Causes.{HasCause};
ghost use Rattle.vr_edge.specs.Attaching.{attached_by, texts_of};
ghost use Rattle.vr_edge.specs.Told.{Grows, IsNothing};
ghost use Rattle.vr_edge.specs.Streaming.{IsPolled, polled_by, written_by};
ghost use Rattle.vr_edge.specs.declared.attach.Attach.{Attach};
ghost use Rattle.vr_edge.specs.declared.streams.StreamCall.{StreamCall};
ghost use Rattle.vr_edge.specs.declared.streams.StreamCall.TheVariants.{Closed};
ghost use Rattle.vr_edge.specs.declared.streams.Write.{Write};

use thiserror::Error;
use vr_base::ByteList;

/// The length in bytes of the buffer of a poll.
pub const STREAM_ROOM: usize = 4096;

// How much one poll brings at most, the contracts say by it.
const _: () = prove!(STREAM_ROOM == 4096);

/// A call of streams that failed.
#[derive(Clone, Copy, Debug, PartialEq, Eq, Error)]
#[error("stream failed")]
pub struct StreamFailed;

/// What a poll gave.
#[derive(Clone, Copy, PartialEq, Eq)]
pub enum Polled {
    /// So many bytes, the second number, of the stream at a port, the first one.
    Bytes(u32, u32),
    /// The stream at this port has ended.
    Ended(u32),
    /// Nothing was waiting.
    Quiet,
}

/// Bytes of the stream at a port.
#[derive(Drop, PartialEq, Eq)]
pub struct Piece {
    pub port: u32,
    pub bytes: ByteList,
}

/// Bytes that were given to a stream, and how many it took of them, `None` where the write failed.
#[derive(Drop, PartialEq, Eq)]
pub struct Write {
    pub port: u32,
    pub bytes: ByteList,
    pub taken: Option<usize>,
}

/// What a poll gave, or a close.
#[derive(Drop, PartialEq, Eq)]
pub enum StreamCall {
    /// A poll failed.
    Failed,
    /// A poll found nothing.
    Quiet,
    /// A poll gave these bytes.
    Came(Piece),
    /// A poll found that the stream at this port had ended.
    Ended(u32),
    /// The stream at this port was closed, well or not.
    Closed(u32),
}

/// Streams of bytes to peers and from them. What comes at a port up to its end, or up to a close of it, is one
/// connection; after a close, failed or not, no bytes of that connection come. The ports of peers are 0, 1, ..;
/// others have ports from there on, at most 64 at once.
pub trait Streams {
    /// What each attach so far was given, and whether it went well, where the streams tell it.
    ghost attaches: { Self → Option (List Attach) };

    /// What each poll and each close so far did, where the streams tell it.
    ghost calls: { Self → Option (List StreamCall) };

    /// These calls up to the last poll, where the streams told them then: a close may take memory to be told, and leaves this.
    ghost polled: { Self → Option (List StreamCall) };

    /// Each write so far, where the streams tell it.
    ghost written: { Self → Option (List Write) };

    /// What waits for the next poll, where the streams tell it.
    ghost waiting: { Self → Option (List StreamCall) };

    /// How many peers are attached.
    ghost attached: { Self → ℕ };

    /// How often attach or poll has failed.
    ghost faults: { Self → ℕ };

    /// How often a write or a close has failed.
    ghost call_faults: { Self → ℕ };

    /// Takes the own address, empty for an object that only asks, and those of the peers.
    fn attach(&mut self, own: &str, peers: &Vec<String>) -> Result<(), StreamFailed>
        ensures cause { HasCause (faults self.old) (faults self.new) result }
        ensures attaches { Grows (attaches self.old) (attaches self.new) (attached_by own.now (texts_of peers.now.items) result ∷ []) }
        ensures calls { calls self.new ≡ calls self.old }
        ensures polled { polled self.new ≡ polled self.old }
        ensures written { written self.new ≡ written self.old }
        ensures attached { OnOk result (attached self.new ≡ vec_len peers.now) }
        ensures kept { OnErr result (attached self.new ≡ attached self.old) }
        ensures others { call_faults self.new ≡ call_faults self.old };

    /// What comes next, at the port of a peer that is attached or of one of 64 others; bytes are put at the front of `to`.
    fn poll(&mut self, to: &mut [u8]) -> Result<Polled, StreamFailed>
        requires { length to.old ≡ STREAM_ROOM }
        ensures bound { IfOk result (IsPolled (attached self.old)) }
        ensures cause { HasCause (faults self.old) (faults self.new) result }
        ensures quiet { IfOk result (λ p. p ≡ Polled.Quiet → IsNothing (waiting self.old)) }
        ensures attaches { attaches self.new ≡ attaches self.old }
        ensures calls { Grows (calls self.old) (calls self.new) (polled_by result to.new ∷ []) }
        ensures polled { polled self.new ≡ calls self.new }
        ensures written { written self.new ≡ written self.old }
        ensures attached { attached self.new ≡ attached self.old }
        ensures others { call_faults self.new ≡ call_faults self.old };

    /// Gives the bytes to the stream at a port, which is made where there is none and the port is a peer's.
    /// It returns how many bytes the stream took.
    fn write(&mut self, port: u32, bytes: &[u8]) -> Result<usize, StreamFailed>
        ensures bound { IfOk result (λ count. count ≤ length bytes.now) }
        ensures cause { HasCause (call_faults self.old) (call_faults self.new) result }
        ensures attaches { attaches self.new ≡ attaches self.old }
        ensures calls { calls self.new ≡ calls self.old }
        ensures polled { polled self.new ≡ polled self.old }
        ensures written { Grows (written self.old) (written self.new) (written_by port bytes.now result ∷ []) }
        ensures attached { attached self.new ≡ attached self.old }
        ensures others { faults self.new ≡ faults self.old };

    /// Ends the stream at a port.
    fn close(&mut self, port: u32) -> Result<(), StreamFailed>
        ensures cause { HasCause (call_faults self.old) (call_faults self.new) result }
        ensures attaches { attaches self.new ≡ attaches self.old }
        ensures calls { Grows (calls self.old) (calls self.new) (Closed port ∷ []) }
        ensures polled { polled self.new ≡ polled self.old }
        ensures written { written self.new ≡ written self.old }
        ensures attached { attached self.new ≡ attached self.old }
        ensures others { faults self.new ≡ faults self.old };

    /// The stream at a port brought a message of this member that is no request. It changes nothing that is told.
    fn speaks(&mut self, port: u32, member: u8)
        ensures attaches { attaches self.new ≡ attaches self.old }
        ensures calls { calls self.new ≡ calls self.old }
        ensures polled { polled self.new ≡ polled self.old }
        ensures written { written self.new ≡ written self.old }
        ensures waiting { waiting self.new ≡ waiting self.old }
        ensures attached { attached self.new ≡ attached self.old }
        ensures faults { faults self.new ≡ faults self.old }
        ensures others { call_faults self.new ≡ call_faults self.old };
}
