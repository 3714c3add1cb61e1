//! Where messages end in the pieces of a stream.
ghost use Rattle.std.specs.Prelude.{◌≡◌, ◌≢◌, ◌≤◌, ◌<◌, ◌++◌, [], IfOk, length, drop, nat_lt, take, vec_len, vec_capacity};
ghost use Rattle.vr_stream.specs.Looking.{Gives};

use crate::Next;
use crate::looking::{Front, look};
use std::alloc::{AllocError, Global};
use std::marker::Model;
use vr_edge::STREAM_ROOM;
use vr_header::MESSAGE_MOST;

/// The longest message, but for a byte, and a piece.
const ROOM: usize = 24576;

/// What has come of a stream and wasn't given yet, in a buffer that is made once. Contracts see it as these bytes.
#[derive(Drop)]
pub struct Deframer {
    bytes: Vec<u8>,
    /// What wasn't given yet stands from here on.
    start: usize,
}

impl Model for Deframer {
    ghost use Rattle.std.specs.Prelude.{◌≤◌, ℕ, List, drop, vec_len, vec_capacity};

    ghost Value = { List ℕ };

    ghost view = { λ d. drop d.start d.bytes.items };

    ghost invariant = { λ d. (d.start ≤ vec_len d.bytes) × (24576 ≤ vec_capacity d.bytes) };
}

/// Lets so many bytes at the front go.
#[tactic(auto, using(std::proofs::lemmas::Grind::common_steps, crate::proofs::Held::shifted))]
fn let_go(bytes: &mut Vec<u8>, count: usize)
    requires { count ≤ vec_len bytes.old }
    ensures bytes { bytes.new.items ≡ drop count bytes.old.items }
    ensures capacity { vec_capacity bytes.new ≡ vec_capacity bytes.old }
{
    if count == 0 {
        return;
    }
    let len = bytes.len();
    bytes.as_mut_slice().copy_within(count..len, 0);
    bytes.truncate(len - count);
}

/// So many bytes from the front take the place of what `to` holds.
fn put_front(bytes: &[u8], size: usize, to: &mut Vec<u8>)
    requires there { size ≤ length bytes.now }
    requires room { size ≤ vec_capacity to.old }
    ensures bytes { to.new.items ≡ take size bytes.now }
    ensures room { vec_capacity to.old ≤ vec_capacity to.new }
{
    let (front, _) = bytes.split_at(size);
    to.clear();
    to.extend_from_slice(front).unwrap();
}

impl Deframer {
    /// Nothing has come.
    pub fn new(alloc: Global) -> Result<Deframer, AllocError>
        ensures { IfOk result (λ d. d ≡ []) }
    {
        Ok(Deframer {
            bytes: Vec::with_capacity(alloc, ROOM)?,
            start: 0,
        })
    }

    /// Nothing has come, once more. It takes no memory.
    pub fn reset(&mut self)
        ensures { self.new ≡ [] }
    {
        self.bytes.clear();
        self.start = 0;
    }

    /// Takes a piece after what has come, of which less than a message is left: `next` answered `More`. It takes no memory.
    pub fn push(&mut self, piece: &[u8])
        requires short { length self.old < 20480 }
        requires piece { length piece.now ≤ STREAM_ROOM }
        ensures { self.new ≡ self.old ++ piece.now }
    {
        let_go(&mut self.bytes, self.start);
        self.start = 0;
        self.bytes.extend_from_slice(piece).unwrap();
    }

    /// Whether less than the longest message is left.
    pub fn is_short(&self) -> bool
        ensures { result ≡ nat_lt (length self.now) 20480 }
    {
        self.bytes.len() - self.start < MESSAGE_MOST
    }

    /// What comes next; a message takes the place of what `to` holds. It takes no memory.
    #[tactic(auto, using(std::proofs::lemmas::Grind::common_steps, crate::proofs::Held::whole_given))]
    pub fn next(&mut self, to: &mut Vec<u8>) -> Next
        requires { 20480 ≤ vec_capacity to.old }
        ensures gives { Gives self.old self.new to.new.items result }
        ensures kept { result ≢ Next.Message → to.new ≡ to.old }
        ensures room { vec_capacity to.old ≤ vec_capacity to.new }
    {
        match look(&self.bytes[self.start..]) {
            Front::Short => Next::More,
            Front::Broken(fault) => Next::Broken(fault),
            Front::Whole(size) => {
                put_front(&self.bytes[self.start..], size, to);
                self.start += size;
                Next::Message
            }
        }
    }
}
