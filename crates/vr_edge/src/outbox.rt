//! What a link in memory was given to send, in room that is made at first.
ghost use Rattle.std.specs.Prelude.{◌≡◌, ◌≤◌, true, [], ◌∷◌, Some, None, IfOk, length, vec_len, vec_capacity, if◌then◌else◌, ◌&&◌, not, slice_get, option_and_then};
ghost use Rattle.std.specs.Option.{option_map};
ghost use Rattle.vr_edge.specs.Marks.{are_within};

use std::alloc::{AllocError, Global};

/// Where the bytes of a datagram stand.
#[derive(Clone, Copy, PartialEq, Eq)]
pub struct Mark {
    pub port: u32,
    pub start: usize,
    pub end: usize,
}

/// How much a link in memory may be given to send.
#[derive(Clone, Copy, PartialEq, Eq)]
pub struct LinkRoom {
    /// How many sends.
    pub datagrams: usize,
    /// How many bytes in all.
    pub bytes: usize,
}

/// One mark for each send, `None` where it failed; and how many sends came when no room was left.
#[derive(Drop)]
pub struct Outbox {
    room: LinkRoom,
    bytes: Vec<u8>,
    marks: Vec<Option<Mark>>,
    past: u64,
    ghost bytes_within: { vec_len bytes ≤ room.bytes },
    ghost bytes_made: { room.bytes ≤ vec_capacity bytes },
    ghost marks_within: { vec_len marks ≤ room.datagrams },
    ghost marks_made: { room.datagrams ≤ vec_capacity marks },
    ghost marked: { are_within (length bytes.items) marks.items ≡ true },
}

impl Outbox {
    ghost use Rattle.vr_base.specs.Causes.{one_more};
    ghost use Rattle.vr_edge.specs.Sending.{outbox_told, has_room, datagram_at, marked};
    ghost use Rattle.vr_edge.specs.Told.{Grows};

    #[tactic(auto, unfolding(crate::specs::Sending::entries))]
    pub fn new(alloc: Global, room: LinkRoom) -> Result<Outbox, AllocError>
        ensures told { IfOk result (λ o. outbox_told o ≡ Some []) }
        ensures room { IfOk result (λ o. o.room ≡ room) }
    {
        Ok(Outbox {
            room,
            bytes: Vec::with_capacity(alloc, room.bytes)?,
            marks: Vec::with_capacity(alloc, room.datagrams)?,
            past: 0,
        })
    }

    /// Whether there is room for a datagram of this length.
    fn has_room(&self, len: usize) -> bool
        ensures { result ≡ has_room self.now len }
    {
        self.past == 0
            && self.marks.len() < self.room.datagrams
            && len <= self.room.bytes - self.bytes.len()
    }

    /// Takes one send, which `fails` or not. Returns whether the datagram went out.
    pub fn put(&mut self, port: u32, bytes: &[u8], fails: bool) -> bool
        ensures went { result ≡ (has_room self.old (length bytes.now) && not fails) }
        ensures told { Grows (outbox_told self.old) (outbox_told self.new) ((if result then Some (datagram_at port bytes.now) else None) ∷ []) }
        ensures past { self.new.past ≡ (if has_room self.old (length bytes.now) then self.old.past else one_more self.old.past) }
        ensures room { self.new.room ≡ self.old.room }
    {
        if !self.has_room(bytes.len()) {
            self.past = self.past.saturating_add(1);
            return false;
        }
        if fails {
            self.marks.push_reserved(None);
            return false;
        }
        let start = self.bytes.len();
        self.bytes.extend_from_slice(bytes).unwrap();
        let end = self.bytes.len();
        self.marks.push_reserved(Some(Mark { port, start, end }));
        true
    }

    /// How many sends there were while there was room.
    pub fn len(&self) -> usize
        ensures { result ≡ vec_len self.now.marks }
    {
        self.marks.len()
    }

    /// The port and the bytes of a send by its number, `None` where it failed or is yet to come.
    #[tactic(auto, using(std::proofs::lemmas::Grind::common_steps, crate::proofs::Sending::within_at), unfolding(crate::specs::Sending::marked))]
    pub fn get(&self, at: usize) -> Option<(u32, &[u8])>
        ensures { option_map (λ d. datagram_at d.0 d.1.now) result ≡ option_and_then (marked self.now.bytes.items) (slice_get self.now.marks.items at) }
    {
        let Some(Some(mark)) = self.marks.get(at) else {
            return None;
        };
        Some((mark.port, &self.bytes[mark.start..mark.end]))
    }
}
