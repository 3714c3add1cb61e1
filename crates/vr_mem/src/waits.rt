//! The sectors that wait for a sync.
ghost use Rattle.std.specs.Prelude.{◌≡◌, ◌<◌, ◌==◌, [], false, true, length, slice_index_or, slice_set, List, IfOk, Some};
ghost use Rattle.std.specs.List.{list_any, position};
ghost use Rattle.vr_disk.specs.DiskState.{digit_at, noted};
ghost use Rattle.vr_mem.specs.Seen.{AreWaits, Keeps, Stays, blank_room, once, room_of, waiting_in, waiting_of};

use crate::room::{MemKept, MemRoom, MemWaiting};
use std::alloc::Global;
use vr_base::NoMemory;
use vr_disk::SECTORS;

/// The sectors that wait for a sync. What one of them was is copied out of its room when it is written again, or reads as
/// something else: few are, so memory for this is seldom touched.
#[derive(Drop)]
pub struct MemWaits {
    /// Those that wait, in the order of their first write.
    pub notes: Vec<MemWaiting>,
    /// What some of them were, in the order in which it was copied out.
    pub kept: Vec<MemKept>,
}

/// The digit of the code by which a sector that waits is settled, 0 where it doesn't wait.
pub fn digit(code: u64, index: u32, waiting: &[MemWaiting]) -> u64
    ensures { (kept : List MemKept) (rooms : List MemRoom) → result ≡ digit_at code index (waiting_of kept rooms waiting.now) }
{
    let mut rest = code;
    for w in waiting {
        if w.index == index {
            return rest % 3;
        }
        rest /= 3;
    }
    0
}

// The place of a sector among those that wait.
fn place_of(index: u32, waiting: &[MemWaiting]) -> Option<usize>
    ensures { result ≡ position (λ w. w.index == index) waiting.now }
{
    waiting.iter().position(|w| w.index == index)
}

impl MemWaits {
    /// None waits, and each sector can.
    pub fn new(alloc: Global) -> Result<MemWaits, NoMemory>
        ensures none { IfOk result (λ m. m.notes.items ≡ []) }
        ensures waits { IfOk result AreWaits }
    {
        Ok(MemWaits {
            notes: Vec::with_capacity(alloc, SECTORS as usize)?,
            kept: Vec::with_capacity(alloc, SECTORS as usize)?,
        })
    }

    // Copies out what the sector was that waits at this place, where its room alone has it.
    fn keep_at(&mut self, at: usize, index: u32, room: &MemRoom)
        requires waits { AreWaits self.old }
        requires found { position (λ w. w.index == index) self.old.notes.items ≡ Some at }
        ensures waits { AreWaits self.new }
        ensures keeps { Keeps self.old self.new index room.now }
    {
        let was = self.notes[at];
        if was.kept.is_some() {
            return;
        }
        let place = self.kept.len() as u32;
        self.kept.push_reserved(room.copied(&was));
        self.notes[at].kept = Some(place);
    }

    /// Copies out what a sector was, where it waits and its room alone has it: from then on its room can change. Tells whether
    /// it waits.
    pub fn keep(&mut self, index: u32, room: &MemRoom) -> bool
        requires waits { AreWaits self.old }
        ensures waits { AreWaits self.new }
        ensures keeps { Keeps self.old self.new index room.now }
        ensures found { result ≡ list_any (λ w. w.index == index) self.old.notes.items }
    {
        match place_of(index, &self.notes) {
            Some(at) => {
                self.keep_at(at, index, room);
                true
            }
            None => false,
        }
    }

    /// Notes that a sector is to be written.
    pub fn note(&mut self, index: u32, room: &MemRoom)
        requires waits { AreWaits self.old }
        requires room { list_any (λ w. w.index == index) self.old.notes.items ≡ false → length self.old.notes.items < SECTORS }
        ensures waits { AreWaits self.new }
        ensures noted { (rooms : List MemRoom) (now : MemRoom) → index < length rooms → slice_index_or rooms index blank_room ≡ room.now → Stays room.now now → once (waiting_in self.old rooms) ≡ true → waiting_in self.new (slice_set rooms index now) ≡ noted (waiting_in self.old rooms) index (room_of room.now) }
    {
        if self.keep(index, room) {
            return;
        }
        self.notes.push_reserved(MemWaiting {
            index,
            kept: None,
            reads: room.reads,
            truth_on: room.truth_on,
            before_on: room.before_on,
        });
    }

    /// None waits any more.
    pub fn clear(&mut self)
        requires { AreWaits self.old }
        ensures none { self.new.notes.items ≡ [] }
        ensures waits { AreWaits self.new }
    {
        self.notes.clear();
        self.kept.clear();
    }
}
