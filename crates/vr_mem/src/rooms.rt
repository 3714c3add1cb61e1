//! The rooms of all sectors.
ghost use Rattle.std.specs.Prelude.{◌≡◌, ◌<◌, ◌≤◌, true, length, slice_index_or, slice_set, IfOk};
ghost use Rattle.std.specs.List.{All};
ghost use Rattle.vr_base.specs.Bytes.{is_zeros};
ghost use Rattle.vr_disk.specs.DiskState.{IsContent, blank, settled, settled_cell};
ghost use Rattle.vr_mem.specs.Seen.{AreRooms, IsShown, IsWritten, blank_room, copies, hidden, marked, once, place_end, room_at, room_of, rooms_of, seen, waiting_of, was_of, zero_cell};

use crate::bytes::{Mark, are_zeros};
use crate::room::{MemKept, MemRoom, MemWaiting, zero};
use std::alloc::Global;
use vr_base::NoMemory;
use vr_disk::SECTORS;

/// What is kept of all sectors. A sector gets a room when it needs one: most are zeros that were never written, and have none.
#[derive(Drop)]
pub struct MemRooms {
    /// Of each sector the place of its room, 0 where it has none of its own.
    pub places: Vec<u32>,
    /// The first is that of all sectors that have none, and stays as it is. The others come in the order in which they were
    /// needed.
    pub rooms: Vec<MemRoom>,
}

impl MemRooms {
    /// No sector has a room, and each can get one.
    pub fn new(alloc: Global) -> Result<MemRooms, NoMemory>
        ensures zeros { IfOk result (λ m. seen m ≡ copies SECTORS zero_cell) }
        ensures whole { IfOk result AreRooms }
    {
        let mut rooms = Vec::with_capacity(alloc, SECTORS as usize + 1)?;
        rooms.push_reserved(*zero());
        let places = Vec::from_elem(alloc, 0, SECTORS as usize)?;
        Ok(MemRooms { places, rooms })
    }

    /// What is kept of a sector.
    pub fn room(&self, at: usize) -> &MemRoom
        requires rooms { AreRooms self.now }
        requires at { at < SECTORS }
        ensures room { room_at self.now at ≡ result.now }
        ensures cell { slice_index_or (seen self.now) at blank ≡ room_of result.now }
    {
        &self.rooms[self.places[at] as usize]
    }

    // Gives a room to a sector that has none, and tells its place.
    fn give(&mut self, at: usize) -> usize
        requires rooms { AreRooms self.old }
        requires at { at < SECTORS }
        requires none { slice_index_or self.old.places.items at 0 ≡ 0 }
        ensures rooms { AreRooms self.new }
        ensures same { rooms_of self.new ≡ rooms_of self.old }
        ensures own { 0 < result }
        ensures place { slice_index_or self.new.places.items at 0 ≡ result }
    {
        let place = self.rooms.len();
        self.rooms.push_reserved(*zero());
        self.places[at] = place as u32;
        place
    }

    // The place of a sector's own room, which it gets now where it had none.
    fn place(&mut self, at: usize) -> usize
        requires rooms { AreRooms self.old }
        requires at { at < SECTORS }
        ensures rooms { AreRooms self.new }
        ensures same { rooms_of self.new ≡ rooms_of self.old }
        ensures own { 0 < result }
        ensures place { slice_index_or self.new.places.items at 0 ≡ result }
    {
        let place = self.places[at];
        if place == 0 {
            return self.give(at);
        }
        place as usize
    }

    // Whether a sector has no room, and these bytes are the zeros that it holds and reads as.
    fn has_zeros(&self, at: usize, mark: Mark, bytes: &[u8]) -> bool
        requires rooms { AreRooms self.now }
        requires at { at < SECTORS }
        requires size { length bytes.now ≡ 512 }
        ensures none { result ≡ true → room_at self.now at ≡ blank_room }
        ensures zeros { result ≡ true → is_zeros (marked mark bytes.now) ≡ true }
    {
        self.places[at] == 0 && are_zeros(mark, bytes)
    }

    /// Writes these bytes into a sector. Zeros that are written into one with no room change nothing, so it gets none.
    pub fn write(&mut self, at: usize, mark: Mark, bytes: &[u8])
        requires rooms { AreRooms self.old }
        requires at { at < SECTORS }
        requires size { length bytes.now ≡ 512 }
        ensures rooms { AreRooms self.new }
        ensures others { rooms_of self.new ≡ slice_set (rooms_of self.old) at (room_at self.new at) }
        ensures written { IsWritten (room_at self.old at) (room_at self.new at) (marked mark bytes.now) }
        ensures content { IsContent bytes.now }
    {
        if self.has_zeros(at, mark, bytes) {
            return;
        }
        let place = self.place(at);
        self.rooms[place].write(mark, bytes);
    }

    /// From now on a sector reads as these bytes. One with no room reads as zeros already, so it gets none for them.
    pub fn show(&mut self, at: usize, bytes: &[u8])
        requires rooms { AreRooms self.old }
        requires at { at < SECTORS }
        requires size { length bytes.now ≡ 512 }
        ensures rooms { AreRooms self.new }
        ensures others { rooms_of self.new ≡ slice_set (rooms_of self.old) at (room_at self.new at) }
        ensures shown { IsShown (room_at self.old at) (room_at self.new at) bytes.now }
        ensures content { IsContent bytes.now }
    {
        if self.has_zeros(at, Mark::Plain, bytes) {
            return;
        }
        let place = self.place(at);
        self.rooms[place].show(bytes);
    }

    /// From now on a sector can't be read.
    pub fn hide(&mut self, at: usize)
        requires rooms { AreRooms self.old }
        requires at { at < SECTORS }
        ensures rooms { AreRooms self.new }
        ensures same { rooms_of self.new ≡ slice_set (rooms_of self.old) at (hidden (room_at self.old at)) }
    {
        let place = self.place(at);
        self.rooms[place].hide();
    }

    /// What a stop leaves of a sector, by a digit and what it was.
    pub fn settle(&mut self, at: usize, digit: u64, was: &MemWaiting, kept: &[MemKept])
        requires rooms { AreRooms self.old }
        requires at { at < SECTORS }
        requires kept { place_end was.now.kept ≤ length kept.now }
        ensures rooms { AreRooms self.new }
        ensures others { rooms_of self.new ≡ slice_set (rooms_of self.old) at (room_at self.new at) }
        ensures settled { room_of (room_at self.new at) ≡ settled_cell digit (was_of kept.now was.now (room_at self.old at)) (room_of (room_at self.old at)) }
    {
        let place = self.place(at);
        self.rooms[place].settle(digit, was, kept);
    }
}

/// Settles the sectors that wait, by the digits of the code.
pub fn settle_all(code: u64, waiting: &[MemWaiting], kept: &[MemKept], rooms: &mut MemRooms)
    requires rooms { AreRooms rooms.old }
    requires within { All (λ w. w.index < SECTORS) waiting.now }
    requires kept { All (λ w. place_end w.kept ≤ length kept.now) waiting.now }
    requires once { once (waiting_of kept.now (rooms_of rooms.old) waiting.now) ≡ true }
    ensures rooms { AreRooms rooms.new }
    ensures cells { seen rooms.new ≡ settled code (waiting_of kept.now (rooms_of rooms.old) waiting.now) (seen rooms.old) }
{
    let mut rest = code;
    for w in waiting {
        rooms.settle(w.index as usize, rest % 3, w, kept);
        rest /= 3;
    }
}
