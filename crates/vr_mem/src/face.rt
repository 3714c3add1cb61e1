//! All sectors in memory, and those that wait for a sync.
ghost use Rattle.std.specs.Prelude.{◌≡◌, ◌<◌, [], true, replicate, IfOk, None, Some};
ghost use Rattle.std.specs.Option.{option_map};
ghost use Rattle.vr_disk.specs.DiskState.{IsContent, Sync, Write, after, cell, digit_at, reads, settle};
ghost use Rattle.vr_disk.specs.Sectors.{has};
ghost use Rattle.vr_mem.specs.Lies.{lied};
ghost use Rattle.vr_mem.specs.Seen.{IsMemFace, bytes_of, copies, face_of, marked, read_mark_at, zero_cell};

use crate::bytes::{Mark, MemBytes, are_zeros};
use crate::rooms::{MemRooms, settle_all};
use crate::waits::{MemWaits, digit};
use std::alloc::Global;
use vr_base::NoMemory;
use vr_disk::{SECTORS, Sector};

/// All sectors, and those that wait.
#[derive(Drop)]
pub struct MemFace {
    pub rooms: MemRooms,
    pub waits: MemWaits,
}

impl MemFace {
    /// 3,984 sectors of zeros, with memory for each of them to be written and to wait.
    pub fn new(alloc: Global) -> Result<MemFace, NoMemory>
        ensures face { IfOk result (λ f. face_of f ≡ record { cells = copies SECTORS zero_cell; waiting = [] }) }
        ensures whole { IfOk result IsMemFace }
    {
        Ok(MemFace {
            rooms: MemRooms::new(alloc)?,
            waits: MemWaits::new(alloc)?,
        })
    }

    /// What a sector should hold.
    pub fn truth(&self, index: u32) -> &MemBytes
        requires face { IsMemFace self.now }
        requires index { index < SECTORS }
        ensures { bytes_of result.now ≡ (cell (face_of self.now) index).truth }
    {
        self.rooms.room(index as usize).truth()
    }

    /// What a sector held before its last write.
    pub fn before(&self, index: u32) -> &MemBytes
        requires face { IsMemFace self.now }
        requires index { index < SECTORS }
        ensures { bytes_of result.now ≡ (cell (face_of self.now) index).before }
    {
        self.rooms.room(index as usize).before()
    }

    /// What a sector reads as, without its mark; `None` where it can't be read.
    pub fn reading(&self, index: u32) -> Option<&Sector>
        requires face { IsMemFace self.now }
        requires index { index < SECTORS }
        ensures { option_map (λ s. marked (read_mark_at self.now index) s.now.bytes) result ≡ reads (face_of self.now) index }
    {
        self.rooms.room(index as usize).reading()
    }

    /// The mark of what a sector reads as.
    pub fn read_mark(&self, index: u32) -> Mark
        requires face { IsMemFace self.now }
        requires index { index < SECTORS }
        ensures { result ≡ read_mark_at self.now index }
    {
        self.rooms.room(index as usize).read_mark()
    }

    /// Whether a sector reads as zeros.
    pub fn reads_zeros(&self, index: u32) -> bool
        requires face { IsMemFace self.now }
        requires index { index < SECTORS }
        ensures { result ≡ has (replicate 512 0) (reads (face_of self.now) index) }
    {
        let room = self.rooms.room(index as usize);
        if room.is_noted() {
            return true;
        }
        match room.reading() {
            Some(sector) => are_zeros(room.read_mark(), &sector.bytes),
            None => false,
        }
    }

    /// From now on a sector reads as another content, until it is written.
    pub fn show(&mut self, index: u32, sector: &Sector)
        requires face { IsMemFace self.old }
        requires index { index < SECTORS }
        ensures after { face_of self.new ≡ lied (face_of self.old) index (Some sector.now.bytes) }
        ensures face { IsMemFace self.new }
        ensures content { IsContent sector.now.bytes }
    {
        let at = index as usize;
        self.waits.keep(index, self.rooms.room(at));
        self.rooms.show(at, &sector.bytes);
    }

    /// From now on a sector can't be read, until it is written.
    pub fn hide(&mut self, index: u32)
        requires face { IsMemFace self.old }
        requires index { index < SECTORS }
        ensures after { face_of self.new ≡ lied (face_of self.old) index None }
        ensures face { IsMemFace self.new }
    {
        self.rooms.hide(index as usize);
    }

    /// Writes bytes with their mark.
    pub fn write(&mut self, index: u32, mark: Mark, from: &Sector)
        requires face { IsMemFace self.old }
        requires index { index < SECTORS }
        ensures after { face_of self.new ≡ after (face_of self.old) (Write index (marked mark from.now.bytes)) }
        ensures face { IsMemFace self.new }
        ensures content { IsContent from.now.bytes }
    {
        let at = index as usize;
        self.waits.note(index, self.rooms.room(at));
        self.rooms.write(at, mark, &from.bytes);
    }

    /// A sync: no sector waits any more.
    pub fn sync(&mut self)
        requires { IsMemFace self.old }
        ensures after { face_of self.new ≡ after (face_of self.old) Sync }
        ensures face { IsMemFace self.new }
    {
        self.waits.clear();
    }

    /// Whether no sector waits.
    pub fn none_waits(&self) -> bool
        ensures { result ≡ true → (face_of self.now).waiting ≡ [] }
    {
        self.waits.notes.is_empty()
    }

    /// The digit of the code by which a sector that waits is settled, 0 where it doesn't wait.
    pub fn digit(&self, code: u64, index: u32) -> u64
        requires { IsMemFace self.now }
        ensures { result ≡ digit_at code index (face_of self.now).waiting }
    {
        digit(code, index, &self.waits.notes)
    }

    /// What a stop leaves of the sectors that wait.
    pub fn settle(&mut self, code: u64)
        requires { IsMemFace self.old }
        ensures after { face_of self.new ≡ settle code (face_of self.old) }
        ensures face { IsMemFace self.new }
    {
        settle_all(code, &self.waits.notes, &self.waits.kept, &mut self.rooms);
        self.waits.clear();
    }
}
