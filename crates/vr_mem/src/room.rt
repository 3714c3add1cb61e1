//! What is kept of one sector.
ghost use Rattle.std.specs.Prelude.{◌≡◌, ◌≤◌, length, true, Some};
ghost use Rattle.std.specs.Option.{option_map};
ghost use Rattle.vr_disk.specs.DiskState.{IsContent, damaged, settled_cell};
ghost use Rattle.vr_mem.specs.Seen.{Holds, IsWritten, blank_room, bytes_of, copied, copies, free_of, held_on, hidden, marked, on, place_end, put_on, read_mark_of, room_of, shown, was_of};

use crate::bytes::{Mark, MemBytes, damage};
use vr_disk::{Sector, ZEROS};

/// What a sector reads as.
#[derive(Clone, Copy)]
pub enum MemReads {
    /// What it should hold.
    Truth,
    /// The content that is kept as its lie.
    Lie,
    /// It can't be read.
    Nothing,
}

/// Where in its room a content of a sector stands.
#[derive(Clone, Copy)]
pub enum Shelf {
    One,
    Two,
    Three,
}

/// What is kept of a sector. What it should hold, and what it held before its last write, stand on two of three shelves, or on
/// one where they are the same bytes. A write goes on another one, so both stay where they are. What is small comes first,
/// and so is read from memory at once.
#[derive(Clone, Copy)]
pub struct MemRoom {
    /// Where what it should hold stands.
    pub truth_on: Shelf,
    /// Where what it held before its last write stands.
    pub before_on: Shelf,
    pub reads: MemReads,
    pub one: MemBytes,
    pub two: MemBytes,
    pub three: MemBytes,
    pub lie: Sector,
}

/// A sector that waits for a sync, and what it was before its first write since the last one. As long as it was written once,
/// its room still has that: so a first write copies nothing.
#[derive(Clone, Copy)]
pub struct MemWaiting {
    pub index: u32,
    /// The place of what it was among what was copied out, `None` where its room has it.
    pub kept: Option<u32>,
    pub reads: MemReads,
    /// Where in its room what it should have held then stands.
    pub truth_on: Shelf,
    /// Where in its room what it held then before its last write stands.
    pub before_on: Shelf,
}

/// What a sector was, copied out of its room.
#[derive(Clone, Copy)]
pub struct MemKept {
    pub truth: MemBytes,
    pub before: MemBytes,
    pub lie: Sector,
}

// A content of zeros.
const NO_BYTES: MemBytes = MemBytes {
    zeros: true,
    mark: Mark::Plain,
    sector: ZEROS,
};

// What is kept of a sector of zeros that was never written.
const BLANK: MemRoom = MemRoom {
    truth_on: Shelf::One,
    before_on: Shelf::One,
    reads: MemReads::Truth,
    one: NO_BYTES,
    two: NO_BYTES,
    three: NO_BYTES,
    lie: ZEROS,
};

/// A sector of zeros that was never written.
#[tactic(auto, unfolding(crate::specs::Seen::blank_room, crate::specs::Seen::copies))]
pub fn zero() -> &'static MemRoom
    ensures { result.now ≡ blank_room }
{
    &BLANK
}

impl Shelf {
    // One that is neither of these.
    fn free(truth: Shelf, before: Shelf) -> Shelf
        ensures { result ≡ free_of truth before }
    {
        match (truth, before) {
            (Shelf::One, Shelf::Two) | (Shelf::Two, Shelf::One) => Shelf::Three,
            (Shelf::One, _) | (_, Shelf::One) => Shelf::Two,
            (Shelf::Two | Shelf::Three, Shelf::Two | Shelf::Three) => Shelf::One,
        }
    }
}

impl MemRoom {
    // What stands on a shelf.
    fn on(&self, shelf: Shelf) -> &MemBytes
        ensures { result.now ≡ on self.now shelf }
    {
        match shelf {
            Shelf::One => &self.one,
            Shelf::Two => &self.two,
            Shelf::Three => &self.three,
        }
    }

    /// What it should hold.
    #[tactic(auto, unfolding(crate::specs::Seen::room_of))]
    pub fn truth(&self) -> &MemBytes
        ensures on { result.now ≡ on self.now self.now.truth_on }
        ensures bytes { bytes_of result.now ≡ (room_of self.now).truth }
    {
        self.on(self.truth_on)
    }

    /// What it held before its last write.
    #[tactic(auto, unfolding(crate::specs::Seen::room_of))]
    pub fn before(&self) -> &MemBytes
        ensures { bytes_of result.now ≡ (room_of self.now).before }
    {
        self.on(self.before_on)
    }

    /// What it reads as, without its mark.
    #[tactic(auto, unfolding(crate::specs::Seen::room_of))]
    pub fn reading(&self) -> Option<&Sector>
        ensures { option_map (λ s. marked (read_mark_of self.now) s.now.bytes) result ≡ (room_of self.now).reads }
    {
        match self.reads {
            MemReads::Truth => Some(self.truth().raw()),
            MemReads::Lie => Some(&self.lie),
            MemReads::Nothing => None,
        }
    }

    /// The mark of what it reads as.
    pub fn read_mark(&self) -> Mark
        ensures { result ≡ read_mark_of self.now }
    {
        match self.reads {
            MemReads::Truth => self.truth().mark(),
            MemReads::Lie | MemReads::Nothing => Mark::Plain,
        }
    }

    /// Whether it surely reads as zeros, by what is noted of it.
    #[tactic(auto, unfolding(crate::specs::Seen::bytes_of, crate::specs::Seen::room_of))]
    pub fn is_noted(&self) -> bool
        ensures { result ≡ true → (room_of self.now).reads ≡ Some (copies 512 0) }
    {
        match self.reads {
            MemReads::Truth => self.truth().zeros,
            MemReads::Lie | MemReads::Nothing => false,
        }
    }

    // Puts these bytes on a shelf.
    fn put(&mut self, shelf: Shelf, mark: Mark, bytes: &[u8])
        requires { length bytes.now ≡ 512 }
        ensures same { self.new ≡ put_on self.old shelf (on self.new shelf) }
        ensures bytes { held_on self.new shelf ≡ marked mark bytes.now }
        ensures content { IsContent bytes.now }
    {
        match shelf {
            Shelf::One => self.one.set(mark, bytes),
            Shelf::Two => self.two.set(mark, bytes),
            Shelf::Three => self.three.set(mark, bytes),
        }
    }

    // It should hold these bytes from now on. What it should have held stays on its shelf, and so does what it held before its
    // last write. Nothing is copied where it should hold these bytes already.
    fn hold(&mut self, mark: Mark, bytes: &[u8])
        requires { length bytes.now ≡ 512 }
        ensures holds { Holds self.old self.new (marked mark bytes.now) }
        ensures content { IsContent bytes.now }
    {
        if self.truth().is(mark, bytes) {
            return;
        }
        let free = Shelf::free(self.truth_on, self.before_on);
        self.put(free, mark, bytes);
        self.truth_on = free;
    }

    /// Writes these bytes.
    #[tactic(auto, using(crate::proofs::Shelves::written_room))]
    pub fn write(&mut self, mark: Mark, bytes: &[u8])
        requires { length bytes.now ≡ 512 }
        ensures written { IsWritten self.old self.new (marked mark bytes.now) }
        ensures content { IsContent bytes.now }
    {
        let last = self.truth_on;
        self.hold(mark, bytes);
        self.before_on = last;
        self.reads = MemReads::Truth;
    }

    /// From now on it reads as these bytes.
    pub fn show(&mut self, bytes: &[u8])
        requires { length bytes.now ≡ 512 }
        ensures room { self.new ≡ shown self.old bytes.now }
        ensures content { IsContent bytes.now }
    {
        self.lie.bytes.copy_from_slice(bytes);
        self.reads = MemReads::Lie;
    }

    /// From now on it can't be read.
    pub fn hide(&mut self)
        ensures { self.new ≡ hidden self.old }
    {
        self.reads = MemReads::Nothing;
    }

    /// What a sector was that waits, copied out.
    pub fn copied(&self, was: &MemWaiting) -> MemKept
        ensures { result ≡ copied was.now self.now }
    {
        MemKept {
            truth: *self.on(was.truth_on),
            before: *self.on(was.before_on),
            lie: self.lie,
        }
    }

    // Holds again what was copied out.
    fn take_back(&mut self, kept: &MemKept)
        ensures truth { held_on self.new self.new.truth_on ≡ bytes_of kept.now.truth }
        ensures before { held_on self.new self.new.before_on ≡ bytes_of kept.now.before }
        ensures lie { self.new.lie ≡ kept.now.lie }
    {
        self.one.take_from(&kept.truth);
        self.two.take_from(&kept.before);
        self.truth_on = Shelf::One;
        self.before_on = Shelf::Two;
        self.lie = kept.lie;
    }

    // Becomes what it was.
    #[tactic(auto, unfolding(crate::specs::Seen::room_of, crate::specs::Seen::was_of))]
    fn revert(&mut self, was: &MemWaiting, kept: &[MemKept])
        requires { place_end was.now.kept ≤ length kept.now }
        ensures { room_of self.new ≡ was_of kept.now was.now self.old }
    {
        match was.kept {
            Some(place) => self.take_back(&kept[place as usize]),
            None => {
                self.truth_on = was.truth_on;
                self.before_on = was.before_on;
            }
        }
        self.reads = was.reads;
    }

    /// What a stop leaves of it, by a digit and what it was.
    #[tactic(auto, unfolding(crate::specs::Seen::room_of))]
    pub fn settle(&mut self, digit: u64, was: &MemWaiting, kept: &[MemKept])
        requires { place_end was.now.kept ≤ length kept.now }
        ensures { room_of self.new ≡ settled_cell digit (was_of kept.now was.now self.old) (room_of self.old) }
    {
        if digit == 0 {
            self.revert(was, kept);
            return;
        }
        if digit != 1 {
            self.damage();
        }
        self.reads = MemReads::Truth;
    }

    // What it should hold has every bit turned. It stands on another shelf then, since what it held before may be on this one.
    #[tactic(auto, unfolding(crate::specs::Seen::room_of))]
    fn damage(&mut self)
        ensures truth { (room_of self.new).truth ≡ damaged (room_of self.old).truth }
        ensures before { (room_of self.new).before ≡ (room_of self.old).before }
    {
        let truth = self.truth();
        let mark = truth.mark();
        let damaged = damage(truth.raw());
        self.hold(mark, &damaged.bytes);
    }
}
