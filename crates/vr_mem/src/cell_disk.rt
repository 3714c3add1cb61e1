//! A disk in memory whose sectors may read as something else than they should hold.
ghost use Rattle.std.specs.Prelude.{◌≡◌, ◌-◌, ◌≤◌, ◌<◌, ℕ, List, length, Some, None, false, true, [], IfOk, IfSome, is_ok};
ghost use Rattle.std.specs.Option.{option_map};
ghost use Rattle.vr_base.specs.Causes.{HasCause};
ghost use Rattle.vr_disk.specs.DiskState.{Sync, Write, after, cell, digit_at, judged, nothing_beside, settle, reads};
ghost use Rattle.vr_disk.specs.Fronts.{front};
ghost use Rattle.vr_mem.specs.Lies.{lied};
ghost use Rattle.vr_mem.specs.Owed.{AreFree, AreSectors, IsFree, begins_copy, meant, stands_for, text_of};
ghost use Rattle.vr_mem.specs.Calls.{call_verdict};
ghost use Rattle.vr_mem.specs.Seen.{bytes_of, copies, face_of, zero_cell};

use crate::fate::{MemFate, MemFuse, MemVerdict};
use crate::name::DiskName;
use crate::texts::{TEXT_SIZE, TextNumber, Texts};
use crate::{Mark, MemBytes, MemFace};
use std::alloc::Global;
use vr_base::{NoMemory, Sum};
use vr_disk::{
    COPIES, COPY_SECTORS, DiskFailed, Memo, NAME_MOST, Room, SECTORS, Sector, SectorDisk, ZEROS,
    front_sector,
};

/// A disk of 3,984 sectors in memory, by whatever name it is attached. A read gives what the sector reads as, and fails where
/// it can't be read.
#[derive(Drop)]
pub struct CellDisk {
    face: MemFace,
    texts: Texts,
    fate: MemFate,
    faults: u64,
    read_faults: u64,
    memo: Memo,
    name: DiskName,
    ghost sectors: { AreSectors texts face },
}

// Whether a copy of the superblock begins with this sector.
fn begins_copy(i: u32) -> bool
    ensures { result ≡ begins_copy i }
{
    i < COPIES * COPY_SECTORS && i % COPY_SECTORS == 0
}

impl CellDisk {
    ghost use Rattle.vr_mem.specs.Cells.{disk_of};

    /// A disk of zeros, of which no call is to fail. All its memory is taken here.
    pub fn new(alloc: Global) -> Result<CellDisk, NoMemory>
        ensures face { IfOk result (λ m. (disk_of m).face ≡ record { cells = copies SECTORS zero_cell; waiting = [] }) }
        ensures fate { IfOk result (λ m. (disk_of m).fate ≡ record { fuse = None; made = 0; failing = []; dead = false }) }
        ensures beside { IfOk result (λ m. (disk_of m).beside ≡ nothing_beside) }
        ensures faults { IfOk result (λ m. m.faults ≡ 0) }
        ensures read_faults { IfOk result (λ m. m.read_faults ≡ 0) }
    {
        Ok(CellDisk {
            face: MemFace::new(alloc)?,
            texts: Texts::new(alloc)?,
            fate: MemFate {
                fuse: None,
                made: 0,
                failing: Vec::new(alloc),
                dead: false,
            },
            faults: 0,
            read_faults: 0,
            memo: Memo::new(alloc)?,
            name: DiskName::none(alloc)?,
        })
    }

    /// The calls of attach, write and sync with these numbers are to fail, counted from 1 from now on.
    pub fn fail(&mut self, list: Vec<u64>)
        ensures told { disk_of self.new ≡ record (disk_of self.old) { fate = record (disk_of self.old).fate { made = 0; failing = list.items } } }
        ensures faults { self.new.faults ≡ self.old.faults }
        ensures read_faults { self.new.read_faults ≡ self.old.read_faults }
    {
        self.fate.made = 0;
        self.fate.failing = list;
    }

    /// The `j`-th write or sync from now on is cut by this code. It takes the place of an earlier fuse.
    pub fn fuse(&mut self, j: u64, code: u64)
        requires { 1 ≤ j }
        ensures told { disk_of self.new ≡ record (disk_of self.old) { fate = record (disk_of self.old).fate { fuse = Some (record { calls = j - 1; code = code }) } } }
        ensures faults { self.new.faults ≡ self.old.faults }
        ensures read_faults { self.new.read_faults ≡ self.old.read_faults }
    {
        self.fate.fuse = Some(MemFuse { calls: j - 1, code });
    }

    /// Whether the fuse has cut a call: each later attach, write and sync fails, until `revive`.
    pub fn fired(&self) -> bool
        ensures { result ≡ (disk_of self.now).fate.dead }
    {
        self.fate.dead
    }

    /// The next calls go through again.
    pub fn revive(&mut self)
        ensures told { disk_of self.new ≡ record (disk_of self.old) { fate = record (disk_of self.old).fate { dead = false } } }
        ensures faults { self.new.faults ≡ self.old.faults }
        ensures read_faults { self.new.read_faults ≡ self.old.read_faults }
    {
        self.fate.dead = false;
    }

    // What a content stands for.
    fn meant(&self, content: &MemBytes) -> Sector
        ensures { result.bytes ≡ meant self.now.texts (bytes_of content.now) }
    {
        self.texts.meant(content.mark(), &content.raw().bytes)
    }

    /// What a sector should hold. Where its name is owed, it is made.
    pub fn truth(&self, i: u32) -> Sector
        requires { i < SECTORS }
        ensures { result.bytes ≡ (cell (disk_of self.now).face i).truth }
    {
        self.meant(self.face.truth(i))
    }

    /// What a sector held before its last write. Where its name is owed, it is made.
    pub fn before(&self, i: u32) -> Sector
        requires { i < SECTORS }
        ensures { result.bytes ≡ (cell (disk_of self.now).face i).before }
    {
        self.meant(self.face.before(i))
    }

    /// What a sector reads as, `None` where it can't be read. Those of the superblock are read by `read` and `reads_as`, since a
    /// name may be still to be made there.
    pub fn reading(&self, i: u32) -> Option<&Sector>
        requires own { 80 ≤ i }
        requires within { i < SECTORS }
        ensures { option_map (λ s. s.now.bytes) result ≡ reads (disk_of self.now).face i }
    {
        self.face.reading(i)
    }

    /// From now on a sector reads as this, until it is written.
    pub fn show(&mut self, i: u32, sector: &Sector)
        requires { i < SECTORS }
        ensures told { disk_of self.new ≡ record (disk_of self.old) { face = lied (disk_of self.old).face i (Some sector.now.bytes) } }
        ensures faults { self.new.faults ≡ self.old.faults }
        ensures read_faults { self.new.read_faults ≡ self.old.read_faults }
    {
        self.face.show(i, sector);
    }

    /// From now on a sector can't be read, until it is written.
    pub fn hide(&mut self, i: u32)
        requires { i < SECTORS }
        ensures told { disk_of self.new ≡ record (disk_of self.old) { face = lied (disk_of self.old).face i None } }
        ensures faults { self.new.faults ≡ self.old.faults }
        ensures read_faults { self.new.read_faults ≡ self.old.read_faults }
    {
        self.face.hide(i);
    }

    /// What becomes of the next write or sync, which this counts.
    pub fn judge(&mut self) -> MemVerdict
        ensures verdict { call_verdict result ≡ (judged (disk_of self.old).fate).verdict }
        ensures told { disk_of self.new ≡ record (disk_of self.old) { fate = (judged (disk_of self.old).fate).next } }
        ensures faults { self.new.faults ≡ self.old.faults }
        ensures read_faults { self.new.read_faults ≡ self.old.read_faults }
    {
        self.fate.judge()
    }

    /// A write that goes through.
    pub fn put(&mut self, i: u32, from: &Sector)
        requires { i < SECTORS }
        ensures told { disk_of self.new ≡ record (disk_of self.old) { face = after (disk_of self.old).face (Write i from.now.bytes) } }
        ensures faults { self.new.faults ≡ self.old.faults }
        ensures read_faults { self.new.read_faults ≡ self.old.read_faults }
    {
        self.face.write(i, Mark::Plain, from);
    }

    // Whether no content of a sector stands for the text of this number.
    fn is_free_at(&self, i: u32, number: TextNumber) -> bool
        requires { i < SECTORS }
        ensures { result ≡ true → IsFree number (cell (face_of self.now.face) i) }
    {
        let truth = self.face.truth(i);
        let before = self.face.before(i);
        !number.stands(truth.mark(), &truth.raw().bytes)
            && !number.stands(before.mark(), &before.raw().bytes)
            && !self.reads_as_number(i, number)
    }

    // Whether a sector reads as what stands for the text of this number.
    fn reads_as_number(&self, i: u32, number: TextNumber) -> bool
        requires { i < SECTORS }
        ensures { result ≡ false → (x : List ℕ) → reads (face_of self.now.face) i ≡ Some x → stands_for number x ≡ false }
    {
        match self.face.reading(i) {
            Some(sector) => number.stands(self.face.read_mark(i), &sector.bytes),
            None => false,
        }
    }

    // Whether no sector that begins a copy of the superblock stands for the text of this number.
    fn is_free(&self, number: TextNumber) -> bool
        ensures { result ≡ true → AreFree number (face_of self.now.face) }
    {
        self.is_free_at(0, number)
            && self.is_free_at(COPY_SECTORS, number)
            && self.is_free_at(2 * COPY_SECTORS, number)
            && self.is_free_at(3 * COPY_SECTORS, number)
    }

    // A number whose text no sector stands for, `None` where there may be none. What a sector was that waits for a sync isn't
    // looked at, though a stop may bring it back: so there is none as long as one waits.
    fn free_number(&self) -> Option<TextNumber>
        ensures free { IfSome result (λ k. AreFree k (face_of self.now.face)) }
        ensures waiting { IfSome result (λ k. (face_of self.now.face).waiting ≡ []) }
    {
        if !self.face.none_waits() {
            return None;
        }
        if self.is_free(TextNumber::One) {
            return Some(TextNumber::One);
        }
        if self.is_free(TextNumber::Two) {
            return Some(TextNumber::Two);
        }
        if self.is_free(TextNumber::Three) {
            return Some(TextNumber::Three);
        }
        None
    }

    // Keeps a text under a number that no sector stands for.
    fn keep(&mut self, number: TextNumber, text: &[u8])
        requires size { length text.now ≡ 10224 }
        requires free { AreFree number (face_of self.old.face) }
        requires waiting { (face_of self.old.face).waiting ≡ [] }
        ensures text { text_of self.new.texts number ≡ text.now }
        ensures told { disk_of self.new ≡ disk_of self.old }
        ensures faults { self.new.faults ≡ self.old.faults }
        ensures read_faults { self.new.read_faults ≡ self.old.read_faults }
    {
        self.texts.keep(number, text);
    }

    // The number of this text, which is kept where it has none; `None` where a sector can't be owed to it.
    fn number_for(&mut self, i: u32, text: &[u8]) -> Option<TextNumber>
        ensures front { IfSome result (λ k. begins_copy i ≡ true) }
        ensures text { IfSome result (λ k. text_of self.new.texts k ≡ text.now) }
        ensures told { disk_of self.new ≡ disk_of self.old }
        ensures faults { self.new.faults ≡ self.old.faults }
        ensures read_faults { self.new.read_faults ≡ self.old.read_faults }
    {
        if !begins_copy(i) || text.len() != TEXT_SIZE {
            return None;
        }
        if let Some(number) = self.texts.find(text) {
            return Some(number);
        }
        let number = self.free_number()?;
        self.keep(number, text);
        Some(number)
    }

    // A write that goes through of the name of the text of this number, and the text after it as far as it fits.
    fn owe(&mut self, i: u32, number: TextNumber, text: &[u8])
        requires front { begins_copy i ≡ true }
        requires within { i < SECTORS }
        requires size { 496 ≤ length text.now }
        requires text { text_of self.old.texts number ≡ text.now }
        ensures told { disk_of self.new ≡ record (disk_of self.old) { face = after (disk_of self.old).face (Write i (front text.now)) } }
        ensures faults { self.new.faults ≡ self.old.faults }
        ensures read_faults { self.new.read_faults ≡ self.old.read_faults }
    {
        let full = Sector {
            bytes: [number.byte(); 512],
        };
        self.face.write(i, Mark::Owed, &full);
    }

    /// A write that goes through of the name of a text, and the text after it as far as it fits. Where a copy of the superblock
    /// begins, the name may be made only when the sector is read.
    pub fn put_named(&mut self, i: u32, room: Room, text: &[u8])
        requires i { i < SECTORS }
        requires size { 496 ≤ length text.now }
        ensures told { disk_of self.new ≡ record (disk_of self.old) { face = after (disk_of self.old).face (Write i (front text.now)) } }
        ensures faults { self.new.faults ≡ self.old.faults }
        ensures read_faults { self.new.read_faults ≡ self.old.read_faults }
    {
        match self.number_for(i, text) {
            Some(number) => self.owe(i, number, text),
            None => {
                let name = self.memo.name_of(room, text);
                self.put(i, &front_sector(name, text));
            }
        }
    }

    // Whether a sector surely reads as the name of this text, and the text after it as far as it fits.
    fn begins(&self, i: u32, text: &[u8]) -> bool
        requires { i < SECTORS }
        ensures { result ≡ true → reads (disk_of self.now).face i ≡ Some (front text.now) }
    {
        match self.face.reading(i) {
            Some(sector) => self
                .texts
                .begins(self.face.read_mark(i), &sector.bytes, text),
            None => false,
        }
    }

    /// A sync that goes through.
    pub fn clear(&mut self)
        ensures told { disk_of self.new ≡ record (disk_of self.old) { face = after (disk_of self.old).face Sync } }
        ensures faults { self.new.faults ≡ self.old.faults }
        ensures read_faults { self.new.read_faults ≡ self.old.read_faults }
    {
        self.face.sync();
    }

    /// What a stop leaves of the sectors that wait.
    pub fn settle(&mut self, code: u64)
        ensures told { disk_of self.new ≡ record (disk_of self.old) { face = settle code (disk_of self.old).face } }
        ensures faults { self.new.faults ≡ self.old.faults }
        ensures read_faults { self.new.read_faults ≡ self.old.read_faults }
    {
        self.face.settle(code);
    }

    /// The digit of the code by which a sector that waits is settled, 0 where it doesn't wait.
    pub fn digit(&self, code: u64, i: u32) -> u64
        ensures { result ≡ digit_at code i (disk_of self.now).face.waiting }
    {
        self.face.digit(code, i)
    }

    /// A call that fails.
    pub fn fault(&mut self) -> Result<(), DiskFailed>
        ensures failed { is_ok result ≡ false }
        ensures cause { HasCause self.old.faults self.new.faults result }
        ensures same { disk_of self.new ≡ disk_of self.old }
        ensures others { self.new.read_faults ≡ self.old.read_faults }
    {
        self.faults = self.faults.saturating_add(1);
        Err(DiskFailed)
    }
}

impl SectorDisk for CellDisk {
    ghost use Rattle.vr_mem.specs.Cells.{disk_of, told_is_whole};

    ghost told = { λ m. Some (disk_of m) };

    ghost faults = { λ m. m.faults };

    ghost read_faults = { λ m. m.read_faults };

    ghost whole = { told_is_whole };

    #[tactic(auto, unfolding(vr_disk::specs::DiskState::attached))]
    fn attach(&mut self, name: &str) -> Result<(), DiskFailed> {
        if !self.fate.judge_attach() || name.len() > NAME_MOST {
            return self.fault();
        }
        self.clear();
        self.name.set(name.as_bytes());
        Ok(())
    }

    fn read(&mut self, i: u32, to: &mut Sector) -> Result<(), DiskFailed> {
        if let Some(sector) = self.face.reading(i) {
            self.texts
                .copy(self.face.read_mark(i), &sector.bytes, &mut self.memo, to);
            return Ok(());
        }
        self.read_faults = self.read_faults.saturating_add(1);
        Err(DiskFailed)
    }

    fn reads_as(&mut self, i: u32, bytes: &[u8]) -> bool {
        match self.face.reading(i) {
            Some(sector) => self.texts.is(
                self.face.read_mark(i),
                &sector.bytes,
                &mut self.memo,
                bytes,
            ),
            None => false,
        }
    }

    fn reads_zeros(&mut self, i: u32) -> bool {
        if begins_copy(i) {
            return self.reads_as(i, &ZEROS.bytes);
        }
        self.face.reads_zeros(i)
    }

    #[tactic(auto, using(vr_disk::proofs::Running::one_goes, vr_disk::proofs::Running::one_fails, vr_disk::proofs::Running::write_cuts))]
    fn write(&mut self, i: u32, from: &Sector) -> Result<(), DiskFailed> {
        match self.judge() {
            MemVerdict::Goes => {
                self.put(i, from);
                Ok(())
            }
            MemVerdict::Fails => self.fault(),
            MemVerdict::Cuts(code) => {
                self.put(i, from);
                self.settle(code);
                self.fault()
            }
        }
    }

    #[tactic(auto, using(vr_disk::proofs::Running::one_goes, vr_disk::proofs::Running::one_fails, vr_disk::proofs::Running::sync_cuts))]
    fn sync(&mut self) -> Result<(), DiskFailed> {
        match self.judge() {
            MemVerdict::Goes => {
                self.clear();
                Ok(())
            }
            MemVerdict::Fails => self.fault(),
            MemVerdict::Cuts(code) => {
                self.settle(code);
                self.fault()
            }
        }
    }

    #[tactic(auto, using(vr_disk::proofs::Running::one_goes, vr_disk::proofs::Running::one_fails, vr_disk::proofs::Running::write_cuts))]
    fn write_front(&mut self, i: u32, room: Room, text: &[u8]) -> Result<(), DiskFailed> {
        match self.judge() {
            MemVerdict::Goes => {
                self.put_named(i, room, text);
                Ok(())
            }
            MemVerdict::Fails => self.fault(),
            MemVerdict::Cuts(code) => {
                self.put_named(i, room, text);
                self.settle(code);
                self.fault()
            }
        }
    }

    fn reads_front(&mut self, i: u32, room: Room, text: &[u8]) -> bool {
        if self.begins(i, text) {
            return true;
        }
        let name = self.memo.name_of(room, text);
        self.reads_as(i, &front_sector(name, text).bytes)
    }

    fn name_of(&mut self, room: Room, bytes: &[u8]) -> Sum {
        self.memo.name_of(room, bytes)
    }

    fn keep_name(&mut self, room: Room, bytes: &[u8], name: Sum) {
        self.memo.keep(room, bytes, name);
    }
}
