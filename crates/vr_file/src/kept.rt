//! A file's sectors in memory: what the cache says is to be done is done to the file.
ghost use Rattle.std.specs.Prelude.{◌≡◌, ◌<◌, ◌+◌, ◌∷◌, [], IfOk, OnErr, OnOk, None, Some, if◌then◌else◌, is_ok, true, false};
ghost use Rattle.vr_disk.specs.Regions.{sectors};
ghost use Rattle.vr_file.specs.Above.{Goes, IsAbove, ReadsFresh, Refreshes};
ghost use Rattle.vr_file.specs.Calls.{ReadsAgain, ReadsSpot, Spots};
ghost use Rattle.vr_io_policy.specs.Caches.{IsAlone, IsBlank, IsCache, IsWritten, cached, calls_left, forgot, is_clean, is_held, is_old, is_unknown, joins, learnt, new_cache, put};
ghost use Rattle.vr_io_policy.specs.Files.{sector_written, synced};
ghost use Rattle.vr_io_policy.specs.declared.cached.Cached.TheVariants.{Held};

use crate::page_file::PageFile;
use std::alloc::{AllocError, Global};
use std::io;
use vr_disk::{Sector, ZEROS};
use vr_io_policy::{Again, Next, PageBuffer, SectorCache};

/// Reads a sector, and again where that failed.
fn read_again<F: PageFile>(file: &mut F, i: u32, to: &mut Sector) -> io::Result<()>
    requires { i < sectors }
    ensures told { F.told file.new ≡ F.told file.old }
    ensures bytes { ReadsSpot i (F.told file.old) (if is_ok result then Some to.new.bytes else None) }
    ensures again { ReadsAgain i (0 ∷ (5 ∷ (5 ∷ []))) (is_ok result) (F.made file.old) (F.made file.new) }
{
    let mut again = Again::for_read();
    while again.times() > 0 {
        if file.read(i, to).is_ok() {
            return Ok(());
        }
        file.pause(again.pause());
    }
    file.read(i, to)
}

/// What is known of a file's sectors, and room for the bytes of a write.
#[derive(Drop)]
pub struct Kept {
    cache: SectorCache,
    buffer: PageBuffer,
    /// The last milliseconds of the clock.
    now: u64,
}

impl Kept {
    /// No sector is known. All its memory is taken here: some 2.1 MB.
    pub fn new(alloc: Global) -> Result<Kept, AllocError>
        ensures { IfOk result (λ k. k.cache ≡ new_cache) }
    {
        Ok(Kept {
            cache: SectorCache::new(alloc)?,
            buffer: PageBuffer::new(alloc)?,
            now: 0,
        })
    }

    /// Gives a sector that is known, and reads another one.
    fn look_up<F: PageFile>(&mut self, file: &mut F, i: u32, to: &mut Sector) -> io::Result<()>
        requires { i < sectors }
        ensures known { OnOk result (is_held (cached self.old.cache i) ≡ true → cached self.old.cache i ≡ Held to.new) }
        ensures learnt { OnOk result (self.new.cache ≡ learnt self.old.cache i (Held to.new)) }
        ensures failed { OnErr result (self.new.cache ≡ self.old.cache) }
        ensures held { OnOk result (cached self.new.cache i ≡ Held to.new) }
        ensures quiet { is_held (cached self.old.cache i) ≡ true → F.made file.new ≡ F.made file.old }
        ensures again { is_held (cached self.old.cache i) ≡ false → ReadsAgain i (0 ∷ (5 ∷ (5 ∷ []))) (is_ok result) (F.made file.old) (F.made file.new) }
        ensures given { (d : Spots) → IsAbove self.old.cache (F.told file.old) d → (d i).now ≡ (if is_ok result then Some to.new.bytes else None) }
        ensures above { (d : Spots) → IsAbove self.old.cache (F.told file.old) d → IsAbove self.new.cache (F.told file.new) d }
    {
        if !self.cache.recall(i, to) {
            read_again(file, i, to)?;
            self.cache.note(i, to);
        }
        Ok(())
    }

    /// Takes the time. Once a minute has passed since it did so last, those are forgotten that don't wait, and the file is to be read anew.
    fn refresh<F: PageFile>(&mut self, file: &mut F)
        ensures fresh { Refreshes self.old.cache self.new.cache (F.made file.old) (F.made file.new) }
        ensures above { (d : Spots) → IsAbove self.old.cache (F.told file.old) d → IsAbove self.new.cache (F.told file.new) d }
    {
        self.now = file.millis(self.now);
        if self.cache.refresh(self.now) {
            file.renew();
        }
    }

    /// Reads a sector, from memory where it is known since less than a minute, or waits.
    pub fn read<F: PageFile>(&mut self, file: &mut F, i: u32, to: &mut Sector) -> io::Result<()>
        requires { i < sectors }
        ensures held { OnOk result (cached self.new.cache i ≡ Held to.new) }
        ensures fresh { ReadsFresh i (is_ok result) self.old.cache (F.made file.old) (F.made file.new) }
        ensures given { (d : Spots) → IsAbove self.old.cache (F.told file.old) d → (d i).now ≡ (if is_ok result then Some to.new.bytes else None) }
        ensures above { (d : Spots) → IsAbove self.old.cache (F.told file.old) d → IsAbove self.new.cache (F.told file.new) d }
    {
        self.refresh(file);
        self.look_up(file, i, to)
    }

    /// Writes what a sector can't wait with.
    fn make_room<F: PageFile>(&mut self, file: &mut F, i: u32) -> io::Result<()>
        ensures joins { OnOk result (joins self.new.cache i ≡ true) }
        ensures sound { OnOk result (IsCache self.new.cache) }
        ensures same { joins self.old.cache i ≡ true → self.new.cache ≡ self.old.cache }
        ensures clean { OnOk result (joins self.old.cache i ≡ false → is_clean self.new.cache ≡ true) }
        ensures kept { (k : _) → is_held (cached self.old.cache k) ≡ true → cached self.new.cache k ≡ cached self.old.cache k }
        ensures above { (d : Spots) → IsAbove self.old.cache (F.told file.old) d → Goes self.new.cache (F.told file.new) (λ e. e) d }
    {
        if self.cache.joins(i) {
            return Ok(());
        }
        self.flush(file)
    }

    /// Has a sector wait to be written. What it can't wait with is written first; where that fails it doesn't wait.
    pub fn write<F: PageFile>(&mut self, file: &mut F, i: u32, from: &Sector) -> io::Result<()>
        requires { i < sectors }
        ensures joins { OnOk result (joins self.old.cache i ≡ true → self.new.cache ≡ put self.old.cache i from.now) }
        ensures alone { OnOk result (joins self.old.cache i ≡ false → (self.new.cache.first ≡ i) × (self.new.cache.end ≡ i + 1)) }
        ensures held { OnOk result (cached self.new.cache i ≡ Held from.now) }
        ensures above { OnOk result ((d : Spots) → IsAbove self.old.cache (F.told file.old) d → Goes self.new.cache (F.told file.new) (λ e. sector_written e i from.now.bytes) d) }
        ensures failed { OnErr result ((d : Spots) → IsAbove self.old.cache (F.told file.old) d → Goes self.new.cache (F.told file.new) (λ e. e) d) }
    {
        self.make_room(file, i)?;
        self.cache.put(i, from);
        Ok(())
    }

    /// Reads a sector beside one that waits, which is written with it.
    fn read_neighbor<F: PageFile>(&mut self, file: &mut F, i: u32)
        requires within { i < sectors }
        requires sound { IsCache self.old.cache }
        ensures fewer { is_unknown (cached self.old.cache i) ≡ true → calls_left self.new.cache < calls_left self.old.cache }
        ensures kept { (k : _) → is_held (cached self.old.cache k) ≡ true → cached self.new.cache k ≡ cached self.old.cache k }
        ensures above { (d : Spots) → IsAbove self.old.cache (F.told file.old) d → IsAbove self.new.cache (F.told file.new) d }
    {
        let mut sector = ZEROS;
        match read_again(file, i, &mut sector) {
            Ok(()) => self.cache.note(i, &sector),
            Err(_) => self.cache.note_unread(i),
        }
    }

    /// Writes those that wait alone, since a neighbor couldn't be read: it may be read later, and so keeps what it has. Where that fails they still wait.
    fn write_alone<F: PageFile>(&mut self, file: &mut F, first: u32)
        requires sound { IsCache self.old.cache }
        requires alone { IsAlone self.old.cache first }
        ensures fewer { calls_left self.new.cache < calls_left self.old.cache }
        ensures kept { (k : _) → cached self.new.cache k ≡ cached self.old.cache k }
        ensures above { (d : Spots) → IsAbove self.old.cache (F.told file.old) d → IsAbove self.new.cache (F.told file.new) d }
    {
        match file.write(first, self.buffer.gather_waiting(&self.cache)) {
            Ok(()) => self.cache.flush(),
            Err(_) => self.cache.note_not_alone(),
        }
    }

    /// Writes the pages in which some wait.
    fn write_pages<F: PageFile>(&mut self, file: &mut F, first: u32) -> io::Result<()>
        requires sound { IsCache self.old.cache }
        requires written { IsWritten self.old.cache first }
        ensures fewer { OnOk result (calls_left self.new.cache < calls_left self.old.cache) }
        ensures kept { (k : _) → cached self.new.cache k ≡ cached self.old.cache k }
        ensures above { (d : Spots) → IsAbove self.old.cache (F.told file.old) d → Goes self.new.cache (F.told file.new) (λ e. e) d }
    {
        file.write(first, self.buffer.gather(&self.cache))?;
        self.cache.flush();
        Ok(())
    }

    /// Does what is to be done next, and says whether nothing waits.
    fn go_on<F: PageFile>(&mut self, file: &mut F) -> io::Result<bool>
        ensures clean { IfOk result (λ done. done ≡ true → is_clean self.new.cache ≡ true) }
        ensures sound { IfOk result (λ done. done ≡ true → IsCache self.new.cache) }
        ensures fewer { IfOk result (λ done. done ≡ false → calls_left self.new.cache < calls_left self.old.cache) }
        ensures kept { (k : _) → is_held (cached self.old.cache k) ≡ true → cached self.new.cache k ≡ cached self.old.cache k }
        ensures above { (d : Spots) → IsAbove self.old.cache (F.told file.old) d → Goes self.new.cache (F.told file.new) (λ e. e) d }
    {
        match self.cache.next() {
            Next::Nothing => return Ok(true),
            Next::Read(i) => self.read_neighbor(file, i),
            Next::WriteAlone(first) => self.write_alone(file, first),
            Next::Write(first) => self.write_pages(file, first)?,
        }
        Ok(false)
    }

    /// Writes the sectors that wait. After an `Err` they still do.
    pub fn flush<F: PageFile>(&mut self, file: &mut F) -> io::Result<()>
        ensures clean { OnOk result (is_clean self.new.cache ≡ true) }
        ensures sound { OnOk result (IsCache self.new.cache) }
        ensures kept { (k : _) → is_held (cached self.old.cache k) ≡ true → cached self.new.cache k ≡ cached self.old.cache k }
        ensures above { (d : Spots) → IsAbove self.old.cache (F.told file.old) d → Goes self.new.cache (F.told file.new) (λ e. e) d }
    {
        while !self.go_on(file)? {}
        Ok(())
    }

    /// Writes the sectors that wait, and makes what was written stay.
    pub fn sync<F: PageFile>(&mut self, file: &mut F) -> io::Result<()>
        ensures clean { OnOk result (is_clean self.new.cache ≡ true) }
        ensures kept { (k : _) → is_held (cached self.old.cache k) ≡ true → cached self.new.cache k ≡ cached self.old.cache k }
        ensures above { OnOk result ((d : Spots) → IsAbove self.old.cache (F.told file.old) d → Goes self.new.cache (F.told file.new) synced d) }
        ensures failed { OnErr result ((d : Spots) → IsAbove self.old.cache (F.told file.old) d → Goes self.new.cache (F.told file.new) (λ e. e) d) }
    {
        self.flush(file)?;
        file.sync()
    }

    /// Writes the sectors that wait, and forgets all of them: the file may be let go. After an `Err` those still wait.
    pub fn let_go<F: PageFile>(&mut self, file: &mut F) -> io::Result<()>
        ensures blank { OnOk result (IsBlank self.new.cache) }
        ensures above { (d : Spots) → IsAbove self.old.cache (F.told file.old) d → Goes self.new.cache (F.told file.new) (λ e. e) d }
    {
        self.flush(file)?;
        self.now = file.millis(self.now);
        self.cache.forget(self.now);
        Ok(())
    }
}
