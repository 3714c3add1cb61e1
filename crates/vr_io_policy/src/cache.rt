//! Which sectors of a file are known, which of them wait to be written, what is to be done next about them, and when they are forgotten.
ghost use Rattle.std.specs.Prelude.{◌≡◌, ◌<◌, ◌≤◌, ◌-◌, ◌++◌, IfOk, IfSome, None, drop, length, replicate, slice_index_or, take, true, false, if◌then◌else◌};
ghost use Rattle.std.specs.List.{between};
ghost use Rattle.vr_io_policy.specs.Caches.{IsCache, IsNext, IsReady, cached, flushed, forgot, is_held, is_old, is_unknown, is_unread, joins, learnt, new_cache, not_alone, pages, pages_end, pages_first, put, waiting, waits};
ghost use Rattle.vr_io_policy.specs.declared.cached.Cached.TheVariants.{Held, Unknown, Unread};

use crate::cached::Cached;
use std::alloc::{AllocError, Global};
use std::marker::Model;
use vr_disk::{SECTORS, Sector};

/// How many sectors may wait.
const WAITING: u32 = 64;

/// The number of sectors of a page of 4,096 bytes. The file's 3,984 sectors are 498 whole pages.
pub const PAGE_SECTORS: u32 = 8;

const _: () = prove!(498 * PAGE_SECTORS == SECTORS);

/// For how many milliseconds what was read is known.
const MILLIS: u64 = 60_000;

/// What is to be done next so that nothing waits.
#[derive(Clone, Copy, Debug, PartialEq, Eq)]
pub enum Next {
    /// Nothing waits.
    Nothing,
    /// This sector is to be read: it is in a page with one that waits.
    Read(u32),
    /// Those that wait are to be written alone, from this sector on, since a neighbor couldn't be read.
    WriteAlone(u32),
    /// The pages are to be written, from this sector on.
    Write(u32),
}

/// Each of the 3,984 sectors of a file as far as it is known, and which of them wait to be written: neighbors, at most 64.
#[derive(Drop)]
pub struct SectorCache {
    sectors: Vec<Cached>,
    first: u32,
    end: u32,
    tried: bool,
    forgotten: u64,
}

impl Model for SectorCache {
    ghost use Rattle.vr_io_policy.specs.Caches.{Cache, IsCache};

    ghost Value = { Cache };

    ghost view = { λ c. record { sectors = c.sectors.items; first = c.first; end = c.end; tried = c.tried; forgotten = c.forgotten } };

    ghost invariant = { λ c. IsCache (record { sectors = c.sectors.items; first = c.first; end = c.end; tried = c.tried; forgotten = c.forgotten }) };
}

/// So many sectors that aren't known.
fn unknown(alloc: Global, count: u32) -> Result<Vec<Cached>, AllocError>
    ensures { IfOk result (λ v. v.items ≡ replicate count Unknown) }
{
    let mut sectors = Vec::new(alloc);
    sectors.resize(count as usize, Cached::Unknown)?;
    Ok(sectors)
}

/// The first ones aren't known any more.
fn forget_front(sectors: &mut [Cached], count: usize)
    requires { count ≤ length sectors.old }
    ensures { sectors.new ≡ replicate count Unknown ++ drop count sectors.old }
{
    sectors[..count].fill(Cached::Unknown);
}

/// Those after the first ones aren't known any more.
fn forget_back(sectors: &mut [Cached], count: usize)
    requires { count ≤ length sectors.old }
    ensures { sectors.new ≡ take count sectors.old ++ replicate (length sectors.old - count) Unknown }
{
    sectors[count..].fill(Cached::Unknown);
}

/// Those aren't known any more that stand before `first`, or not before `end`.
fn forget_around(sectors: &mut [Cached], first: usize, end: usize)
    requires order { first ≤ end }
    requires within { end ≤ length sectors.old }
    ensures { sectors.new ≡ replicate first Unknown ++ (between first end sectors.old ++ replicate (length sectors.old - end) Unknown) }
{
    forget_back(sectors, end);
    forget_front(sectors, first);
}

/// The first one from a place on, and before an end, that isn't known and wasn't tried to be read.
fn first_unknown(sectors: &[Cached], from: u32, end: u32) -> Option<u32>
    requires { end ≤ length sectors.now }
    ensures found { IfSome result (λ i. (from ≤ i) × (i < end) × (is_unknown (slice_index_or sectors.now i Unknown) ≡ true)) }
    ensures none { result ≡ None → (k : _) → from ≤ k → k < end → is_unknown (slice_index_or sectors.now k Unknown) ≡ false }
{
    for i in from..end {
        if sectors[i as usize].is_unknown() {
            return Some(i);
        }
    }
    None
}

/// The first one from a place on, and before an end, that couldn't be read.
fn first_unread(sectors: &[Cached], from: u32, end: u32) -> Option<u32>
    requires { end ≤ length sectors.now }
    ensures found { IfSome result (λ i. (from ≤ i) × (i < end) × (is_unread (slice_index_or sectors.now i Unknown) ≡ true)) }
    ensures none { result ≡ None → (k : _) → from ≤ k → k < end → is_unread (slice_index_or sectors.now k Unknown) ≡ false }
{
    for i in from..end {
        if sectors[i as usize].is_unread() {
            return Some(i);
        }
    }
    None
}

impl SectorCache {
    /// No sector is known. All its memory is taken here.
    pub fn new(alloc: Global) -> Result<SectorCache, AllocError>
        ensures { IfOk result (λ c. c ≡ new_cache) }
    {
        Ok(SectorCache {
            sectors: unknown(alloc, SECTORS)?,
            first: 0,
            end: 0,
            tried: false,
            forgotten: 0,
        })
    }

    /// Gives a sector where it is known, and says whether it is.
    pub fn recall(&self, i: u32, to: &mut Sector) -> bool
        requires { i < SECTORS }
        ensures known { result ≡ is_held (cached self.now i) }
        ensures bytes { result ≡ true → cached self.now i ≡ Held to.new }
        ensures sound { IsCache self.now }
    {
        match self.sectors[i as usize] {
            Cached::Held(sector) => {
                *to = sector;
                true
            }
            _ => false,
        }
    }

    /// Whether a sector waits to be written.
    fn waits(&self, i: u32) -> bool
        ensures { result ≡ waits self.now i }
    {
        self.first <= i && i < self.end
    }

    /// Whether a sector may wait with those that do.
    pub fn joins(&self, i: u32) -> bool
        ensures value { result ≡ joins self.now i }
        ensures sound { IsCache self.now }
    {
        self.first == self.end
            || self.waits(i)
            || (i == self.end && self.end - self.first < WAITING)
    }

    /// Has a sector wait, with what is written to it.
    pub fn put(&mut self, i: u32, from: &Sector)
        requires i { i < SECTORS }
        requires joins { joins self.old i ≡ true }
        ensures { self.new ≡ put self.old i from.now }
    {
        self.sectors[i as usize] = Cached::Held(*from);
        if self.first == self.end {
            self.first = i;
            self.end = i + 1;
            self.tried = false;
        } else {
            self.end = self.end.max(i + 1);
        }
    }

    /// Takes note of what the file gave of a sector.
    fn learn(&mut self, i: u32, found: Cached)
        requires { i < SECTORS }
        ensures { self.new ≡ learnt self.old i found }
    {
        if !matches!(self.sectors[i as usize], Cached::Held(_)) {
            self.sectors[i as usize] = found;
        }
    }

    /// Takes note of a sector that was read. One that is known stays as it is, so that one that waits stays as it was written.
    pub fn note(&mut self, i: u32, sector: &Sector)
        requires { i < SECTORS }
        ensures { self.new ≡ learnt self.old i (Held sector.now) }
    {
        self.learn(i, Cached::Held(*sector));
    }

    /// Takes note of a sector that couldn't be read. One that is known stays as it is.
    pub fn note_unread(&mut self, i: u32)
        requires { i < SECTORS }
        ensures { self.new ≡ learnt self.old i Unread }
    {
        self.learn(i, Cached::Unread);
    }

    /// The first sector of the pages in which some wait.
    fn pages_first(&self) -> u32
        ensures place { result ≡ pages_first self.now }
        ensures within { result ≤ self.now.first }
    {
        PAGE_SECTORS * (self.first / PAGE_SECTORS)
    }

    /// The one after the last sector of the pages in which some wait.
    fn pages_end(&self) -> u32
        ensures place { result ≡ pages_end self.now }
        ensures within { result ≤ SECTORS }
    {
        PAGE_SECTORS * ((self.end + PAGE_SECTORS - 1) / PAGE_SECTORS)
    }

    /// The sectors of the pages in which some wait: at most nine pages.
    pub fn pages(&self) -> &[Cached]
        ensures value { result.now ≡ pages self.now }
        ensures size { length result.now ≤ 72 }
    {
        &self.sectors[self.pages_first() as usize..self.pages_end() as usize]
    }

    /// What is to be written next, once each neighbor was read, or it was tried.
    fn next_write(&self) -> Next
        requires { IsReady self.now }
        ensures { IsNext self.now result }
    {
        let (from, end) = (self.pages_first(), self.pages_end());
        if !self.tried && first_unread(self.sectors.as_slice(), from, end).is_some() {
            return Next::WriteAlone(self.first);
        }
        Next::Write(from)
    }

    /// What is to be done next so that nothing waits.
    pub fn next(&self) -> Next
        ensures next { IsNext self.now result }
        ensures sound { IsCache self.now }
    {
        if self.first == self.end {
            return Next::Nothing;
        }
        let (from, end) = (self.pages_first(), self.pages_end());
        match first_unknown(self.sectors.as_slice(), from, end) {
            Some(i) => Next::Read(i),
            None => self.next_write(),
        }
    }

    /// Those that wait: at most 64.
    pub fn waiting(&self) -> &[Cached]
        ensures value { result.now ≡ waiting self.now }
        ensures size { length result.now ≤ 64 }
    {
        &self.sectors[self.first as usize..self.end as usize]
    }

    /// What waited was written.
    pub fn flush(&mut self)
        ensures { self.new ≡ flushed self.old }
    {
        self.first = self.end;
        self.tried = false;
    }

    /// What waited couldn't be written alone.
    pub fn note_not_alone(&mut self)
        ensures { self.new ≡ not_alone self.old }
    {
        self.tried = true;
    }

    /// From now on only those are known that wait.
    pub fn forget(&mut self, now: u64)
        ensures value { self.new ≡ forgot self.old now }
        ensures sound { IsCache self.old }
    {
        let (first, end) = (self.first as usize, self.end as usize);
        forget_around(self.sectors.as_mut_slice(), first, end);
        self.forgotten = now;
    }

    /// Forgets where a minute has passed since it did so last, and says whether it has.
    pub fn refresh(&mut self, now: u64) -> bool
        ensures sound { IsCache self.old }
        ensures value { result ≡ is_old self.old now }
        ensures new { self.new ≡ (if is_old self.old now then forgot self.old now else self.old) }
    {
        let is_old = now.saturating_sub(self.forgotten) >= MILLIS;
        if is_old {
            self.forget(now);
        }
        is_old
    }
}
