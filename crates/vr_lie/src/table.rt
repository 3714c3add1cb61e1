//! What the slots hold.
ghost use Rattle.std.specs.Prelude.{◌≡◌, ◌≤◌, ◌<◌, ◌*◌, None, Some, IfSome, if◌then◌else◌, length, nat_eq, slice_set, take};
ghost use Rattle.std.specs.Cmp.Lexicographic.{pointwise};
ghost use Rattle.vr_base.specs.Bytes.{piece};
ghost use Rattle.vr_disk.specs.DiskState.{Sync, Write, after, settle};
ghost use Rattle.vr_disk.specs.Fronts.{front};
ghost use Rattle.vr_lie.specs.Faults.{HeldAfter, HeldLooked, held_at};
ghost use Rattle.vr_rings.specs.Held.{found, header_sector, held_after, held_begun, is_prepare, keeps, kept, looked};
ghost use Rattle.vr_rings.specs.Readings.{Begins};
ghost use Rattle.vr_rings.specs.Slots.{in_front, size_at};
ghost use Rattle.vr_disk.specs.Sectors.{has};
ghost use Rattle.vr_lie.specs.Table.{HeldBegun, HeldCut, IsOwnHeader, IsTable, held_of, prepare_of, slot_at, slot_in, table_of};
ghost use Rattle.vr_mem.specs.Cells.{disk_of};

use crate::reading::{begins_alike, ends_first, has_header, is_prepare, read_first};
use vr_base::{Version, checksum, is_zeros, u32_at};
use vr_disk::{
    Room, SECTOR_SIZE, SECTORS, SLOTS, Sector, SectorDisk, front_sector, header_place,
    prepare_place, prepare_sectors, sector_at,
};
use vr_mem::CellDisk;
use vr_rings::{PREPARE_SIZE, SIZE_AT, header_sector, read_bytes, read_front, whole_front};

/// What a slot holds: an entry, by its prepare, or nothing.
#[derive(Clone, Copy)]
pub struct Held {
    pub some: bool,
    /// The entry ends in the first sector: in the slot zeros stand after it, and what stands after it here means nothing.
    pub short: bool,
    /// Its header, its body and zeros. What stands here where nothing is held stays: to clear it would only take time.
    pub prepare: [u8; PREPARE_SIZE],
}

impl Held {
    pub fn nothing() -> Held
        ensures { held_of result ≡ None }
    {
        Held {
            some: false,
            short: false,
            prepare: [0; PREPARE_SIZE],
        }
    }

    /// The prepare of the entry that it holds.
    pub fn whole(&self) -> [u8; PREPARE_SIZE]
        ensures { result ≡ prepare_of self.now }
    {
        let mut whole = self.prepare;
        if self.short {
            let (_, rest) = whole.split_at_mut(SECTOR_SIZE);
            rest.fill(0);
        }
        whole
    }

    // The first sector of this prepare.
    fn first(&self) -> &[u8]
        ensures first { result.now ≡ take 512 self.now.prepare }
        ensures size { length result.now ≡ 512 }
        ensures header { header_sector result.now ≡ header_sector (prepare_of self.now) }
    {
        let (first, _) = self.prepare.split_at(SECTOR_SIZE);
        first
    }

    // Whether these are the bytes of this prepare.
    #[tactic(auto, using(std::proofs::lemmas::Grind::common_steps, crate::proofs::Ending::front_parts))]
    fn is_whole(&self, bytes: &[u8; PREPARE_SIZE]) -> bool
        ensures { result ≡ pointwise nat_eq (prepare_of self.now) bytes.now }
    {
        if !self.short {
            return self.prepare == *bytes;
        }
        let (first, rest) = bytes.split_at(SECTOR_SIZE);
        self.first() == first && is_zeros(rest)
    }

    // Whether these are the bytes of sector k of this prepare.
    fn is_sector(&self, k: u32, bytes: &[u8]) -> bool
        requires k { k < 8 }
        requires size { length bytes.now ≡ 512 }
        ensures { result ≡ pointwise nat_eq bytes.now (piece (512 * k) 512 (prepare_of self.now)) }
    {
        if k == 0 {
            return bytes == self.first();
        }
        if self.short {
            return is_zeros(bytes);
        }
        bytes
            == sector_at(&self.prepare, SECTOR_SIZE * k as usize)
                .bytes
                .as_slice()
    }
}

// The slot that a sector belongs to, of 64 that have so many sectors each, one after the other from the first one on.
#[tactic(auto, using(std::proofs::lemmas::Grind::common_steps, crate::proofs::Slotted::in_64))]
fn slot_in(i: u32, first: u32, count: u32) -> Option<u32>
    requires first { first < SECTORS }
    requires least { 1 ≤ count }
    requires most { count ≤ 8 }
    ensures slot { result ≡ slot_in first count i }
    ensures within { IfSome result (λ slot. slot < 64) }
{
    if i < first {
        None
    } else if i < first + SLOTS * count {
        Some((i - first) / count)
    } else {
        None
    }
}

/// The slot that a sector belongs to, in a file of this version.
#[tactic(auto, unfolding(crate::specs::Table::slot_at))]
pub fn slot_of(i: u32, version: Version) -> Option<u32>
    ensures slot { result ≡ slot_at version i }
    ensures within { IfSome result (λ slot. slot < 64) }
{
    match slot_in(i, header_place(0), 1) {
        Some(slot) => Some(slot),
        None => slot_in(i, prepare_place(0, version), prepare_sectors(version)),
    }
}

// Whether a slot holds the entry with this prepare.
fn is_held(held: &Held, bytes: &[u8; PREPARE_SIZE]) -> bool
    ensures { result ≡ has bytes.now (held_of held.now) }
{
    held.some && held.is_whole(bytes)
}

// A slot holds the entry that it reads as, where these are an entry's bytes. Those of the one that it holds aren't hashed.
fn find(disk: &mut CellDisk, bytes: &[u8; PREPARE_SIZE], held: &mut Held)
    ensures told { disk_of disk.new ≡ disk_of disk.old }
    ensures faults { disk.new.faults ≡ disk.old.faults }
    ensures value { held_of held.new ≡ found (if is_prepare bytes.now then Some bytes.now else None) (held_of held.old) }
{
    if is_held(held, bytes) {
        return;
    }
    if is_prepare(disk, bytes) {
        held.prepare = *bytes;
        held.short = false;
        held.some = true;
    }
}

// Looks at a slot that holds an entry, and whose header sector is that of the prepare beside it.
fn look_held(disk: &mut CellDisk, slot: u32, held: &mut Held, version: Version)
    requires slot { slot < 64 }
    requires own { IsOwnHeader version (disk_of disk.old).face slot }
    ensures told { disk_of disk.new ≡ disk_of disk.old }
    ensures faults { disk.new.faults ≡ disk.old.faults }
    ensures value { held_of held.new ≡ looked version (disk_of disk.old).face slot (held_of held.old) }
{
    let mut bytes = [0; PREPARE_SIZE];
    if read_bytes(disk, slot, &mut bytes, version) {
        find(disk, &bytes, held);
    }
}

// Whether a slot whose header sector is that of the prepare beside it reads as an entry that ends in the first sector of
// this prepare, which reads as these bytes and tells so. Where anything but zeros stands after it, it reads as none.
fn is_short(disk: &mut CellDisk, slot: u32, first: &[u8], version: Version) -> bool
    requires slot { slot < 64 }
    requires own { IsOwnHeader version (disk_of disk.old).face slot }
    requires size { length first.now ≡ 512 }
    requires first { Begins version (disk_of disk.old).face slot first.now }
    requires short { size_at first.now ≤ 512 }
    ensures told { disk_of disk.new ≡ disk_of disk.old }
    ensures faults { disk.new.faults ≡ disk.old.faults }
    ensures value { (if result then Some (in_front first.now) else None) ≡ looked version (disk_of disk.old).face slot None }
{
    ends_first(disk, slot, version) && whole_front(disk, first).is_some()
}

// As `look_free`, of an entry that goes on after its first sector, whatever it is.
fn look_long(disk: &mut CellDisk, slot: u32, held: &mut Held, version: Version)
    requires slot { slot < 64 }
    requires own { IsOwnHeader version (disk_of disk.old).face slot }
    requires free { held_of held.old ≡ None }
    ensures told { disk_of disk.new ≡ disk_of disk.old }
    ensures faults { disk.new.faults ≡ disk.old.faults }
    ensures value { held_of held.new ≡ looked version (disk_of disk.old).face slot None }
{
    held.short = false;
    let count = prepare_sectors(version);
    let (front, rest) = held.prepare.split_at_mut(SECTOR_SIZE * count as usize);
    rest.fill(0);
    if read_front(disk, slot, front, version) {
        held.some = whole_front(disk, front).is_some();
    }
}

// Looks at a slot that holds nothing, and whose header sector is that of the prepare beside it. It is read where the entry
// then stands: nothing is lost there. Nearly all end in their first sector, and then only this one is kept.
#[tactic(auto, unfolding(vr_rings::specs::Slots::size_at))]
fn look_free(disk: &mut CellDisk, slot: u32, held: &mut Held, version: Version)
    requires slot { slot < 64 }
    requires own { IsOwnHeader version (disk_of disk.old).face slot }
    requires free { held_of held.old ≡ None }
    ensures told { disk_of disk.new ≡ disk_of disk.old }
    ensures faults { disk.new.faults ≡ disk.old.faults }
    ensures value { held_of held.new ≡ looked version (disk_of disk.old).face slot None }
{
    let (first, _) = held.prepare.split_at_mut(SECTOR_SIZE);
    if !read_first(disk, slot, first, version) {
        return;
    }
    if u32_at(first, SIZE_AT) as usize <= SECTOR_SIZE {
        held.some = is_short(disk, slot, first, version);
        held.short = true;
    } else {
        look_long(disk, slot, held, version);
    }
}

// Looks at a slot whose header sector is that of the prepare beside it.
fn look_whole(disk: &mut CellDisk, slot: u32, held: &mut Held, version: Version)
    requires slot { slot < 64 }
    requires own { IsOwnHeader version (disk_of disk.old).face slot }
    ensures told { disk_of disk.new ≡ disk_of disk.old }
    ensures faults { disk.new.faults ≡ disk.old.faults }
    ensures value { held_of held.new ≡ looked version (disk_of disk.old).face slot (held_of held.old) }
{
    if held.some {
        look_held(disk, slot, held, version);
    } else {
        look_free(disk, slot, held, version);
    }
}

// Looks at a slot again: at the first sector of its prepare, and at the others where its header sector is that of this one.
fn look_in(disk: &mut CellDisk, slot: u32, held: &mut Held, version: Version)
    requires { slot < 64 }
    ensures told { disk_of disk.new ≡ disk_of disk.old }
    ensures faults { disk.new.faults ≡ disk.old.faults }
    ensures value { held_of held.new ≡ looked version (disk_of disk.old).face slot (held_of held.old) }
{
    if begins_alike(disk, slot, version) {
        look_whole(disk, slot, held, version);
    }
}

/// Looks at a slot again.
pub fn look(disk: &mut CellDisk, held: &mut [Held], slot: u32, version: Version)
    requires slot { slot < 64 }
    requires count { length held.old ≡ 64 }
    ensures told { disk_of disk.new ≡ disk_of disk.old }
    ensures faults { disk.new.faults ≡ disk.old.faults }
    ensures held { table_of held.new ≡ slice_set (table_of held.old) slot (looked version (disk_of disk.old).face slot (held_at (table_of held.old) slot)) }
{
    look_in(disk, slot, &mut held[slot as usize], version);
}

/// Looks at each slot again.
pub fn look_all(disk: &mut CellDisk, held: &mut [Held], version: Version)
    requires { length held.old ≡ 64 }
    ensures told { disk_of disk.new ≡ disk_of disk.old }
    ensures faults { disk.new.faults ≡ disk.old.faults }
    ensures held { HeldLooked version (disk_of disk.old).face (table_of held.old) (table_of held.new) }
    ensures table { IsTable version (disk_of disk.new).face (table_of held.new) }
{
    for slot in 0..SLOTS {
        look(disk, held, slot, version);
    }
}

// Whether a write leaves it that a slot holds this entry.
#[tactic(auto, unfolding(vr_rings::specs::Held::keeps))]
fn keeps(
    disk: &mut CellDisk,
    slot: u32,
    i: u32,
    bytes: &[u8],
    held: &Held,
    version: Version,
) -> bool
    requires slot { slot < 64 }
    requires size { length bytes.now ≡ 512 }
    ensures told { disk_of disk.new ≡ disk_of disk.old }
    ensures faults { disk.new.faults ≡ disk.old.faults }
    ensures value { result ≡ keeps version (disk_of disk.old).face slot i bytes.now (prepare_of held.now) }
{
    if i == header_place(slot) {
        return bytes == header_sector(held.first()).bytes.as_slice();
    }
    let first = prepare_place(slot, version);
    if first <= i && i < first + prepare_sectors(version) {
        return has_header(disk, slot, held.first()) && held.is_sector(i - first, bytes);
    }
    true
}

// Whether a write leaves it that a slot holds what it holds.
fn keeps_held(
    disk: &mut CellDisk,
    slot: u32,
    i: u32,
    from: &Sector,
    held: &Held,
    version: Version,
) -> bool
    requires { slot < 64 }
    ensures told { disk_of disk.new ≡ disk_of disk.old }
    ensures faults { disk.new.faults ≡ disk.old.faults }
    ensures value { kept version (disk_of disk.old).face slot i from.now.bytes (held_of held.now) ≡ (if result then held_of held.now else None) }
{
    if held.some {
        keeps(disk, slot, i, &from.bytes, held, version)
    } else {
        true
    }
}

// Looks at a slot that a write leaves what it holds, or nothing.
fn follow(disk: &mut CellDisk, slot: u32, keeps: bool, held: &mut Held, version: Version)
    requires { slot < 64 }
    ensures told { disk_of disk.new ≡ disk_of disk.old }
    ensures faults { disk.new.faults ≡ disk.old.faults }
    ensures value { held_of held.new ≡ looked version (disk_of disk.old).face slot (if keeps then held_of held.old else None) }
{
    if !keeps {
        held.some = false;
    }
    look_in(disk, slot, held, version);
}

// Writes a sector of a slot.
fn put_in(
    disk: &mut CellDisk,
    held: &mut [Held],
    slot: u32,
    i: u32,
    from: &Sector,
    version: Version,
)
    requires slot { slot < 64 }
    requires i { i < SECTORS }
    requires count { length held.old ≡ 64 }
    ensures told { disk_of disk.new ≡ record (disk_of disk.old) { face = after (disk_of disk.old).face (Write i from.now.bytes) } }
    ensures faults { disk.new.faults ≡ disk.old.faults }
    ensures held { table_of held.new ≡ slice_set (table_of held.old) slot (held_after version (disk_of disk.old).face (Write i from.now.bytes) slot (held_at (table_of held.old) slot)) }
{
    let at = slot as usize;
    let keeps = keeps_held(disk, slot, i, from, &held[at], version);
    disk.put(i, from);
    follow(disk, slot, keeps, &mut held[at], version);
}

/// A write that goes through.
pub fn put(disk: &mut CellDisk, held: &mut [Held], i: u32, from: &Sector, version: Version)
    requires i { i < SECTORS }
    requires table { IsTable version (disk_of disk.old).face (table_of held.old) }
    ensures told { disk_of disk.new ≡ record (disk_of disk.old) { face = after (disk_of disk.old).face (Write i from.now.bytes) } }
    ensures faults { disk.new.faults ≡ disk.old.faults }
    ensures held { HeldAfter version (disk_of disk.old).face (Write i from.now.bytes) (table_of held.old) (table_of held.new) }
    ensures table { IsTable version (disk_of disk.new).face (table_of held.new) }
{
    match slot_of(i, version) {
        Some(slot) => put_in(disk, held, slot, i, from, version),
        None => disk.put(i, from),
    }
}

/// A write of the name of a text, and of the text after it as far as it fits, that goes through.
pub fn put_text(
    disk: &mut CellDisk,
    held: &mut [Held],
    i: u32,
    room: Room,
    text: &[u8],
    version: Version,
)
    requires i { i < SECTORS }
    requires size { 496 ≤ length text.now }
    requires table { IsTable version (disk_of disk.old).face (table_of held.old) }
    ensures told { disk_of disk.new ≡ record (disk_of disk.old) { face = after (disk_of disk.old).face (Write i (front text.now)) } }
    ensures faults { disk.new.faults ≡ disk.old.faults }
    ensures held { HeldAfter version (disk_of disk.old).face (Write i (front text.now)) (table_of held.old) (table_of held.new) }
    ensures table { IsTable version (disk_of disk.new).face (table_of held.new) }
{
    match slot_of(i, version) {
        Some(slot) => {
            let sector = front_sector(checksum(text), text);
            put_in(disk, held, slot, i, &sector, version);
        }
        None => disk.put_named(i, room, text),
    }
}

/// A write of the name of a text, and of the text after it as far as it fits, that is cut by this code.
pub fn cut_put_text(
    disk: &mut CellDisk,
    held: &mut [Held],
    i: u32,
    room: Room,
    text: &[u8],
    code: u64,
    version: Version,
)
    requires i { i < SECTORS }
    requires size { 496 ≤ length text.now }
    requires table { IsTable version (disk_of disk.old).face (table_of held.old) }
    ensures told { disk_of disk.new ≡ record (disk_of disk.old) { face = settle code (after (disk_of disk.old).face (Write i (front text.now))) } }
    ensures faults { disk.new.faults ≡ disk.old.faults }
    ensures held { HeldCut version code (disk_of disk.old).face (Write i (front text.now)) (table_of held.old) (table_of held.new) }
    ensures table { IsTable version (disk_of disk.new).face (table_of held.new) }
{
    let name = disk.name_of(room, text);
    cut_put(disk, held, i, &front_sector(name, text), code, version);
}

// Begins to write a sector of a slot, which the code then settles.
fn begin_in(
    disk: &mut CellDisk,
    held: &mut [Held],
    slot: u32,
    i: u32,
    from: &Sector,
    code: u64,
    version: Version,
)
    requires slot { slot < 64 }
    requires i { i < SECTORS }
    requires count { length held.old ≡ 64 }
    ensures told { disk_of disk.new ≡ record (disk_of disk.old) { face = after (disk_of disk.old).face (Write i from.now.bytes) } }
    ensures faults { disk.new.faults ≡ disk.old.faults }
    ensures held { table_of held.new ≡ slice_set (table_of held.old) slot (held_begun version code (disk_of disk.old).face (Write i from.now.bytes) slot (held_at (table_of held.old) slot)) }
{
    let at = slot as usize;
    let keeps = keeps_held(disk, slot, i, from, &held[at], version);
    disk.put(i, from);
    if disk.digit(code, i) != 0 {
        follow(disk, slot, keeps, &mut held[at], version);
    }
}

fn begin(disk: &mut CellDisk, held: &mut [Held], i: u32, from: &Sector, code: u64, version: Version)
    requires i { i < SECTORS }
    requires table { IsTable version (disk_of disk.old).face (table_of held.old) }
    ensures told { disk_of disk.new ≡ record (disk_of disk.old) { face = after (disk_of disk.old).face (Write i from.now.bytes) } }
    ensures faults { disk.new.faults ≡ disk.old.faults }
    ensures held { HeldBegun version code (disk_of disk.old).face (Write i from.now.bytes) (table_of held.old) (table_of held.new) }
{
    match slot_of(i, version) {
        Some(slot) => begin_in(disk, held, slot, i, from, code, version),
        None => disk.put(i, from),
    }
}

/// A write that is cut by this code.
pub fn cut_put(
    disk: &mut CellDisk,
    held: &mut [Held],
    i: u32,
    from: &Sector,
    code: u64,
    version: Version,
)
    requires i { i < SECTORS }
    requires table { IsTable version (disk_of disk.old).face (table_of held.old) }
    ensures told { disk_of disk.new ≡ record (disk_of disk.old) { face = settle code (after (disk_of disk.old).face (Write i from.now.bytes)) } }
    ensures faults { disk.new.faults ≡ disk.old.faults }
    ensures held { HeldCut version code (disk_of disk.old).face (Write i from.now.bytes) (table_of held.old) (table_of held.new) }
    ensures table { IsTable version (disk_of disk.new).face (table_of held.new) }
{
    begin(disk, held, i, from, code, version);
    disk.settle(code);
    look_all(disk, held, version);
}

/// A sync that is cut by this code.
pub fn cut_sync(disk: &mut CellDisk, held: &mut [Held], code: u64, version: Version)
    requires { IsTable version (disk_of disk.old).face (table_of held.old) }
    ensures told { disk_of disk.new ≡ record (disk_of disk.old) { face = settle code (disk_of disk.old).face } }
    ensures faults { disk.new.faults ≡ disk.old.faults }
    ensures held { HeldCut version code (disk_of disk.old).face Sync (table_of held.old) (table_of held.new) }
    ensures table { IsTable version (disk_of disk.new).face (table_of held.new) }
{
    disk.settle(code);
    look_all(disk, held, version);
}
