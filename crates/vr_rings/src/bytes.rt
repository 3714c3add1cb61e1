//! The sectors of a slot, both ways.
ghost use Rattle.std.specs.Prelude.{◌≡◌, ◌≤◌, length, min, replicate, take};
ghost use Rattle.std.specs.Option.{option_map};
ghost use Rattle.std.specs.Result.{result_ok};
ghost use Rattle.vr_base.specs.Bytes.{IsBytes};
ghost use Rattle.vr_header.specs.Made.{entry_bytes, entry_of};
ghost use Rattle.vr_header.specs.Spelling.{IsHeader, decoded};
ghost use Rattle.vr_rings.specs.Held.{header_sector};
ghost use Rattle.vr_rings.specs.Readings.{AsksNames};
ghost use Rattle.vr_rings.specs.Slots.{IsWhole, header_of, in_front, prepare_bytes, sector_of, size_at, whole_of};

use crate::sizes::PREPARE_SIZE;
use crate::slot::slot_of;
use vr_base::{is_zeros, put, u32_at, u64_at};
use vr_disk::{Room, Sector, SectorDisk, ZEROS};
use vr_header::{
    Entry, HEADER_SIZE, Header, NAMED_AT, OP_AT, SIZE_AT, decode_by, encode, nameless, spelled,
};

/// The header sector of an entry of this header. The disk may have its name.
#[tactic(auto, using(crate::proofs::Spelling::spelled_sector))]
pub fn sector_by<D: SectorDisk>(disk: &mut D, header: &Header) -> Sector
    ensures bytes { result.bytes ≡ sector_of header.now }
    ensures header { IsHeader header.now }
    ensures names { AsksNames D.SectorDisk disk.old disk.new }
{
    let bytes = nameless(header);
    let (_, named) = bytes.split_at(NAMED_AT);
    let name = disk.name_of(Room::Header(header.op), named);
    let mut sector = ZEROS;
    put(&mut sector.bytes, 0, &spelled(header, name));
    sector
}

/// The header sector of an entry of this header.
#[tactic(auto, using(crate::proofs::Spelling::spelled_sector))]
pub fn sector_of(header: &Header) -> Sector
    ensures bytes { result.bytes ≡ sector_of header.now }
    ensures header { IsHeader header.now }
{
    let mut sector = ZEROS;
    put(&mut sector.bytes, 0, &encode(header));
    sector
}

/// The header sector of the entry with this prepare of 4,096 bytes: the first 128 of them, and zeros.
#[tactic(auto, using(crate::proofs::Spelling::header_sector_made))]
pub fn header_sector(prepare: &[u8]) -> Sector
    requires { 128 ≤ length prepare.now }
    ensures { result.bytes ≡ header_sector prepare.now }
{
    let (header, _) = prepare.split_at(HEADER_SIZE);
    let mut sector = ZEROS;
    put(&mut sector.bytes, 0, header);
    sector
}

/// Puts the prepare of an entry into zeros: as much of it as they are, which is all of the entry.
#[tactic(auto, using(crate::proofs::Spelling::spelled_prepare))]
pub fn put_prepare(entry: &Entry, to: &mut [u8])
    requires zeros { to.old ≡ replicate (length to.old) 0 }
    requires least { entry.now.header.size ≤ length to.old }
    requires most { length to.old ≤ 4096 }
    ensures bytes { to.new ≡ take (length to.old) (prepare_bytes entry.now) }
    ensures size { length (entry_bytes entry.now) ≤ length to.old }
    ensures whole { IsWhole entry.now }
{
    entry.put(to);
}

/// The header that a header sector's bytes are, `None` exactly where they aren't a valid header and zeros.
#[tactic(auto, unfolding(crate::specs::Slots::header_of))]
pub fn header_of<D: SectorDisk>(disk: &mut D, sector: &Sector) -> Option<Header>
    ensures value { result ≡ header_of sector.now.bytes }
    ensures names { AsksNames D.SectorDisk disk.old disk.new }
{
    let (_, padding) = sector.bytes.split_at(HEADER_SIZE);
    if is_zeros(padding) {
        header_in(disk, &sector.bytes)
    } else {
        None
    }
}

// The header that these bytes begin with. The disk may have its name.
#[tactic(auto, unfolding(vr_base::specs::Bytes::piece))]
fn header_in<D: SectorDisk>(disk: &mut D, bytes: &[u8]) -> Option<Header>
    requires { 128 ≤ length bytes.now }
    ensures value { result ≡ result_ok (decoded bytes.now) }
    ensures names { AsksNames D.SectorDisk disk.old disk.new }
{
    let (front, _) = bytes.split_at(HEADER_SIZE);
    let (_, named) = front.split_at(NAMED_AT);
    let name = disk.name_of(Room::Header(u64_at(bytes, OP_AT)), named);
    decode_by(bytes, name).ok()
}

// The header of the entry that these bytes are. The disk may have its names.
#[tactic(auto, using(crate::proofs::Spelling::short_none, crate::proofs::Spelling::headless_none, crate::proofs::Spelling::sized_none, crate::proofs::Spelling::header_ok))]
fn entry_in<D: SectorDisk>(disk: &mut D, bytes: &[u8]) -> Option<Header>
    ensures value { result ≡ option_map (λ e. e.header) (entry_of bytes.now) }
    ensures names { AsksNames D.SectorDisk disk.old disk.new }
{
    if bytes.len() < HEADER_SIZE {
        return None;
    }
    let header = header_in(disk, bytes)?;
    if header.size.get() as usize != bytes.len() {
        return None;
    }
    let (_, body) = bytes.split_at(HEADER_SIZE);
    let name = disk.name_of(Room::Body(slot_of(&header)), body);
    Entry::header_by(bytes, header, name)
}

// The header of the entry that so many of these bytes of a prepare are, `None` where they aren't a whole entry or where
// anything but zeros stands after them.
fn whole_by<D: SectorDisk>(disk: &mut D, bytes: &[u8], size: usize) -> Option<Header>
    requires size { size ≤ length bytes.now }
    requires given { size ≡ min (size_at bytes.now) PREPARE_SIZE }
    requires least { 128 ≤ length bytes.now }
    requires most { length bytes.now ≤ 4096 }
    ensures value { result ≡ option_map (λ e. e.header) (whole_of (in_front bytes.now)) }
    ensures names { AsksNames D.SectorDisk disk.old disk.new }
{
    let (entry, padding) = bytes.split_at(size);
    if is_zeros(padding) {
        entry_in(disk, entry)
    } else {
        None
    }
}

// The header of the entry that these bytes are whose header tells that it goes on after them, where zeros stand.
fn whole_beyond<D: SectorDisk>(disk: &mut D, bytes: &[u8], size: usize) -> Option<Header>
    requires given { size ≡ min (size_at bytes.now) PREPARE_SIZE }
    requires least { 128 ≤ length bytes.now }
    requires most { length bytes.now ≤ 4096 }
    ensures value { result ≡ option_map (λ e. e.header) (whole_of (in_front bytes.now)) }
    ensures names { AsksNames D.SectorDisk disk.old disk.new }
{
    let mut room = [0; PREPARE_SIZE];
    put(&mut room, 0, bytes);
    whole_by(disk, &room, size)
}

/// The header of the entry that the bytes of a prepare are, in front of zeros up to 4,096; `None` exactly where they aren't a
/// whole entry and zeros.
pub fn whole_front<D: SectorDisk>(disk: &mut D, bytes: &[u8]) -> Option<Header>
    requires least { 128 ≤ length bytes.now }
    requires most { length bytes.now ≤ 4096 }
    ensures value { result ≡ option_map (λ e. e.header) (whole_of (in_front bytes.now)) }
    ensures each { IsBytes (in_front bytes.now) }
    ensures names { AsksNames D.SectorDisk disk.old disk.new }
{
    let size = (u32_at(bytes, SIZE_AT) as usize).min(PREPARE_SIZE);
    if size <= bytes.len() {
        whole_by(disk, bytes, size)
    } else {
        whole_beyond(disk, bytes, size)
    }
}

/// The header of the entry that the 4,096 bytes of a prepare are, `None` exactly where they aren't a whole entry and zeros.
pub fn whole_of<D: SectorDisk>(disk: &mut D, bytes: &[u8]) -> Option<Header>
    requires { length bytes.now ≡ 4096 }
    ensures value { result ≡ option_map (λ e. e.header) (whole_of bytes.now) }
    ensures each { IsBytes bytes.now }
    ensures names { AsksNames D.SectorDisk disk.old disk.new }
{
    whole_front(disk, bytes)
}
