//! Finding the entry of a header.
ghost use Rattle.std.specs.Prelude.{◌≡◌, ◌≤◌, IfOk, take, length, min};
ghost use Rattle.std.specs.Int.{w32};
ghost use Rattle.vr_base.specs.Bytes.{number};
ghost use Rattle.vr_rings.specs.Readings.{BeginsWith, FindsEntry};
ghost use Rattle.vr_rings.specs.Slots.{IsWhole, whole_of};

use crate::reading::read_prepare;
use crate::sizes::PREPARE_SIZE;
use crate::slot::slot_of;
use std::alloc::Global;
use vr_base::{NoMemory, Version, u32_at};
use vr_disk::{Buffer, SectorDisk};
use vr_header::{Entry, Header, SIZE_AT};

// The size that a prepare gives, at most its own.
fn size_in(prepare: &[u8]) -> usize
    requires { length prepare.now ≡ PREPARE_SIZE }
    ensures { result ≡ min (number w32 104 prepare.now) 4096 }
{
    (u32_at(prepare, SIZE_AT) as usize).min(PREPARE_SIZE)
}

// The bytes of the entry with which a buffer begins.
fn front_of(buffer: &Buffer) -> &[u8]
    ensures front { result.now ≡ take (min (number w32 104 (take 4096 buffer.now)) 4096) (take 4096 buffer.now) }
    ensures size { length buffer.now ≡ 4096 }
{
    let (prepare, _) = buffer.as_slice().split_at(PREPARE_SIZE);
    let (entry, _) = prepare.split_at(size_in(prepare));
    entry
}

// The entry of this header, with which a buffer begins.
fn entry_in(alloc: Global, header: &Header, buffer: &Buffer) -> Result<Entry, NoMemory>
    requires { BeginsWith header.now buffer.now }
    ensures value { IfOk result (λ e. whole_of (take 4096 buffer.now) ≡ Some e) }
    ensures whole { IfOk result (λ e. (e.header ≡ header.now) × IsWhole e) }
{
    let entry = Entry::from_bytes(alloc, front_of(buffer))?;
    Ok(entry)
}

/// The entry of this header, `None` exactly where a reading of its slot's prepare failed or isn't a whole entry with this
/// header. The buffer is room to read into; what it holds then is unspecified. Memory is taken for the entry alone.
pub fn find_entry<D: SectorDisk>(
    alloc: Global,
    disk: &mut D,
    header: &Header,
    buffer: &mut Buffer,
    version: Version,
) -> Result<Option<Entry>, NoMemory>
    ensures { FindsEntry D.SectorDisk version header.now disk.old disk.new result }
{
    match read_prepare(disk, slot_of(header), header, buffer, version) {
        Err(_) => Ok(None),
        Ok(()) => Ok(Some(entry_in(alloc, header, buffer)?)),
    }
}
