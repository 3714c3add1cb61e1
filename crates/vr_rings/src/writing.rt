//! Writing a slot.
ghost use Rattle.std.specs.Prelude.{ℕ, ◌≡◌, ◌≤◌, ◌<◌, ◌+◌, ◌*◌, [], IfSome, is_ok, length, replicate, take};
ghost use Rattle.vr_base.specs.Causes.{HasCause};
ghost use Rattle.vr_disk.specs.DiskState.{Runs};
ghost use Rattle.vr_disk.specs.Sectors.{writes};
ghost use Rattle.vr_header.specs.Made.{entry_bytes};
ghost use Rattle.vr_rings.specs.Slots.{IsWhole, Takes, in_front, prepare_bytes, sector_of};
ghost use Rattle.vr_rings.specs.Calls.{again_calls, header_calls, new_calls, prepare_calls};
ghost use Rattle.vr_rings.specs.Laws.{AgainLeaves, HeaderLeaves, NewLeaves};
ghost use Rattle.vr_disk.specs.Untouched.{Untouched};

use crate::bytes::{header_sector, put_prepare, sector_by};
use crate::sizes::{OLD_PREPARE_SIZE, PREPARE_SIZE};
use crate::slot::slot_of;
use vr_base::Version;
use vr_disk::{
    DiskFailed, DiskFault, Room, SECTOR_SIZE, SECTORS, Sector, SectorDisk, header_place,
    prepare_place, prepare_sectors, write_sectors, write_zeros,
};
use vr_header::{Entry, HEADER_SIZE, Header, NAMED_AT};

// Writes these bytes, so many sectors of them, and zeros after them to so many sectors from one on.
fn write_front<D: SectorDisk>(
    disk: &mut D,
    at: u32,
    count: u32,
    bytes: &[u8],
    filled: u32,
) -> Result<(), DiskFailed>
    requires within { at + count ≤ SECTORS }
    requires count { count ≤ 8 }
    requires size { length bytes.now ≡ 512 * filled }
    ensures runs { Runs (writes at count (in_front bytes.now)) (D.told disk.old) (D.told disk.new) (is_ok result) }
    ensures cause { HasCause (D.faults disk.old) (D.faults disk.new) result }
{
    let given = filled.min(count);
    write_sectors(disk, at, given, bytes)?;
    write_zeros(disk, at + given, count - given)
}

// Writes the sectors of an entry, whose prepare begins with these bytes, and syncs them.
#[tactic(auto, using(vr_disk::proofs::Running::Runs_then, vr_disk::proofs::Running::Runs_stopped), unfolding(crate::specs::Calls::prepare_calls))]
fn write_prepare<D: SectorDisk>(
    disk: &mut D,
    entry: &Entry,
    bytes: &[u8],
    filled: u32,
    version: Version,
) -> Result<(), DiskFailed>
    requires bytes { in_front bytes.now ≡ prepare_bytes entry.now }
    requires size { length bytes.now ≡ 512 * filled }
    ensures runs { Runs (prepare_calls version entry.now) (D.told disk.old) (D.told disk.new) (is_ok result) }
    ensures cause { HasCause (D.faults disk.old) (D.faults disk.new) result }
{
    let at = prepare_place(slot_of(&entry.header()), version);
    let count = prepare_sectors(version);
    write_front(disk, at, count, bytes, filled)?;
    disk.sync()?;
    Ok(())
}

// Writes the sector of a header, which is this one, and syncs it.
#[tactic(auto, unfolding(crate::specs::Calls::header_calls))]
fn put_header<D: SectorDisk>(
    disk: &mut D,
    header: &Header,
    sector: &Sector,
) -> Result<(), DiskFailed>
    requires { sector.now.bytes ≡ sector_of header.now }
    ensures runs { Runs (header_calls header.now) (D.told disk.old) (D.told disk.new) (is_ok result) }
    ensures cause { HasCause (D.faults disk.old) (D.faults disk.new) result }
{
    disk.write(header_place(slot_of(header)), sector)?;
    disk.sync()?;
    Ok(())
}

// The disk takes note of the names of an entry's header and body.
fn note<D: SectorDisk>(disk: &mut D, entry: &Entry, bytes: &[u8])
    requires bytes { bytes.now ≡ take (length bytes.now) (prepare_bytes entry.now) }
    requires size { length (entry_bytes entry.now) ≤ length bytes.now }
    requires whole { IsWhole entry.now }
    ensures untouched { Untouched D.SectorDisk disk.old disk.new }
{
    let header = entry.header();
    let (whole, _) = bytes.split_at(header.size.get() as usize);
    let (front, body) = whole.split_at(HEADER_SIZE);
    let (_, named) = front.split_at(NAMED_AT);
    disk.keep_name(Room::Header(header.op), named, entry.name());
    disk.keep_name(Room::Body(slot_of(&header)), body, header.body);
}

// Writes an entry to its slot, the prepare first, over this room of so many sectors, which
// take all of it but zeros.
#[tactic(auto, using(vr_disk::proofs::Running::Runs_then, vr_disk::proofs::Running::Runs_stopped, crate::proofs::Leaving::new_leaves))]
fn new_over<D: SectorDisk>(
    disk: &mut D,
    entry: &Entry,
    version: Version,
    filled: u32,
    bytes: &mut [u8],
) -> Result<(), DiskFault>
    requires takes { Takes version entry.now }
    requires zeros { bytes.old ≡ replicate (512 * filled) 0 }
    requires least { entry.now.header.size ≤ 512 * filled }
    requires most { filled ≤ 8 }
    ensures runs { Runs (new_calls version entry.now) (D.told disk.old) (D.told disk.new) (is_ok result) }
    ensures cause { HasCause (D.faults disk.old) (D.faults disk.new) result }
    ensures stop { IfSome (D.told disk.old) (λ d. d.face.waiting ≡ [] → NewLeaves version entry.now d.face) }
{
    put_prepare(entry, bytes);
    note(disk, entry, bytes);
    write_prepare(disk, entry, bytes, filled, version)?;
    put_header(disk, &entry.header(), &header_sector(bytes))?;
    Ok(())
}

/// Writes an entry to its slot, which holds another one or none: the prepare first, then the header sector. It takes no
/// memory.
pub fn write_new<D: SectorDisk>(
    disk: &mut D,
    entry: &Entry,
    version: Version,
) -> Result<(), DiskFault>
    requires { Takes version entry.now }
    ensures runs { Runs (new_calls version entry.now) (D.told disk.old) (D.told disk.new) (is_ok result) }
    ensures cause { HasCause (D.faults disk.old) (D.faults disk.new) result }

    // After all calls the slot reads as the entry; a stop at any of them leaves the header sector as it was, or the
    // prepare synced already; and the premise on slots is kept.
    ensures stop { IfSome (D.told disk.old) (λ d. d.face.waiting ≡ [] → NewLeaves version entry.now d.face) }
{
    if entry.header().size.get() as usize <= SECTOR_SIZE {
        new_over(disk, entry, version, 1, &mut [0; SECTOR_SIZE])
    } else if version.get() == 2 {
        new_over(disk, entry, version, 8, &mut [0; PREPARE_SIZE])
    } else {
        new_over(disk, entry, version, 4, &mut [0; OLD_PREPARE_SIZE])
    }
}

// Writes an entry to its slot, the header sector first, over this room of so many
// sectors, which take all of its prepare but zeros.
#[tactic(auto, using(vr_disk::proofs::Running::Runs_then, vr_disk::proofs::Running::Runs_stopped, crate::proofs::Leaving::again_leaves))]
fn again_over<D: SectorDisk>(
    disk: &mut D,
    entry: &Entry,
    version: Version,
    filled: u32,
    prepare: &mut [u8],
) -> Result<(), DiskFault>
    requires takes { Takes version entry.now }
    requires zeros { prepare.old ≡ replicate (512 * filled) 0 }
    requires least { entry.now.header.size ≤ 512 * filled }
    requires most { filled ≤ 8 }
    ensures runs { Runs (again_calls version entry.now) (D.told disk.old) (D.told disk.new) (is_ok result) }
    ensures cause { HasCause (D.faults disk.old) (D.faults disk.new) result }
    ensures stop { IfSome (D.told disk.old) (λ d. d.face.waiting ≡ [] → AgainLeaves version entry.now d.face) }
{
    put_prepare(entry, prepare);
    note(disk, entry, prepare);
    let sector = header_sector(prepare);
    put_header(disk, &entry.header(), &sector)?;
    write_prepare(disk, entry, prepare, filled, version)?;
    Ok(())
}

/// Writes an entry to its slot, which may hold it already: the header sector first, then the prepare. It takes no memory.
pub fn write_again<D: SectorDisk>(
    disk: &mut D,
    entry: &Entry,
    version: Version,
) -> Result<(), DiskFault>
    requires { Takes version entry.now }
    ensures runs { Runs (again_calls version entry.now) (D.told disk.old) (D.told disk.new) (is_ok result) }
    ensures cause { HasCause (D.faults disk.old) (D.faults disk.new) result }

    // After all calls the slot reads as the entry; a stop at any of them leaves the prepare as it was, or the header
    // sector synced already; and the premise on slots is kept.
    ensures stop { IfSome (D.told disk.old) (λ d. d.face.waiting ≡ [] → AgainLeaves version entry.now d.face) }
{
    if entry.header().size.get() as usize <= SECTOR_SIZE {
        again_over(disk, entry, version, 1, &mut [0; SECTOR_SIZE])
    } else if version.get() == 2 {
        again_over(disk, entry, version, 8, &mut [0; PREPARE_SIZE])
    } else {
        again_over(disk, entry, version, 4, &mut [0; OLD_PREPARE_SIZE])
    }
}

/// Writes the header sector of a slot alone, as an opening does whose prepare reads whole. It takes no memory.
pub fn write_header<D: SectorDisk>(disk: &mut D, header: &Header) -> Result<(), DiskFault>
    ensures runs { Runs (header_calls header.now) (D.told disk.old) (D.told disk.new) (is_ok result) }
    ensures cause { HasCause (D.faults disk.old) (D.faults disk.new) result }

    // A stop at any of these calls keeps the premise on slots.
    ensures stop { IfSome (D.told disk.old) (λ d. d.face.waiting ≡ [] → (version : ℕ) → HeaderLeaves version header.now d.face) }
{
    let sector = sector_by(disk, header);
    put_header(disk, header, &sector)?;
    Ok(())
}
