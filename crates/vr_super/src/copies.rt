//! Copies on a disk, each by its text: the name in front of it stands in the first sector.
ghost use Rattle.std.specs.Prelude.{◌≡◌, ◌≤◌, ◌<◌, ◌+◌, ◌*◌, ◌++◌, ◌∷◌, [], drop, length, IfSome, is_ok};
ghost use Rattle.vr_base.specs.Causes.{HasCause};
ghost use Rattle.vr_disk.specs.DiskState.{Runs, RunsFrom, Sync, Write};
ghost use Rattle.vr_disk.specs.Fronts.{front};
ghost use Rattle.vr_disk.specs.Sectors.{has, writes};
ghost use Rattle.vr_super.specs.Copies.{IsCopyText, copy_of};
ghost use Rattle.vr_super.specs.Opens.{copy_reading};
ghost use Rattle.vr_super.specs.Calls.{copy_calls, mend_copy, mend_unless};
ghost use Rattle.vr_disk.specs.Untouched.{Untouched};

use crate::places::TEXT_SEQUENCE_AT;
use crate::sectors::{read_filled, write_synced};
use vr_base::u64_at;
use vr_disk::{
    COPIES, COPY_SECTORS, COPY_SIZE, DiskFailed, FRONT_TEXT, Room, SECTORS, SectorDisk,
    sectors_read_as,
};

// Where a disk keeps a text with its name.
fn room_of(text: &[u8]) -> Room
    requires { 8 ≤ length text.now }
{
    Room::Value(u64_at(text, TEXT_SEQUENCE_AT))
}

// Writes the first sector of a text's copy, and syncs it.
fn write_first<D: SectorDisk>(disk: &mut D, i: u32, text: &[u8]) -> Result<(), DiskFailed>
    requires i { i < SECTORS }
    requires size { 496 ≤ length text.now }
    ensures runs { Runs (Write i (front text.now) ∷ Sync ∷ []) (D.told disk.old) (D.told disk.new) (is_ok result) }
    ensures cause { HasCause (D.faults disk.old) (D.faults disk.new) result }
    ensures others { D.read_faults disk.new ≡ D.read_faults disk.old }
{
    disk.write_front(i, room_of(text), text)?;
    disk.sync()?;
    Ok(())
}

// Writes the other sectors of a text's copy, and syncs them.
fn write_others<D: SectorDisk>(
    disk: &mut D,
    copy: u32,
    filled: u32,
    text: &[u8],
) -> Result<(), DiskFailed>
    requires copy { copy < COPIES }
    requires text { IsCopyText filled text.now }
    ensures runs { Runs (writes (20 * copy + 1) 19 (drop 496 text.now) ++ Sync ∷ []) (D.told disk.old) (D.told disk.new) (is_ok result) }
    ensures cause { HasCause (D.faults disk.old) (D.faults disk.new) result }
    ensures others { D.read_faults disk.new ≡ D.read_faults disk.old }
{
    let (_, rest) = text.split_at(FRONT_TEXT);
    write_synced(
        disk,
        COPY_SECTORS * copy + 1,
        COPY_SECTORS - 1,
        filled - 1,
        rest,
    )
}

/// Writes and syncs a text's copy, of which so many sectors stand in front of zeros.
#[tactic(auto, using(crate::proofs::Fronts::copy_then, crate::proofs::Fronts::copy_stopped))]
pub fn write_copy<D: SectorDisk>(
    disk: &mut D,
    copy: u32,
    filled: u32,
    text: &[u8],
) -> Result<(), DiskFailed>
    requires copy { copy < COPIES }
    requires text { IsCopyText filled text.now }
    ensures runs { Runs (copy_calls copy (copy_of text.now)) (D.told disk.old) (D.told disk.new) (is_ok result) }
    ensures cause { HasCause (D.faults disk.old) (D.faults disk.new) result }
    ensures others { D.read_faults disk.new ≡ D.read_faults disk.old }
{
    disk.write_front(COPY_SECTORS * copy, room_of(text), text)?;
    write_others(disk, copy, filled, text)?;
    Ok(())
}

/// Whether a copy reads as these bytes.
#[tactic(auto, unfolding(crate::specs::Opens::copy_reading))]
pub fn reads_as<D: SectorDisk>(disk: &mut D, copy: u32, bytes: &[u8]) -> bool
    requires copy { copy < COPIES }
    requires size { length bytes.now ≡ COPY_SIZE }
    ensures untouched { Untouched D.SectorDisk disk.old disk.new }
    ensures value { IfSome (D.told disk.old) (λ d. result ≡ has bytes.now (copy_reading d.face copy)) }
    ensures reads { D.read_faults disk.old ≤ D.read_faults disk.new }
{
    sectors_read_as(disk, COPY_SECTORS * copy, COPY_SECTORS, bytes)
}

// Whether a copy reads as that of this text, of which so many sectors stand in front of zeros.
fn reads_text<D: SectorDisk>(disk: &mut D, copy: u32, filled: u32, text: &[u8]) -> bool
    requires copy { copy < COPIES }
    requires text { IsCopyText filled text.now }
    ensures untouched { Untouched D.SectorDisk disk.old disk.new }
    ensures value { IfSome (D.told disk.old) (λ d. result ≡ has (copy_of text.now) (copy_reading d.face copy)) }
    ensures reads { D.read_faults disk.old ≤ D.read_faults disk.new }
{
    let (_, rest) = text.split_at(FRONT_TEXT);
    let first = COPY_SECTORS * copy;
    if !disk.reads_front(first, room_of(text), text) {
        return false;
    }
    read_filled(disk, first + 1, COPY_SECTORS - 1, filled - 1, rest)
}

/// Writes and syncs the first sector of a text's copy, then the others.
#[tactic(auto, using(crate::proofs::Fronts::mend_then, crate::proofs::Fronts::mend_stopped))]
pub fn mend_copy<D: SectorDisk>(
    disk: &mut D,
    copy: u32,
    filled: u32,
    text: &[u8],
) -> Result<(), DiskFailed>
    requires copy { copy < COPIES }
    requires text { IsCopyText filled text.now }
    ensures runs { Runs (mend_copy copy (copy_of text.now)) (D.told disk.old) (D.told disk.new) (is_ok result) }
    ensures cause { HasCause (D.faults disk.old) (D.faults disk.new) result }
    ensures others { D.read_faults disk.new ≡ D.read_faults disk.old }
{
    write_first(disk, COPY_SECTORS * copy, text)?;
    write_others(disk, copy, filled, text)?;
    Ok(())
}

/// Mends a copy unless it reads as that of this text.
pub fn mend_unless<D: SectorDisk>(
    disk: &mut D,
    copy: u32,
    filled: u32,
    text: &[u8],
) -> Result<(), DiskFailed>
    requires copy { copy < COPIES }
    requires text { IsCopyText filled text.now }
    ensures runs { RunsFrom (mend_unless copy (copy_of text.now)) (D.told disk.old) (D.told disk.new) (is_ok result) }
    ensures cause { HasCause (D.faults disk.old) (D.faults disk.new) result }
    ensures reads { D.read_faults disk.old ≤ D.read_faults disk.new }
{
    if !reads_text(disk, copy, filled, text) {
        mend_copy(disk, copy, filled, text)?;
    }
    Ok(())
}
