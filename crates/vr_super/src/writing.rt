//! Mending and writing a value.
ghost use Rattle.std.specs.Prelude.{◌≡◌, ◌≤◌, ◌<◌, [], length, IfErr, IfSome, is_ok, Some};
ghost use Rattle.vr_base.specs.Causes.{HasCause};
ghost use Rattle.vr_disk.specs.DiskState.{Runs, RunsFrom};
ghost use Rattle.vr_super.specs.Calls.{mend_calls, mend_from, save_from, write_calls};
ghost use Rattle.vr_super.specs.Copies.{IsCopyText, IsGood, copy_bytes, copy_of};
ghost use Rattle.vr_super.specs.Laws.{WriteLeads, Written};
ghost use Rattle.vr_super.specs.Opens.{opens};
ghost use Rattle.vr_disk.specs.Untouched.{Untouched};

use crate::copies::{mend_unless, write_copy};
use crate::places::TEXT_LIST_AT;
use crate::{Super, SuperFault};
use vr_base::sum_at;
use vr_disk::{COPIES, DiskFailed, DiskFault, Room, SectorDisk};
use vr_header::{HEADER_SIZE, NAMED_AT};

// Mends each copy that doesn't read as that of this text, of which so many sectors stand in front of zeros.
fn mend<D: SectorDisk>(disk: &mut D, filled: u32, text: &[u8]) -> Result<(), DiskFailed>
    requires text { IsCopyText filled text.now }
    ensures runs { RunsFrom (mend_from 0 4 (copy_of text.now)) (D.told disk.old) (D.told disk.new) (is_ok result) }
    ensures cause { HasCause (D.faults disk.old) (D.faults disk.new) result }
    ensures reads { D.read_faults disk.old ≤ D.read_faults disk.new }
{
    for copy in 0..COPIES {
        mend_unless(disk, copy, filled, text)?;
    }
    Ok(())
}

// Writes all four copies of this text, of which so many sectors stand in front of zeros.
#[tactic(auto, using(vr_disk::proofs::Running::Runs_then, vr_disk::proofs::Running::Runs_stopped))]
fn save<D: SectorDisk>(disk: &mut D, filled: u32, text: &[u8]) -> Result<(), DiskFailed>
    requires text { IsCopyText filled text.now }
    ensures runs { Runs (save_from 0 4 (copy_of text.now)) (D.told disk.old) (D.told disk.new) (is_ok result) }
    ensures cause { HasCause (D.faults disk.old) (D.faults disk.new) result }
    ensures others { D.read_faults disk.new ≡ D.read_faults disk.old }
{
    for copy in 0..COPIES {
        write_copy(disk, copy, filled, text)?;
    }
    Ok(())
}

/// Mends each copy that doesn't read as this value.
pub fn mend_value<D: SectorDisk>(disk: &mut D, value: &Super) -> Result<(), DiskFault>
    ensures runs { RunsFrom (mend_calls value.now) (D.told disk.old) (D.told disk.new) (is_ok result) }
    ensures cause { HasCause (D.faults disk.old) (D.faults disk.new) result }
    ensures reads { D.read_faults disk.old ≤ D.read_faults disk.new }
{
    mend(disk, value.filled(), value.text())?;
    Ok(())
}

// The disk keeps the bytes of a header of its list with their name.
#[tactic(auto, unfolding(vr_base::specs::Bytes::piece))]
fn keep_header<D: SectorDisk>(disk: &mut D, value: &Super, at: usize)
    requires { at < length value.now.headers }
    ensures untouched { Untouched D.SectorDisk disk.old disk.new }
    ensures reads { D.read_faults disk.new ≡ D.read_faults disk.old }
{
    let text = value.text();
    let start = TEXT_LIST_AT + HEADER_SIZE * at;
    disk.keep_name(
        Room::Header(value.headers()[at].op),
        &text[start + NAMED_AT..start + HEADER_SIZE],
        sum_at(text, start),
    );
}

// The disk keeps each header of a value's list with its name.
fn keep_names<D: SectorDisk>(disk: &mut D, value: &Super)
    ensures untouched { Untouched D.SectorDisk disk.old disk.new }
    ensures reads { D.read_faults disk.new ≡ D.read_faults disk.old }
{
    for at in 0..value.headers().len() {
        keep_header(disk, value, at);
    }
}

// The disk keeps the bytes of a header of its list with their name, unless an old value has it: then it was kept already.
fn keep_new_header<D: SectorDisk>(disk: &mut D, old: &Super, value: &Super, at: usize)
    requires { at < length value.now.headers }
    ensures untouched { Untouched D.SectorDisk disk.old disk.new }
    ensures reads { D.read_faults disk.new ≡ D.read_faults disk.old }
{
    if !old.lists(&value.headers()[at]) {
        keep_header(disk, value, at);
    }
}

// The disk keeps each header of a value's list with its name, but those that the old value has.
fn keep_new_names<D: SectorDisk>(disk: &mut D, old: &Super, value: &Super)
    ensures untouched { Untouched D.SectorDisk disk.old disk.new }
    ensures reads { D.read_faults disk.new ≡ D.read_faults disk.old }
{
    for at in 0..value.headers().len() {
        keep_new_header(disk, old, value, at);
    }
}

/// Writes a value to all four copies of a disk that has none to be mended.
pub fn write_copies<D: SectorDisk>(disk: &mut D, value: &Super) -> Result<(), DiskFault>
    ensures runs { Runs (save_from 0 4 (copy_bytes value.now)) (D.told disk.old) (D.told disk.new) (is_ok result) }
    ensures cause { HasCause (D.faults disk.old) (D.faults disk.new) result }
    ensures others { D.read_faults disk.new ≡ D.read_faults disk.old }
{
    keep_names(disk, value);
    save(disk, value.filled(), value.text())?;
    Ok(())
}

// Mends the old value, then writes the new one to all four copies.
#[tactic(auto, using(std::proofs::lemmas::Grind::common_steps, crate::proofs::Steps::write_then, crate::proofs::Steps::write_stopped, crate::proofs::Steps::leads))]
fn write_value<D: SectorDisk>(disk: &mut D, old: &Super, new: &Super) -> Result<(), DiskFailed>
    ensures runs { RunsFrom (write_calls old.now new.now) (D.told disk.old) (D.told disk.new) (is_ok result) }
    ensures cause { HasCause (D.faults disk.old) (D.faults disk.new) result }
    ensures reads { D.read_faults disk.old ≤ D.read_faults disk.new }
    ensures stop { IfSome (D.told disk.old) (λ d. d.face.waiting ≡ [] → opens d.face ≡ Some old.now → WriteLeads old.now new.now d.face) }
    ensures good { IsGood new.now }
{
    let text = new.text();
    keep_new_names(disk, old, new);
    mend(disk, old.filled(), old.text())?;
    save(disk, new.filled(), text)?;
    Ok(())
}

/// Mends the old value, then writes the new one to all four copies.
pub fn write<D: SectorDisk>(disk: &mut D, old: &Super, new: &Super) -> Result<(), SuperFault>
    ensures runs { RunsFrom (write_calls old.now new.now) (D.told disk.old) (D.told disk.new) (is_ok result) }
    ensures cause { HasCause (D.faults disk.old) (D.faults disk.new) result }
    ensures reads { D.read_faults disk.old ≤ D.read_faults disk.new }
    ensures fault { IfErr result (λ e. e ≡ SuperFault.DiskFault) }

    // A stop at any of these calls leaves a disk that opens as the old value or as the new one.
    ensures stop { IfSome (D.told disk.old) (λ d. d.face.waiting ≡ [] → opens d.face ≡ Some old.now → WriteLeads old.now new.now d.face) }

    // The disk as the call leaves it opens as one of the two as well; after an `Ok` as the new value.
    ensures left { IfSome (D.told disk.old) (λ d. d.face.waiting ≡ [] → opens d.face ≡ Some old.now → IfSome (D.told disk.new) (λ e. Written old.now new.now (is_ok result) e.face)) }
{
    match write_value(disk, old, new) {
        Ok(()) => Ok(()),
        Err(_) => Err(SuperFault::DiskFault),
    }
}
