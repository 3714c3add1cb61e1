//! A file of version 1 becomes one of version 2.
ghost use Rattle.std.specs.Prelude.{◌≡◌, [], IfOk, is_ok};
ghost use Rattle.vr_base.specs.Causes.{HasCause};
ghost use Rattle.vr_disk.specs.Counts.{CountsFault, Caused};
ghost use Rattle.vr_disk.specs.DiskState.{RunsFrom};
ghost use Rattle.vr_disk.specs.declared.fault.Halt.TheVariants as Halt;
ghost use Rattle.vr_rules.specs.Migrating.{migrated};
ghost use Rattle.vr_opening.specs.Migration.{Migrated, MigratedAny, MovesOver, moving_calls};
ghost use Rattle.vr_opening.specs.declared.reopen.NoValue.TheVariants as NoValue;
ghost use Rattle.vr_opening.specs.declared.reopen.Refusal.TheVariants as Refusal;

use crate::reopen::{NoValue, Refusal, config_of, find_value, is_same, refusal_of};
use std::alloc::Global;
use vr_actions::Halt;
use vr_base::{Config, NoMemory, Seq, Version};
use vr_disk::{DiskFault, SectorDisk};
use vr_rings::move_slots;
use vr_super::{Fields, Super};

// The numbers that are saved in the end: version 2, and the next sequence number, up to 2^64 - 1; all else as they were.
fn migrated_fields(old: Fields) -> Fields
    ensures { result ≡ (migrated (record { fields = old; headers = [] })).fields }
{
    Fields {
        sequence: old.sequence.saturating_add(1),
        version: Version::new(2),
        ..old
    }
}

// The value that is saved in the end: version 2, the next sequence number, up to 2^64 - 1, and all else, the headers too, as in the old one.
fn migrated(alloc: Global, old: &Super) -> Result<Super, NoMemory>
    ensures { IfOk result (λ v. v ≡ migrated old.now) }
{
    let fields = migrated_fields(old.fields());
    let mut headers = Seq::new(alloc);
    headers.extend(old.headers())?;
    Super::new(alloc, fields, headers)
}

// Writes the prepare of each slot at its new place, and syncs once; then mends the old value, and writes the new one's four copies. An `Err` is a
// call that failed: those before it were made, and none after it. It adds one to the disk's faults; an `Ok` leaves them.
#[tactic(auto, using(crate::proofs::Moves::moved_then, crate::proofs::Moves::moved_stopped))]
fn move_over<D: SectorDisk>(disk: &mut D, old: &Super, new: &Super) -> Result<(), DiskFault>
    ensures runs { RunsFrom (moving_calls old.now new.now) (D.told disk.old) (D.told disk.new) (is_ok result) }
    ensures cause { HasCause (D.faults disk.old) (D.faults disk.new) result }
{
    move_slots(disk)?;
    match vr_super::write(disk, old, new) {
        Ok(()) => Ok(()),
        Err(_) => Err(DiskFault),
    }
}

// The file of this value, whose copies are mended, becomes one of version 2. One of version 2 is left as it is, and no call is made. Else each slot's
// prepare is written at its new place, and then the value saved with the new version. `DiskFault`: the calls were made up to the one that failed, and
// it alone adds one to the disk's faults. `NoMemory`: none was made.
#[tactic(auto, using(crate::proofs::Moves::over_moved, crate::proofs::Moves::over_nothing))]
fn migrate_mended<D: SectorDisk>(alloc: Global, disk: &mut D, value: &Super) -> Result<(), Halt>
    ensures cause { Caused (D.faults disk.old) (D.faults disk.new) result }
    ensures step { MovesOver value.now (D.told disk.old) (D.told disk.new) result }
{
    if value.fields().version.get() == 2 {
        return Ok(());
    }
    match migrated(alloc, value) {
        Err(_) => Err(Halt::NoMemory),
        Ok(new) => match move_over(disk, value, &new) {
            Ok(()) => Ok(()),
            Err(_) => Err(Halt::DiskFault),
        },
    }
}

/// The file of a disk becomes one of version 2, if that is the disk of the member that is asked for. Its superblock is mended; in a file of version 1
/// each slot's prepare is written at its new place, and then the value saved as one of version 2. `Lost`: no value opens, and no call is made;
/// `OtherMember`: that member's superblock is mended, and no other call made. `Halted`: the calls were made up to the one that failed, which alone
/// adds one to the disk's faults; for want of memory none was, or the mending's alone.
pub fn migrate<D: SectorDisk>(alloc: Global, disk: &mut D, asked: &Config) -> Result<(), Refusal>
    ensures cause { CountsFault (Refusal.Halted Halt.DiskFault) (D.faults disk.old) (D.faults disk.new) result }
    ensures step { Migrated asked.now (D.told disk.old) (D.told disk.new) result }
{
    match find_value(alloc, disk, &None) {
        Err(why) => Err(refusal_of(why)),
        Ok(value) => {
            let found = config_of(&value);
            if is_same(&found, asked) {
                let moved = migrate_mended(alloc, disk, &value);
                drop(value);
                match moved {
                    Ok(()) => Ok(()),
                    Err(halt) => Err(Refusal::Halted(halt)),
                }
            } else {
                drop(value);
                Err(Refusal::OtherMember(found))
            }
        }
    }
}

/// The file of a disk, of version 1, becomes one of version 2, whatever member's disk it is. Its superblock is mended, each slot's prepare written at
/// its new place, and then the value saved as one of version 2. `Lost`: no two good copies agree; `OtherVersion`: they do, but the file is of version
/// 2. Neither makes a call. `Halted`: the calls were made up to the one that failed, which alone adds one to the disk's faults; for want of memory
/// none was, or the mending's alone.
pub fn migrate_any<D: SectorDisk>(alloc: Global, disk: &mut D) -> Result<(), NoValue>
    ensures cause { CountsFault (NoValue.Halted Halt.DiskFault) (D.faults disk.old) (D.faults disk.new) result }
    ensures step { MigratedAny (D.told disk.old) (D.told disk.new) result }
{
    match find_value(alloc, disk, &Some(Version::new(1))) {
        Err(why) => Err(why),
        Ok(value) => {
            let moved = migrate_mended(alloc, disk, &value);
            drop(value);
            match moved {
                Ok(()) => Ok(()),
                Err(halt) => Err(NoValue::Halted(halt)),
            }
        }
    }
}
