//! Prepares of a file of version 1, at their places in one of version 2.
ghost use Rattle.std.specs.Prelude.{◌≡◌, ◌<◌, ◌||◌, Some, IfSome, if◌then◌else◌, is_ok, length, replicate};
ghost use Rattle.vr_base.specs.Bytes.{is_zeros};
ghost use Rattle.vr_base.specs.Causes.{HasCause};
ghost use Rattle.vr_disk.specs.DiskState.{RunsFrom};
ghost use Rattle.vr_rings.specs.Held.{is_prepare};
ghost use Rattle.vr_rings.specs.Moving.{all_moved, is_movable, move_calls, moved_of, relocated, slot_moves};
ghost use Rattle.vr_rings.specs.Slots.{prepare_reading};
ghost use Rattle.vr_disk.specs.Untouched.{Untouched};

use crate::bytes::whole_of;
use crate::reading::read_bytes;
use crate::sizes::PREPARE_SIZE;
use vr_base::{Version, is_zeros};
use vr_disk::{
    DiskFailed, DiskFault, SLOTS, SectorDisk, prepare_place, prepare_sectors, write_sectors,
};

// Stands all over a new prepare whose old one is lost: no entry, and no zeros either.
const LOST: u8 = 255;

// Whether these bytes of an old prepare are written to the new one as they are: a whole entry, or zeros.
fn is_movable<D: SectorDisk>(disk: &mut D, prepare: &[u8]) -> bool
    requires { length prepare.now ≡ 4096 }
    ensures value { result ≡ (is_prepare prepare.now || is_zeros prepare.now) }
    ensures untouched { Untouched D.SectorDisk disk.old disk.new }
{
    whole_of(disk, prepare).is_some() || is_zeros(prepare)
}

// Reads the old prepare of a slot; whether it is written to the new one as it is.
#[tactic(auto, using(crate::proofs::Relocated::read_moved))]
fn read_movable<D: SectorDisk>(disk: &mut D, slot: u32, to: &mut [u8]) -> bool
    requires slot { slot < 64 }
    requires size { length to.old ≡ 4096 }
    ensures value { IfSome (D.told disk.old) (λ d. relocated d.face slot ≡ (if result then to.new else replicate 4096 255)) }
    ensures size { length to.new ≡ 4096 }
    ensures untouched { Untouched D.SectorDisk disk.old disk.new }
{
    read_bytes(disk, slot, to, Version::new(1)) && is_movable(disk, to)
}

// The new prepare of a slot, over this room.
fn relocate<D: SectorDisk>(disk: &mut D, slot: u32, to: &mut [u8])
    requires slot { slot < 64 }
    requires size { length to.old ≡ 4096 }
    ensures value { IfSome (D.told disk.old) (λ d. to.new ≡ relocated d.face slot) }
    ensures size { length to.new ≡ 4096 }
    ensures untouched { Untouched D.SectorDisk disk.old disk.new }
{
    if !read_movable(disk, slot, to) {
        to.fill(LOST);
    }
}

// Writes the prepare of a slot at its new place.
fn move_slot<D: SectorDisk>(disk: &mut D, slot: u32) -> Result<(), DiskFailed>
    requires { slot < 64 }
    ensures runs { RunsFrom (λ f. slot_moves f slot) (D.told disk.old) (D.told disk.new) (is_ok result) }
    ensures cause { HasCause (D.faults disk.old) (D.faults disk.new) result }
{
    let mut prepare = [0; PREPARE_SIZE];
    relocate(disk, slot, &mut prepare);
    let version = Version::new(2);
    let at = prepare_place(slot, version);
    write_sectors(disk, at, prepare_sectors(version), &prepare)
}

// Writes those of all slots, one after another.
fn move_all<D: SectorDisk>(disk: &mut D) -> Result<(), DiskFailed>
    ensures runs { RunsFrom all_moved (D.told disk.old) (D.told disk.new) (is_ok result) }
    ensures cause { HasCause (D.faults disk.old) (D.faults disk.new) result }
{
    for slot in 0..SLOTS {
        move_slot(disk, slot)?;
    }
    Ok(())
}

/// Writes each slot's prepare of a file of version 1 at its place in one of version 2, and syncs them: what the old one reads
/// as where that is a whole entry or zeros, and else bytes that are neither. The old ones stay. It takes no memory.
#[tactic(auto, using(crate::proofs::Relocated::moved_not))]
pub fn move_slots<D: SectorDisk>(disk: &mut D) -> Result<(), DiskFault>
    ensures runs { RunsFrom (λ f. move_calls (relocated f)) (D.told disk.old) (D.told disk.new) (is_ok result) }
    ensures cause { HasCause (D.faults disk.old) (D.faults disk.new) result }
{
    move_all(disk)?;
    disk.sync()?;
    Ok(())
}
