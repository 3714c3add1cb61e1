//! The effects of a replica on its disk, each by the call of its storage crate.
ghost use Rattle.std.specs.Prelude.{◌≡◌, ◌≤◌, ◌+◌, OnOk, is_ok, is_some, true};
ghost use Rattle.vr_base.specs.Causes.{HasCause};
ghost use Rattle.vr_rules.specs.Replica.{version};
ghost use Rattle.vr_rules.specs.Words.{writes, saves, with_saved, value_of};
ghost use Rattle.vr_ckpt.specs.Blocks.{named};
ghost use Rattle.vr_actions.specs.Effects.{rewrites, puts};
ghost use Rattle.vr_rings.specs.Slots.{Takes};
ghost use Rattle.vr_rules.specs.Does.{Performs};

use vr_ckpt::Name;
use vr_disk::{DiskFault, SectorDisk};
use vr_header::{Entry, Header};
use vr_rings::{write_again, write_header, write_new};
use vr_super::Super;
use vr_volatile::{Replica, may_be_stored};

/// Writes and syncs an entry's slot: where the Part of its op is `Here`, `Lost` or `Unknown` the header sector first, else the prepare
/// first, then the other. The Part stays what it was, and nothing is put out. `Takes`: a file of the replica's version may have an entry of
/// this version. An `Err` comes exactly where a call failed, and the disk got these calls up to that one.
#[tactic(auto, using(crate::proofs::Performing::write_is_again, crate::proofs::Performing::write_is_new))]
pub(crate) fn write_entry<D: SectorDisk>(
    replica: &Replica,
    disk: &mut D,
    entry: &Entry,
) -> Result<(), DiskFault>
    requires { Takes (version replica.now) entry.now }
    ensures runs { Performs (writes entry.now) replica.now (D.told disk.old) (D.told disk.new) (is_ok result) }
    ensures cause { HasCause (D.faults disk.old) (D.faults disk.new) result }
{
    if may_be_stored(&replica.part_at(entry.header().op)) {
        write_again(disk, entry, replica.version())
    } else {
        write_new(disk, entry, replica.version())
    }
}

/// Mends each copy of the superblock that doesn't read as the value last saved, then writes this value, the replica's present one, into all
/// four. After `Ok` it is the value last saved, and nothing else of the replica changed; nothing is put out. An `Err` comes exactly where a
/// call failed: the disk got these calls up to that one, and nothing is said of the replica.
#[tactic(auto, using(crate::proofs::Performing::save_is))]
pub(crate) fn save_value<D: SectorDisk>(
    replica: &mut Replica,
    disk: &mut D,
    value: Super,
) -> Result<(), DiskFault>
    requires { value ≡ value_of replica.old }
    ensures runs { Performs saves replica.old (D.told disk.old) (D.told disk.new) (is_ok result) }
    ensures cause { HasCause (D.faults disk.old) (D.faults disk.new) result }
    ensures saved { OnOk result (replica.new ≡ with_saved replica.old) }
    ensures spent { OnOk result (replica.new.saved.fields.sequence ≤ replica.old.saved.fields.sequence + 1) }
{
    match vr_super::write(disk, replica.saved(), &value) {
        Ok(()) => {
            replica.keep_saved(value);
            Ok(())
        }
        Err(_) => Err(DiskFault),
    }
}

/// Writes the header sector of this header's slot, its op modulo 64, and syncs; the prepare isn't touched, and nothing is put out. An `Err`
/// comes exactly where a call failed, and the disk got these calls up to that one.
#[tactic(auto, using(crate::proofs::Performing::rewrite_is))]
pub fn rewrite_header<D: SectorDisk>(
    _replica: &Replica,
    disk: &mut D,
    header: &Header,
) -> Result<(), DiskFault>
    ensures runs { Performs (rewrites header.now) _replica.now (D.told disk.old) (D.told disk.new) (is_ok result) }
    ensures cause { HasCause (D.faults disk.old) (D.faults disk.new) result }
{
    write_header(disk, header)
}

/// Writes the bytes, which are the whole block of this name, at the name's address, and syncs. What is missing or worn stays as it was, and
/// nothing is put out. An `Err` comes exactly where a call failed, and the disk got these calls up to that one.
#[tactic(auto, using(crate::proofs::Performing::put_is))]
pub fn put_block<D: SectorDisk>(
    _replica: &Replica,
    disk: &mut D,
    name: &Name,
    block: &[u8],
) -> Result<(), DiskFault>
    requires { is_some (named name.now block.now) ≡ true }
    ensures runs { Performs (puts name.now block.now) _replica.now (D.told disk.old) (D.told disk.new) (is_ok result) }
    ensures cause { HasCause (D.faults disk.old) (D.faults disk.new) result }
{
    vr_ckpt::put_block(disk, name, block)
}
