//! The checkpoint is loaded.
ghost use Rattle.std.specs.Prelude.{◌≡◌, IfOk, nat_lt};
ghost use Rattle.vr_rules.specs.Replica.{version};
ghost use Rattle.vr_rules.specs.Words.{load, checkpoint_at};
ghost use Rattle.vr_rules.specs.Does.{Finds};
ghost use Rattle.vr_volatile.specs.Ready.{MayLoad};
ghost use Rattle.vr_actions.specs.Acts.{Acts, Keeps};
ghost use Rattle.vr_disk.specs.Untouched.{Untouched};

use std::alloc::Global;
use vr_base::NoMemory;
use vr_ckpt::Load;
use vr_disk::{Halt, SectorDisk};
use vr_msg::Outbox;
use vr_volatile::Replica;

// What the disk has of the checkpoint with the replica's root: its texts and table, or what is missing. Missing is the root alone, where
// that doesn't read, else the data blocks that don't. The disk is only read. An `Err` is want of memory.
#[tactic(auto, using(crate::proofs::Loads::checkpoint_found))]
fn find_checkpoint<D: SectorDisk>(
    replica: &Replica,
    alloc: Global,
    disk: &mut D,
) -> Result<Load, NoMemory>
    ensures found { IfOk result (λ l. Finds (version replica.now) (checkpoint_at replica.now.root) (D.told disk.old) (D.told disk.new) l) }
    ensures untouched { Untouched D.SectorDisk disk.old disk.new }
{
    vr_ckpt::load(alloc, disk, replica.root())
}

// Whether the op of the checkpoint isn't 0.
fn has_checkpoint(replica: &Replica) -> bool
    ensures { result ≡ nat_lt 0 replica.now.checkpoint }
{
    0 < replica.checkpoint()
}

/// Where there is a checkpoint and all its blocks read, state and table become its own, and no block is missing. Else both stay, and
/// missing are the blocks that don't read; or the root alone, where it doesn't read, or its state doesn't decode or fit the file's version.
/// Without a checkpoint nothing changes. Nothing is written or put out; after an `Err` nothing is said of the replica. `MayLoad`: nothing
/// is applied above the checkpoint.
#[tactic(auto, using(crate::proofs::Loads::load_then, crate::proofs::Loads::load_none, vr_rules::proofs::Stepping::does_no_memory, crate::proofs::Loads::ready_loaded, crate::proofs::Loads::ready_opened))]
pub fn load<D: SectorDisk>(
    replica: &mut Replica,
    alloc: Global,
    disk: &mut D,
    _out: &mut Outbox,
) -> Result<(), Halt>
    requires opened { MayLoad replica.old }
    ensures keeps { Keeps replica.old replica.new result }
    ensures acts { Acts D.SectorDisk load replica.old replica.new disk.old disk.new _out.old _out.new result }
{
    if has_checkpoint(replica) {
        let found = find_checkpoint(replica, alloc, disk)?;
        replica.take_load(alloc, found)?;
        Ok(())
    } else {
        Ok(())
    }
}
