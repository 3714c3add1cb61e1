//! Repair of blocks.
ghost use Rattle.std.specs.Prelude.{◌≡◌, Some, find};
ghost use Rattle.vr_volatile.specs.Ready.{IsReady};
ghost use Rattle.vr_repair.specs.Repairs.{is_block};
ghost use Rattle.vr_rules.specs.Deciding.{is_wanted};
ghost use Rattle.vr_rules.specs.Rules.{asked_block, block_at, give_read, mend_found, on_get_block, on_give_block, put_found};
ghost use Rattle.vr_rules.specs.Steps.{reading};
ghost use Rattle.vr_disk.specs.Counts.{Caused};
ghost use Rattle.vr_rules.specs.Does.{Does};
ghost use Rattle.vr_actions.specs.Acts.{Acts, MayAct};

use crate::deciding::{Repair, decide_get_block};
use crate::finding::find_block;
use crate::missing::put_block;
use crate::wanting::decide_give_block;
use std::alloc::Global;
use vr_actions::{Halt, Replica, apply};
use vr_ckpt::Name;
use vr_disk::SectorDisk;
use vr_msg::{GetBlock, GiveBlock, Outbox};

// The name of the block that is asked for: its address and its sum.
fn asked_block(get: &GetBlock) -> Name
    ensures { result ≡ asked_block get.now }
{
    Name {
        address: get.address,
        sum: get.name,
    }
}

// Where the asked block reads whole under its name, one give_block with its bytes goes to the sender; else nothing is put out. The disk is
// only read; after an `Err` nothing is said of outputs.
#[tactic(auto, using(crate::proofs::Rules::block_read, crate::proofs::Rules::block_unread, vr_rules::proofs::Stepping::wants))]
fn give_block<D: SectorDisk>(
    replica: &Replica,
    alloc: Global,
    disk: &mut D,
    get: &GetBlock,
    out: &mut Outbox,
) -> Result<(), Halt>
    ensures cause { Caused (D.faults disk.old) (D.faults disk.new) result }
    ensures step { Does (reading (block_at (asked_block get.now)) (give_read get.now)) replica.now replica.now (D.told disk.old) (D.told disk.new) out.old out.new result }
{
    match find_block(alloc, disk, &asked_block(get))? {
        Some(block) => replica.give_block(get.replica, get.address, block, out)?,
        None => {}
    }
    Ok(())
}

/// Rule 30, of a message of this version and group, from another replica: where the asked block reads whole under its name, it goes to the
/// sender in a give_block. Else nothing is done. Replica and disk are left as they are; after an `Err` nothing is said of outputs.
#[tactic(auto, using(crate::proofs::Rules::block_given, crate::proofs::Rules::get_block_ignored))]
pub fn handle_get_block<D: SectorDisk>(
    replica: &Replica,
    alloc: Global,
    disk: &mut D,
    get: &GetBlock,
    out: &mut Outbox,
) -> Result<(), Halt>
    ensures cause { Caused (D.faults disk.old) (D.faults disk.new) result }
    ensures step { Does (on_get_block get.now) replica.now replica.now (D.told disk.old) (D.told disk.new) out.old out.new result }
{
    match decide_get_block(replica, get) {
        Repair::BlockGiven => give_block(replica, alloc, disk, get, out),
        _ => Ok(()),
    }
}

// The name is the first missing one whose block the bytes are. They are written at its address, and then no block of that address is
// missing. Where none is missing now, the checkpoint is loaded anew; then what is committed is applied. After an `Err` the disk has had its
// calls up to the stop; of replica and outputs nothing is said.
#[tactic(auto, using(vr_rules::proofs::Stepping::steps, crate::proofs::Rules::may_put, crate::proofs::Rules::is_put))]
fn take_block<D: SectorDisk>(
    replica: &mut Replica,
    alloc: Global,
    disk: &mut D,
    give: &GiveBlock,
    name: Name,
    out: &mut Outbox,
) -> Result<(), Halt>
    requires act { MayAct 64 replica.old }
    requires found { find (is_wanted is_block give.now) replica.old.missing ≡ Some name }
    ensures { Acts D.SectorDisk (put_found give.now.block (Some name)) replica.old replica.new disk.old disk.new out.old out.new result }
{
    put_block(replica, alloc, disk, &name, give.block.as_slice(), out)?;
    apply(replica, alloc, disk, out)
}

// The name is the first worn one whose block the bytes are. They are written at its address, and then no block of that address is worn.
// Nothing else of the replica changes, and nothing is put out. After an `Err` the disk has had its calls up to the stop; of replica and
// outputs nothing is said.
#[tactic(auto, using(crate::proofs::Words::mended_then, crate::proofs::Words::mended_stopped, crate::proofs::Rules::is_put, vr_volatile::proofs::Repairs::ready_unworn))]
fn mend_block<D: SectorDisk>(
    replica: &mut Replica,
    disk: &mut D,
    give: &GiveBlock,
    name: Name,
    _out: &mut Outbox,
) -> Result<(), Halt>
    requires ready { IsReady replica.old }
    requires found { find (is_wanted is_block give.now) replica.old.worn ≡ Some name }
    ensures { Acts D.SectorDisk (mend_found give.now.block (Some name)) replica.old replica.new disk.old disk.new _out.old _out.new result }
{
    vr_actions::put_block(replica, disk, &name, give.block.as_slice())?;
    replica.drop_worn(&name);
    Ok(())
}

/// Only from another replica of this version and group is anything done. Rule 31a: where the bytes are a missing block of this address,
/// whole, it is written, and no longer missing. If none is missing then, the checkpoint is loaded anew; then what is committed is applied.
/// Else rule 31b: where they are such a worn block, it is written, and no longer worn. Else nothing is done. After an `Err` the disk has
/// had its calls up to the stop; of replica and outputs nothing is said.
#[tactic(auto, using(crate::proofs::Rules::block_taken, crate::proofs::Rules::block_mended, crate::proofs::Rules::give_block_ignored))]
pub fn handle_give_block<D: SectorDisk>(
    replica: &mut Replica,
    alloc: Global,
    disk: &mut D,
    give: &GiveBlock,
    out: &mut Outbox,
) -> Result<(), Halt>
    requires { MayAct 64 replica.old }
    ensures { Acts D.SectorDisk (on_give_block give.now) replica.old replica.new disk.old disk.new out.old out.new result }
{
    match decide_give_block(replica, give) {
        Repair::BlockTaken(name) => take_block(replica, alloc, disk, give, name, out),
        Repair::BlockMended(name) => mend_block(replica, disk, give, name, out),
        _ => Ok(()),
    }
}
