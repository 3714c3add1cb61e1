//! What a replica does as it opens, once its Parts are found.
ghost use Rattle.std.specs.Prelude.{◌≡◌, ◌<◌, ◌≤◌, ◌+◌, ◌++◌, ◌^◌, [], OnOk, nat_le, if◌then◌else◌};
ghost use Rattle.vr_rules.specs.Opening.{announce, going_on, leave_view, recover_parts, resuming};
ghost use Rattle.vr_rules.specs.Outputs.{send_to_all, start_view_change};
ghost use Rattle.vr_rules.specs.Replica.{last_view};
ghost use Rattle.vr_rules.specs.Words.{apply, load};
ghost use Rattle.vr_rules.specs.Steps.{◌⨾◌};
ghost use Rattle.vr_rules.specs.Does.{Does};
ghost use Rattle.vr_disk.specs.Counts.{Caused};
ghost use Rattle.vr_volatile.specs.Ready.{IsReady, MayLoad};
ghost use Rattle.vr_opening.specs.Finding.{IsOpeningOld};
ghost use Rattle.vr_actions.specs.Acts.{Acts};

use crate::opening::recover_parts;
use std::alloc::{AllocError, Global};
use vr_actions::{Halt, LAST_VIEW, Replica, apply, load, save};
use vr_disk::SectorDisk;
use vr_msg::Outbox;

// A replica that leads, the primary of a started view, goes to the next view and saves that: it doesn't lead its old view again. Any other replica
// stays as it is, and makes no call of the disk. Nothing is put out. After `Ok` it is ready, with nothing applied above its checkpoint, and its
// sequence number is one more at most. After an `Err` the disk got the save's calls up to the one that failed, or a front of them; of the replica
// nothing is said.
#[tactic(auto, using(crate::proofs::Begins::next_fits, crate::proofs::Begins::opened_next, crate::proofs::Begins::opened_member, vr_actions::proofs::Loads::ready_opened))]
fn leave_view<D: SectorDisk>(
    replica: &mut Replica,
    alloc: Global,
    disk: &mut D,
    out: &mut Outbox,
) -> Result<(), Halt>
    requires opened { MayLoad replica.old }
    requires room { replica.old.saved.fields.sequence + 1 < 2 ^ 64 }
    ensures opened { OnOk result (MayLoad replica.new) }
    ensures spent { OnOk result (replica.new.saved.fields.sequence ≤ replica.old.saved.fields.sequence + 1) }
    ensures cause { Caused (D.faults disk.old) (D.faults disk.new) result }
    ensures step { Does leave_view replica.old replica.new (D.told disk.old) (D.told disk.new) out.old out.new result }
{
    if replica.leads() {
        replica.to_next_view();
        save(replica, alloc, disk, out)
    } else {
        Ok(())
    }
}

// ---- the others hear of it

// Puts out a `start_view_change` of its view to each other replica, ascending, after the outputs that there are; past the last view, nothing. After an `Err`,
// want of memory, nothing is said of the outputs.
fn tell_view(replica: &Replica, out: &mut Outbox) -> Result<(), AllocError>
    ensures { OnOk result (out.new ≡ out.old ++ (if nat_le replica.now.view last_view then send_to_all start_view_change replica.now else [])) }
{
    if replica.view() <= LAST_VIEW {
        replica.tell_change(out)
    } else {
        Ok(())
    }
}

// A replica whose view isn't started sends each other one a `start_view_change` of it, unless it is past the last view; before that it counts itself
// alone as heard. One whose view is started stays as it is. All else of the replica stays, and no call of the disk is made. After `Ok` it is ready.
#[tactic(auto, using(crate::proofs::Begins::announce_then, crate::proofs::Begins::announce_none, crate::proofs::Begins::ready_heard, vr_rules::proofs::Stepping::does_no_memory))]
fn announce<D: SectorDisk>(
    replica: &mut Replica,
    _disk: &mut D,
    out: &mut Outbox,
) -> Result<(), Halt>
    requires ready { IsReady replica.old }
    ensures { Acts D.SectorDisk announce replica.old replica.new _disk.old _disk.new out.old out.new result }
{
    if replica.is_started() {
        Ok(())
    } else {
        replica.hear_itself();
        tell_view(replica, out)?;
        Ok(())
    }
}

// In this order: the checkpoint, where there is one, is loaded; committed entries are applied and put out, with a checkpoint where one is due. Of a
// view that isn't started the others are told at last. While blocks of the checkpoint can't be read, they count as missing, and nothing is applied.
// After `Ok` it is ready.
#[tactic(auto, using(vr_actions::proofs::Loads::ready_opened))]
fn load_on<D: SectorDisk>(
    replica: &mut Replica,
    alloc: Global,
    disk: &mut D,
    out: &mut Outbox,
) -> Result<(), Halt>
    requires opened { MayLoad replica.old }
    requires room { replica.old.saved.fields.sequence + 64 < 2 ^ 64 }
    ensures { Acts D.SectorDisk (load ⨾ apply ⨾ announce) replica.old replica.new disk.old disk.new out.old out.new result }
{
    load(replica, alloc, disk, out)?;
    apply(replica, alloc, disk, out)?;
    announce(replica, disk, out)
}

// In this order: a replica that leads goes to the next view and saves that; the start line is put out. Then its checkpoint is loaded, committed
// entries are applied, and of a view that isn't started the others are told. After `Ok` it is ready.
#[tactic(auto, using(vr_rules::proofs::Stepping::steps, vr_actions::proofs::Loads::ready_opened))]
fn go_on<D: SectorDisk>(
    replica: &mut Replica,
    alloc: Global,
    disk: &mut D,
    out: &mut Outbox,
) -> Result<(), Halt>
    requires opened { MayLoad replica.old }
    requires room { replica.old.saved.fields.sequence + 65 < 2 ^ 64 }
    ensures { Acts D.SectorDisk going_on replica.old replica.new disk.old disk.new out.old out.new result }
{
    leave_view(replica, alloc, disk, out)?;
    replica.say_start(out)?;
    load_on(replica, alloc, disk, out)
}

// Where sequence numbers are at their end, above 2^64 - 256, the start line is put out, and nothing is written or sent. Else a replica that leads
// goes to the next view and saves that; the start line comes next. Then its checkpoint is loaded, committed entries are applied, and of a view that
// isn't started the others are told. After `Ok` it is ready.
#[tactic(auto, using(crate::proofs::Begins::resumed, crate::proofs::Begins::spent, crate::proofs::Begins::unspent_room, vr_actions::proofs::Loads::ready_opened, vr_rules::proofs::Stepping::wants))]
fn resume<D: SectorDisk>(
    replica: &mut Replica,
    alloc: Global,
    disk: &mut D,
    out: &mut Outbox,
) -> Result<(), Halt>
    requires opened { MayLoad replica.old }
    ensures { Acts D.SectorDisk resuming replica.old replica.new disk.old disk.new out.old out.new result }
{
    if replica.is_spent() {
        replica.say_start(out)?;
        Ok(())
    } else {
        go_on(replica, alloc, disk, out)
    }
}

/// Opens a replica whose superblock is mended already. First its Parts are found, and header sectors written again where that is needed. Where
/// sequence numbers are at their end, only the start line is put out after that. Else a replica that leads leaves its view and saves that; the start
/// line is put out, the checkpoint loaded, and committed entries are applied. Of a view that isn't started the others are told at last; after `Ok` it
/// is ready.
#[tactic(auto, using(vr_rules::proofs::Stepping::steps))]
pub fn open_mended<D: SectorDisk>(
    replica: &mut Replica,
    alloc: Global,
    disk: &mut D,
    out: &mut Outbox,
) -> Result<(), Halt>
    requires opening { IsOpeningOld 0 replica.old }
    ensures { Acts D.SectorDisk (recover_parts replica.old.saved ⨾ resuming) replica.old replica.new disk.old disk.new out.old out.new result }
{
    recover_parts(replica, alloc, disk, out)?;
    resume(replica, alloc, disk, out)
}
