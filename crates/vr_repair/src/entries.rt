//! Repair of entries.
ghost use Rattle.vr_volatile.specs.Ready.{IsReady, MayStore};
ghost use Rattle.vr_repair.specs.Repairs.{gives};
ghost use Rattle.vr_rules.specs.Rules.{on_get_prepare, on_give_prepare};
ghost use Rattle.vr_rules.specs.Steps.{◌⨾◌};
ghost use Rattle.vr_rules.specs.Words.{apply, resend, with_entry_at, write};
ghost use Rattle.vr_actions.specs.Acts.{Acts, MaySend};

use crate::deciding::{Repair, decide_get_prepare, decide_give_prepare};
use crate::retelling::resend;
use std::alloc::Global;
use vr_actions::{Halt, Replica, apply, read_entry, write};
use vr_disk::SectorDisk;
use vr_header::Entry;
use vr_msg::{GetPrepare, GivePrepare, Outbox};

// Where the asked op is `Here` and its entry reads, one give_prepare of it goes to the sender. Where it is `Here` and doesn't read, its
// Part becomes `Lost`; where it isn't `Here`, nothing is done. The disk is left as it is; after an `Err` nothing is said of replica and
// outputs.
#[tactic(auto, using(crate::proofs::Rules::given_read, crate::proofs::Rules::given_none, vr_rules::proofs::Stepping::wants))]
fn give_entry<D: SectorDisk>(
    replica: &mut Replica,
    alloc: Global,
    disk: &mut D,
    get: &GetPrepare,
    out: &mut Outbox,
) -> Result<(), Halt>
    requires ready { IsReady replica.old }
    ensures { Acts D.SectorDisk (with_entry_at get.now.op (gives get.now.replica)) replica.old replica.new disk.old disk.new out.old out.new result }
{
    match read_entry(replica, alloc, disk, get.op)? {
        Some(entry) => replica.give_entry(get.replica, entry, out)?,
        None => {}
    }
    Ok(())
}

/// Rule 28: where the message is of this version and group and from another replica, and its op is `Here` with a header of this name, the
/// entry is read. One that reads goes to the sender in a give_prepare; one that doesn't becomes `Lost`. Else nothing is done. The disk is
/// left as it is; after an `Err` nothing is said of replica and outputs.
#[tactic(auto, using(crate::proofs::Rules::entry_given, crate::proofs::Rules::get_prepare_ignored))]
pub fn handle_get_prepare<D: SectorDisk>(
    replica: &mut Replica,
    alloc: Global,
    disk: &mut D,
    get: &GetPrepare,
    out: &mut Outbox,
) -> Result<(), Halt>
    requires ready { IsReady replica.old }
    ensures { Acts D.SectorDisk (on_get_prepare get.now) replica.old replica.new disk.old disk.new out.old out.new result }
{
    match decide_get_prepare(replica, get) {
        Repair::EntryGiven => give_entry(replica, alloc, disk, get, out),
        _ => Ok(()),
    }
}

// The entry is written into its slot, and `Here`. Then, where the view is started and its op is above the commit number, it is told of;
// then what is committed is applied. Told of: the primary sends its prepare to each other replica, a backup a prepare_ok to the primary.
// The commit number stays. After an `Err` the disk has had its calls up to the stop; of replica and outputs nothing is said.
#[tactic(auto, using(crate::proofs::Rules::entry_made))]
fn take_entry<D: SectorDisk>(
    replica: &mut Replica,
    alloc: Global,
    disk: &mut D,
    entry: &Entry,
    out: &mut Outbox,
) -> Result<(), Halt>
    requires send { MaySend 64 replica.old }
    requires may { MayStore entry.now replica.old }
    ensures { Acts D.SectorDisk (write entry.now ⨾ resend entry.now ⨾ apply) replica.old replica.new disk.old disk.new out.old out.new result }
{
    write(replica, disk, entry, out)?;
    resend(replica, alloc, disk, entry, out)?;
    apply(replica, alloc, disk, out)
}

/// Only from another replica of this version and group is anything done. Rule 29: where the entry's op, above the checkpoint, is `Lost` or
/// `Wanted` with its very header, it is written, and `Here`. Then, in a started view and above the commit number, the primary sends its
/// prepare to each other replica, a backup a prepare_ok to the primary. Then what is committed is applied, and the commit number stays.
/// Else nothing is done. After an `Err` the disk has had its calls up to the stop; of replica and outputs nothing is said.
#[tactic(auto, using(crate::proofs::Rules::entry_taken, crate::proofs::Rules::give_prepare_ignored))]
pub fn handle_give_prepare<D: SectorDisk>(
    replica: &mut Replica,
    alloc: Global,
    disk: &mut D,
    give: &GivePrepare,
    out: &mut Outbox,
) -> Result<(), Halt>
    requires { MaySend 64 replica.old }
    ensures { Acts D.SectorDisk (on_give_prepare give.now) replica.old replica.new disk.old disk.new out.old out.new result }
{
    match decide_give_prepare(replica, give) {
        Repair::EntryTaken => take_entry(replica, alloc, disk, &give.entry, out),
        _ => Ok(()),
    }
}
