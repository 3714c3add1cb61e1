//! Take: the log of a view is taken over.
ghost use Rattle.std.specs.Prelude.{◌≡◌, ◌≤◌, ◌+◌, OnOk};
ghost use Rattle.vr_rules.specs.Words.{take};
ghost use Rattle.vr_view.specs.Logs.{MayTake};
ghost use Rattle.vr_actions.specs.Acts.{Acts, MayAct};

use std::alloc::Global;
use vr_actions::{Halt, Log, Replica, save};
use vr_disk::SectorDisk;
use vr_msg::Outbox;

/// Where a log ends.
pub fn head_of(log: &Log) -> u64
    ensures { result ≡ log.now.head }
{
    log.head
}

/// The commit number of a log.
pub fn commit_of(log: &Log) -> u64
    ensures { result ≡ log.now.commit }
{
    log.commit
}

/// In this order: the log is taken over, and the replica saves; nothing is put out. Above the
/// checkpoint an op of its headers keeps a Part of that very header; else `Unknown` becomes `Lost`, any
/// other `Wanted`. Above its head Parts become `Nothing`, if its view is above the log view; others
/// stay; ops 64 or more below the head are forgotten. View and log view are the log's,
/// acknowledgements, heard and statements dropped, idle 0; the commit number is the greater. `MayTake`:
/// it is newer, fits and is a chain. After an `Err` the disk has had its calls up to the stop; of
/// replica and outputs nothing is said.
#[tactic(auto, using(vr_rules::proofs::Stepping::steps, vr_rules::proofs::Versions::taken_stays, crate::proofs::Takes::takes, vr_volatile::proofs::Memory::window_of), unfolding(vr_rules::specs::Words::take))]
pub fn take<D: SectorDisk>(
    replica: &mut Replica,
    alloc: Global,
    disk: &mut D,
    log: &Log,
    out: &mut Outbox,
) -> Result<(), Halt>
    requires act { MayAct 1 replica.old }
    requires may { MayTake log.now replica.old }
    ensures view { OnOk result (replica.new.view ≡ log.now.view) }
    ensures spent { OnOk result (replica.new.saved.fields.sequence ≤ replica.old.saved.fields.sequence + 1) }
    ensures acts { Acts D.SectorDisk (take log.now) replica.old replica.new disk.old disk.new out.old out.new result }
{
    replica.take_over(log);
    save(replica, alloc, disk, out)
}
