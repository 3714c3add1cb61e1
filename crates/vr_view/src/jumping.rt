//! Checkpoints taken over: sync_views.
ghost use Rattle.std.specs.Prelude.{◌≡◌, ◌≤◌, ◌+◌, OnOk};
ghost use Rattle.vr_base.specs.Bytes.{name_of};
ghost use Rattle.vr_volatile.specs.Ready.{IsReady};
ghost use Rattle.vr_msg.specs.Spelling.{AreHeaders};
ghost use Rattle.vr_rules.specs.Deciding.{first_of, sync_view_table};
ghost use Rattle.vr_rules.specs.Rules.{acknowledge_stored, on_sync_view};
ghost use Rattle.vr_rules.specs.Steps.{◌⨾◌};
ghost use Rattle.vr_rules.specs.Words.{apply, jump};
ghost use Rattle.vr_view.specs.Jumps.{IsSyncing, MayJump};
ghost use Rattle.vr_view.specs.NamedSyncs.{jump_rule};
ghost use Rattle.vr_view.specs.declared.jumping.JumpRule.{JumpRule};
ghost use Rattle.vr_actions.specs.Telling.{each_to};
ghost use Rattle.vr_actions.specs.Acts.{Acts, MayAct};

use std::alloc::Global;
use vr_actions::{Halt, Replica, acknowledge_all, apply, primary, save};
use vr_disk::SectorDisk;
use vr_msg::{Outbox, SyncView};

/// What a sync_view leads to.
#[derive(Clone, Copy)]
pub enum JumpRule {
    /// It isn't from the primary of its view, or its log and checkpoint may not be taken over.
    Ignored,
    /// They are taken over.
    Jumped,
}

/// `Jumped` where it is of this version and group and from its view's primary, another replica, may be jumped to, and this replica isn't
/// that primary. Else `Ignored`. It may be: the log is newer and a chain, its head at least the commit number, its checkpoint above the
/// replica's. Headers that are taken over have the values of the program.
#[tactic(auto, using(vr_volatile::proofs::Memory::window_of, vr_volatile::proofs::Memory::some_member), unfolding(vr_rules::specs::Deciding::first_of))]
pub fn decide_sync_view(replica: &Replica, sync: &SyncView) -> JumpRule
    requires { IsReady replica.now }
    ensures rule { first_of (sync_view_table name_of sync.now replica.now) ≡ jump_rule result }
    ensures values { result ≡ JumpRule.Jumped → AreHeaders sync.now.body.headers }
{
    if !replica.is_from_primary(sync.version, sync.cluster, sync.replica, sync.view) {
        JumpRule::Ignored
    } else if replica.may_jump(sync) && replica.index() != primary(replica.n(), sync.view) {
        JumpRule::Jumped
    } else {
        JumpRule::Ignored
    }
}

// In this order: log and checkpoint are taken over (`jumped`), and the replica saves; nothing is put out. The message's checkpoint is
// checkpoint and applied then; its root alone is missing, and no block is worn. Ops of its log up to that are `Lost`; in front of its log
// Parts stay up to the commit number, and are `Nothing` above. Above it Parts are as after `take`; view and log view are the message's, and
// the commit number is the greater. `MayJump`: the message may be jumped to, and its root is in the grid. After an `Err` the disk has had
// its calls up to the stop; of replica and outputs nothing is said.
#[tactic(auto, using(vr_rules::proofs::Stepping::steps, vr_rules::proofs::Versions::jumped_stays, crate::proofs::Jumps::ready_jumped, crate::proofs::Jumps::view_jumped, crate::proofs::Jumps::may_move, vr_volatile::proofs::Memory::window_of), unfolding(vr_rules::specs::Words::jump))]
fn jump<D: SectorDisk>(
    replica: &mut Replica,
    alloc: Global,
    disk: &mut D,
    sync: &SyncView,
    out: &mut Outbox,
) -> Result<(), Halt>
    requires act { MayAct 1 replica.old }
    requires may { MayJump sync.now replica.old }
    ensures view { OnOk result (replica.new.view ≡ sync.now.view) }
    ensures spent { OnOk result (replica.new.saved.fields.sequence ≤ replica.old.saved.fields.sequence + 1) }
    ensures acts { Acts D.SectorDisk (jump sync.now) replica.old replica.new disk.old disk.new out.old out.new result }
{
    replica.jump(alloc, sync)?;
    save(replica, alloc, disk, out)
}

// In this order: log and checkpoint are taken over, and saved. Each op above the commit number up to the head, ascending, if `Here`, is
// acknowledged to the primary by a prepare_ok. Nothing is applied, since the root is missing now. `MayJump`: the message may be jumped to,
// and its root is in the grid. After an `Err` the disk has had its calls up to the stop; of replica and outputs nothing is said.
#[tactic(auto, using(crate::proofs::Jumps::view_low, crate::proofs::Jumps::head_small))]
fn follow<D: SectorDisk>(
    replica: &mut Replica,
    alloc: Global,
    disk: &mut D,
    sync: &SyncView,
    out: &mut Outbox,
) -> Result<(), Halt>
    requires act { MayAct 65 replica.old }
    requires may { MayJump sync.now replica.old }
    ensures { Acts D.SectorDisk (jump sync.now ⨾ each_to (acknowledge_stored name_of) sync.now.head ⨾ apply) replica.old replica.new disk.old disk.new out.old out.new result }
{
    jump(replica, alloc, disk, sync, out)?;
    acknowledge_all(replica, sync.head, out)?;
    apply(replica, alloc, disk, out)
}

/// Only from its view's primary, another replica of this version and group, is anything done, and not where the replica is that primary.
/// Rule 37: where the log is newer and a chain, its head at least the commit number, its checkpoint above the replica's, both are taken
/// over, and saved. Then each op above the commit number up to the log's head, ascending, if `Here`, is acknowledged to the primary.
/// Nothing is applied, since the root is missing now. Else nothing is done. After an `Err` the disk has had its calls up to the stop; of
/// replica and outputs nothing is said.
#[tactic(auto, using(crate::proofs::Jumps::syncs, crate::proofs::Jumps::may_follow))]
pub fn handle_sync_view<D: SectorDisk>(
    replica: &mut Replica,
    alloc: Global,
    disk: &mut D,
    sync: &SyncView,
    out: &mut Outbox,
) -> Result<(), Halt>
    requires act { MayAct 65 replica.old }
    requires message { IsSyncing sync.now }
    ensures { Acts D.SectorDisk (on_sync_view sync.now) replica.old replica.new disk.old disk.new out.old out.new result }
{
    match decide_sync_view(replica, sync) {
        JumpRule::Ignored => Ok(()),
        JumpRule::Jumped => follow(replica, alloc, disk, sync, out),
    }
}
