//! Checkpoints given: get_syncs.
ghost use Rattle.std.specs.Prelude.{◌≡◌, ◌≤◌, true};
ghost use Rattle.vr_rules.specs.Deciding.{first_of, get_sync_table, reaches_down};
ghost use Rattle.vr_rules.specs.Replica.{last_view};
ghost use Rattle.vr_rules.specs.Rules.{on_get_sync};
ghost use Rattle.vr_volatile.specs.Ready.{IsReady};
ghost use Rattle.vr_actions.specs.Acts.{Acts};
ghost use Rattle.vr_view.specs.NamedSyncs.{sync_rule};
ghost use Rattle.vr_view.specs.declared.giving.SyncRule.{SyncRule};

use std::alloc::Global;
use vr_actions::{Halt, Replica};
use vr_disk::SectorDisk;
use vr_msg::{GetSync, Outbox};

/// What a get_sync leads to.
#[derive(Clone, Copy)]
pub enum SyncRule {
    /// It isn't from another replica of the group, or the replica doesn't lead a view that is late enough, or has no checkpoint that its log
    /// reaches down to.
    Ignored,
    /// The sender is given the checkpoint and the log.
    SyncGiven,
}

/// `SyncGiven` where the message is of this version and group and from another replica, the replica leads, in the asked view or a later
/// one, and its log reaches down. Else `Ignored`. `reaches_down`: it has a checkpoint, and its known headers reach from the head without a
/// hole down to the checkpoint's.
#[tactic(auto, using(vr_volatile::proofs::Memory::some_member), unfolding(vr_rules::specs::Deciding::first_of))]
pub fn decide_get_sync(replica: &Replica, get: &GetSync) -> SyncRule
    requires { IsReady replica.now }
    ensures rule { first_of (get_sync_table get.now replica.now) ≡ sync_rule result }
    ensures down { result ≡ SyncRule.SyncGiven → reaches_down replica.now ≡ true }
{
    if !replica.is_from(get.version, get.cluster, get.replica) {
        SyncRule::Ignored
    } else if replica.leads() && get.view <= replica.view() && replica.reaches_down() {
        SyncRule::SyncGiven
    } else {
        SyncRule::Ignored
    }
}

/// Rule 36: where the replica leads, in the asked view or a later one, and its log reaches down, one sync_view goes to the sender. Reaching
/// down: it has a checkpoint, and known headers from the head without a hole down to that. Else, and where the message isn't of this
/// version and group and from another replica, nothing is put out. Replica and disk are left as they are; after an `Err` nothing is said of
/// outputs.
#[tactic(auto, using(crate::proofs::Syncs::gives, vr_rules::proofs::Stepping::wants))]
pub fn handle_get_sync<D: SectorDisk>(
    replica: &Replica,
    alloc: Global,
    _disk: &mut D,
    get: &GetSync,
    out: &mut Outbox,
) -> Result<(), Halt>
    requires ready { IsReady replica.now }
    requires view { replica.now.view ≤ last_view }
    ensures { Acts D.SectorDisk (on_get_sync get.now) replica.now replica.now _disk.old _disk.new out.old out.new result }
{
    match decide_get_sync(replica, get) {
        SyncRule::Ignored => {}
        SyncRule::SyncGiven => replica.tell_sync(alloc, get.replica, out)?,
    }
    Ok(())
}
