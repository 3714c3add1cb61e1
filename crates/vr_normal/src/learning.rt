//! How far the log is committed is learned: commits.
ghost use Rattle.std.specs.Prelude.{◌≡◌, ◌≤◌, ◌++◌, nat_lt, OnOk};
ghost use Rattle.vr_volatile.specs.Ready.{IsReady};
ghost use Rattle.vr_rules.specs.Deciding.{commit_table, first_of};
ghost use Rattle.vr_rules.specs.Outputs.{get_view, send_to};
ghost use Rattle.vr_rules.specs.Replica.{head, last_view};
ghost use Rattle.vr_rules.specs.Rules.{on_commit};
ghost use Rattle.vr_rules.specs.Steps.{◌⨾◌, change};
ghost use Rattle.vr_rules.specs.Words.{learn, rested};
ghost use Rattle.vr_normal.specs.Messages.{IsCommitting};
ghost use Rattle.vr_normal.specs.Named.{commit_rule};
ghost use Rattle.vr_normal.specs.Words.{asks_behind};
ghost use Rattle.vr_actions.specs.Acts.{Acts, MayAct};

use std::alloc::{AllocError, Global};
use vr_actions::{Halt, Replica, learn};
use vr_disk::SectorDisk;
use vr_msg::{Commit, GetView, Message, Outbox};

/// What a commit leads to.
#[derive(Clone, Copy)]
pub enum CommitRule {
    /// It isn't from the primary of its view, another replica of the group.
    Ignored,
    /// It is of a view before the replica's.
    CommitBefore,
    /// It is of a view whose log the replica doesn't have, and asks for.
    CommitLater,
    /// The commit number is learned.
    CommitHeard,
}

/// Puts out one get_view of this view, to the replica `to`. After an `Err`, want of memory, nothing is said of outputs.
pub fn ask_view(replica: &Replica, view: u32, to: u8, out: &mut Outbox) -> Result<(), AllocError>
    requires { view ≤ last_view }
    ensures { OnOk result (out.new ≡ out.old ++ send_to to (get_view view replica.now) replica.now) }
{
    let message = Message::get_view(GetView {
        version: replica.version(),
        cluster: replica.cluster(),
        replica: replica.index(),
        view,
    });
    replica.tell(to, message, out)
}

/// The first that holds: `Ignored` unless it is of this version and group and from its view's primary, another replica; `CommitBefore`
/// below the view. Then `CommitLater` above the log view; else `CommitHeard`.
#[tactic(auto, using(vr_volatile::proofs::Memory::some_member), unfolding(vr_rules::specs::Deciding::first_of))]
pub fn decide_commit(replica: &Replica, commit: &Commit) -> CommitRule
    requires { IsReady replica.now }
    ensures { first_of (commit_table commit.now replica.now) ≡ commit_rule result }
{
    if !replica.is_from_primary(commit.version, commit.cluster, commit.replica, commit.view) {
        CommitRule::Ignored
    } else if commit.view < replica.view() {
        CommitRule::CommitBefore
    } else if replica.log_view() < commit.view {
        CommitRule::CommitLater
    } else {
        CommitRule::CommitHeard
    }
}

// Whether the head that the commit tells of is above the replica's.
#[tactic(auto, using(vr_volatile::proofs::Memory::window_of))]
fn is_behind(replica: &Replica, commit: &Commit) -> bool
    requires { IsReady replica.now }
    ensures { result ≡ nat_lt (head replica.now) commit.now.head }
{
    replica.head() < commit.head
}

// Where the head that the commit tells of is above the replica's, one get_view of the commit's view goes to its sender; else nothing is put
// out. Replica and disk are left as they are; after an `Err` nothing is said of outputs.
#[tactic(auto, using(crate::proofs::Commits::behind, vr_rules::proofs::Stepping::wants))]
fn ask_behind<D: SectorDisk>(
    replica: &Replica,
    _disk: &mut D,
    commit: &Commit,
    out: &mut Outbox,
) -> Result<(), Halt>
    requires ready { IsReady replica.now }
    requires view { commit.now.view ≤ last_view }
    ensures { Acts D.SectorDisk (asks_behind commit.now) replica.now replica.now _disk.old _disk.new out.old out.new result }
{
    if is_behind(replica, commit) {
        ask_view(replica, commit.view, commit.replica, out)?;
    }
    Ok(())
}

// In this order: idle is 0; where the commit's head is above the replica's, a get_view of its view goes to its sender. Then its commit
// number is learned, at most up to the head, and what is committed is applied. After an `Err` the disk has had its calls up to the stop; of
// replica and outputs nothing is said.
#[tactic(auto, using(vr_rules::proofs::Stepping::steps, vr_volatile::proofs::Memory::readies))]
fn hear<D: SectorDisk>(
    replica: &mut Replica,
    alloc: Global,
    disk: &mut D,
    commit: &Commit,
    out: &mut Outbox,
) -> Result<(), Halt>
    requires act { MayAct 64 replica.old }
    requires view { commit.now.view ≤ last_view }
    ensures { Acts D.SectorDisk (change rested ⨾ asks_behind commit.now ⨾ learn commit.now.commit) replica.old replica.new disk.old disk.new out.old out.new result }
{
    replica.rest();
    ask_behind(replica, disk, commit, out)?;
    learn(replica, alloc, disk, commit.commit, out)
}

/// Rules 16 to 18: where it isn't of this version and group, from its view's primary and another replica, or is below the view, nothing is
/// done. Above the log view a get_view of its view goes to the sender, and that is all. Else idle is 0, and where its head is above the
/// replica's, that get_view goes out. Then its commit number is learned, at most up to the head, and what is committed is applied. After an
/// `Err` the disk has had its calls up to the stop; of replica and outputs nothing is said.
#[tactic(auto, using(crate::proofs::Commits::rules, crate::proofs::Commits::view_fits, vr_rules::proofs::Stepping::wants))]
pub fn handle_commit<D: SectorDisk>(
    replica: &mut Replica,
    alloc: Global,
    disk: &mut D,
    commit: &Commit,
    out: &mut Outbox,
) -> Result<(), Halt>
    requires act { MayAct 64 replica.old }
    requires message { IsCommitting commit.now }
    ensures { Acts D.SectorDisk (on_commit commit.now) replica.old replica.new disk.old disk.new out.old out.new result }
{
    match decide_commit(replica, commit) {
        CommitRule::Ignored => Ok(()),
        CommitRule::CommitBefore => Ok(()),
        CommitRule::CommitLater => {
            ask_view(replica, commit.view, commit.replica, out)?;
            Ok(())
        }
        CommitRule::CommitHeard => hear(replica, alloc, disk, commit, out),
    }
}
