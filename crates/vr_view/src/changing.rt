//! A replica has entered a view: start_view_changes.
ghost use Rattle.std.specs.Prelude.{◌≡◌, ◌<◌, ◌≤◌, true};
ghost use Rattle.vr_actions.specs.Waits.{EndsAtOnce, passes};
ghost use Rattle.vr_rules.specs.Deciding.{first_of, start_view_change_table};
ghost use Rattle.vr_rules.specs.Replica.{last_view};
ghost use Rattle.vr_rules.specs.Rules.{heard_of, on_start_view_change};
ghost use Rattle.vr_rules.specs.Steps.{◌⨾◌, change};
ghost use Rattle.vr_rules.specs.Words.{enter, speak};
ghost use Rattle.vr_view.specs.Named.{change_rule};
ghost use Rattle.vr_actions.specs.Acts.{Acts, MayAct, MaySend};

use crate::trying::speak;
use std::alloc::Global;
use vr_actions::{Halt, Replica, enter};
use vr_disk::SectorDisk;
use vr_msg::{Outbox, StartViewChange};

/// What a start_view_change leads to.
#[derive(Clone, Copy)]
pub enum ChangeRule {
    /// It isn't from another replica of the group, or tells nothing new.
    Ignored,
    /// It is of a view before the replica's.
    ChangeBefore,
    /// It is of a later view, which is entered.
    ChangeLater,
    /// The replica's own view, which isn't started, was entered by one more.
    ChangeHeard,
    /// The replica leads its view: the sender is told of the log.
    ChangeDone,
}

/// The first that holds: `Ignored` unless the message is of this version and group and from another
/// replica; `ChangeBefore` below the view; `ChangeLater` above it. In the view: `ChangeHeard` where it
/// isn't started and the sender isn't heard yet; `ChangeDone` where the replica leads; else `Ignored`.
#[tactic(auto, unfolding(vr_rules::specs::Deciding::first_of))]
pub fn decide_start_view_change(replica: &Replica, message: &StartViewChange) -> ChangeRule
    requires { 0 < replica.now.n }
    ensures { first_of (start_view_change_table message.now replica.now) ≡ change_rule result }
{
    if !replica.is_from(message.version, message.cluster, message.replica) {
        ChangeRule::Ignored
    } else if message.view < replica.view() {
        ChangeRule::ChangeBefore
    } else if replica.view() < message.view {
        ChangeRule::ChangeLater
    } else if !replica.is_started() && !replica.heard().has(message.replica) {
        ChangeRule::ChangeHeard
    } else if replica.leads() {
        ChangeRule::ChangeDone
    } else {
        ChangeRule::Ignored
    }
}

// In this order: the message's view is entered, saved, and told to each other replica by
// start_view_change; its sender is heard; the replica speaks. Speaking, with a view-change quorum
// heard: the primary tries to begin the view, another replica sends its statement to the primary. After
// an `Err` the disk has had its calls up to the stop; of replica and outputs nothing is said.
#[tactic(auto, using(vr_rules::proofs::Stepping::steps, crate::proofs::Changes::later))]
fn enter_later<D: SectorDisk>(
    replica: &mut Replica,
    alloc: Global,
    disk: &mut D,
    message: &StartViewChange,
    out: &mut Outbox,
) -> Result<(), Halt>
    requires act { MayAct 66 replica.old }
    requires later { replica.old.view < message.now.view }
    requires last { message.now.view ≤ last_view }
    ensures { Acts D.SectorDisk (enter message.now.view ⨾ change (heard_of message.now.replica) ⨾ speak) replica.old replica.new disk.old disk.new out.old out.new result }
{
    enter(replica, alloc, disk, message.view, out)?;
    replica.hear(message.replica);
    speak(replica, alloc, disk, out)
}

// The sender is heard, and then the replica speaks. Speaking, with a view-change quorum heard: the
// primary tries to begin the view, another replica sends its statement to the primary. With fewer heard
// nothing more is done. After an `Err` the disk has had its calls up to the stop; of replica and
// outputs nothing is said.
#[tactic(auto, using(vr_rules::proofs::Stepping::steps, crate::proofs::Changes::heard))]
fn hear_one<D: SectorDisk>(
    replica: &mut Replica,
    alloc: Global,
    disk: &mut D,
    sender: u8,
    out: &mut Outbox,
) -> Result<(), Halt>
    requires send { MaySend 65 replica.old }
    requires changing { replica.old.log_view < replica.old.view }
    ensures { Acts D.SectorDisk (change (heard_of sender) ⨾ speak) replica.old replica.new disk.old disk.new out.old out.new result }
{
    replica.hear(sender);
    speak(replica, alloc, disk, out)
}

/// Only from another replica of this version and group is anything done. Rule 20: a later view is
/// entered, saved and told to each other replica, the sender is heard, and the replica speaks. Rule 21:
/// in a view that isn't started, a sender not yet heard is heard, and the replica speaks. Rule 22:
/// where it leads the message's view, one start_view goes to the sender; else nothing is done.
/// Speaking, with a view-change quorum heard: the primary tries to begin the view, another replica
/// sends its statement to the primary. Where it is `Ignored` or below the view (`passes`), it answers
/// `Ok` and leaves the very same disk. After an `Err` the disk has had its calls up to the stop; of
/// replica and outputs nothing is said.
#[tactic(auto, using(crate::proofs::Changes::changes, crate::proofs::Changes::means, vr_volatile::proofs::Memory::some_member, vr_rules::proofs::Stepping::wants))]
pub fn handle_start_view_change<D: SectorDisk>(
    replica: &mut Replica,
    alloc: Global,
    disk: &mut D,
    message: &StartViewChange,
    out: &mut Outbox,
) -> Result<(), Halt>
    requires send { MaySend 66 replica.old }
    requires last { message.now.view ≤ last_view }
    ensures passed { passes (first_of (start_view_change_table message.now replica.old)) ≡ true → EndsAtOnce disk.old disk.new result }
    ensures acts { Acts D.SectorDisk (on_start_view_change message.now) replica.old replica.new disk.old disk.new out.old out.new result }
{
    match decide_start_view_change(replica, message) {
        ChangeRule::Ignored => Ok(()),
        ChangeRule::ChangeBefore => Ok(()),
        ChangeRule::ChangeLater => enter_later(replica, alloc, disk, message, out),
        ChangeRule::ChangeHeard => hear_one(replica, alloc, disk, message.replica, out),
        ChangeRule::ChangeDone => {
            replica.tell_view(alloc, message.replica, out)?;
            Ok(())
        }
    }
}
