//! Acknowledgements are counted: prepare_oks.
ghost use Rattle.std.specs.Prelude.{◌≡◌, true};
ghost use Rattle.vr_base.specs.Bytes.{name_of};
ghost use Rattle.vr_volatile.specs.Ready.{IsReady};
ghost use Rattle.vr_actions.specs.Waits.{EndsAtOnce, Waits, passes};
ghost use Rattle.vr_rules.specs.Deciding.{first_of, prepare_ok_table};
ghost use Rattle.vr_rules.specs.declared.rule.Rule.TheVariants.{Counted};
ghost use Rattle.vr_rules.specs.Rules.{acknowledged, on_prepare_ok};
ghost use Rattle.vr_rules.specs.Steps.{◌⨾◌, change};
ghost use Rattle.vr_rules.specs.Words.{advance};
ghost use Rattle.vr_normal.specs.Named.{count_rule};
ghost use Rattle.vr_normal.specs.Words.{is_open};
ghost use Rattle.vr_normal.specs.declared.counting.CountRule.TheVariants as CountRule;
ghost use Rattle.vr_actions.specs.Acts.{Acts, MayAct};

use std::alloc::Global;
use vr_actions::{Halt, Replica, advance};
use vr_disk::SectorDisk;
use vr_msg::{Outbox, PrepareOk};

/// What a prepare_ok leads to.
#[derive(Clone, Copy)]
pub enum CountRule {
    /// It isn't from another replica of the group, or of no open entry of the view that this replica leads.
    Ignored,
    /// It is counted.
    Counted,
}

// Whether the replica leads, the message is of its view, and its op is above the commit number, at most the head, and has a known header of
// this name.
#[tactic(auto, using(vr_volatile::proofs::Memory::window_of, vr_volatile::proofs::Memory::some_member))]
fn is_open(replica: &Replica, ack: &PrepareOk) -> bool
    requires { IsReady replica.now }
    ensures { result ≡ is_open ack.now replica.now }
{
    replica.leads()
        && ack.view == replica.view()
        && replica.commit() < ack.op
        && ack.op <= replica.head()
        && replica.is_named(&ack.name, ack.op)
}

/// `Counted` where the message is of this version and group and from another replica, the replica leads, and it is of that very view. And
/// its op has to be above the commit number, at most the head, and to have a known header of this name. Else `Ignored`.
#[tactic(auto, unfolding(vr_rules::specs::Deciding::first_of))]
pub fn decide_prepare_ok(replica: &Replica, ack: &PrepareOk) -> CountRule
    requires { IsReady replica.now }
    ensures { first_of (prepare_ok_table name_of ack.now replica.now) ≡ count_rule result }
{
    if !replica.is_from(ack.version, ack.cluster, ack.replica) {
        CountRule::Ignored
    } else if is_open(replica, ack) {
        CountRule::Counted
    } else {
        CountRule::Ignored
    }
}

// The sender is added to those that have acknowledged this op. Then advance: the commit number rises, up to the head, as long as the next
// op has its quorum, and what is committed is applied. Where that neither raises nor applies anything (`Waits`), it answers `Ok` and leaves
// the very same disk. After an `Err` the disk has had its calls up to the stop; of replica and outputs nothing is said.
#[tactic(auto, using(vr_rules::proofs::Stepping::steps, crate::proofs::Counts::counted_from, crate::proofs::Counts::counted_within, crate::proofs::Counts::ready_counted))]
fn count<D: SectorDisk>(
    replica: &mut Replica,
    alloc: Global,
    disk: &mut D,
    ack: &PrepareOk,
    out: &mut Outbox,
) -> Result<(), Halt>
    requires act { MayAct 64 replica.old }
    requires rule { first_of (prepare_ok_table name_of ack.now replica.old) ≡ Counted }
    ensures at_once { Waits (acknowledged ack.now replica.old) → EndsAtOnce disk.old disk.new result }
    ensures acts { Acts D.SectorDisk (change (acknowledged ack.now) ⨾ advance) replica.old replica.new disk.old disk.new out.old out.new result }
{
    replica.add_acker(ack);
    advance(replica, alloc, disk, out)
}

/// Rule 15: a message of this version and group, from another replica, of an open entry of the view that this one leads, counts for its
/// sender. Open: the op is above the commit number, at most the head, and has a known header of this name. Then the commit number rises as
/// long as the next op has its quorum, and what is committed is applied. Where it isn't so, nothing is done; then, and where it counts but
/// nothing can rise or be applied (`Waits`), it answers `Ok` and leaves the very same disk. After an `Err` the disk has had its calls up to
/// the stop; of replica and outputs nothing is said.
#[tactic(auto, using(crate::proofs::Counts::rules))]
pub fn handle_prepare_ok<D: SectorDisk>(
    replica: &mut Replica,
    alloc: Global,
    disk: &mut D,
    ack: &PrepareOk,
    out: &mut Outbox,
) -> Result<(), Halt>
    requires { MayAct 64 replica.old }
    ensures passed { passes (first_of (prepare_ok_table name_of ack.now replica.old)) ≡ true → EndsAtOnce disk.old disk.new result }
    ensures at_once { Waits (acknowledged ack.now replica.old) → EndsAtOnce disk.old disk.new result }
    ensures acts { Acts D.SectorDisk (on_prepare_ok ack.now) replica.old replica.new disk.old disk.new out.old out.new result }
{
    match decide_prepare_ok(replica, ack) {
        CountRule::Ignored => Ok(()),
        CountRule::Counted => count(replica, alloc, disk, ack, out),
    }
}
