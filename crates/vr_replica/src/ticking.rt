//! Time goes by.
ghost use Rattle.std.specs.Prelude.{◌≡◌, ◌<◌, ◌≤◌, ◌+◌, nat_le, nat_lt};
ghost use Rattle.vr_volatile.specs.Ready.{IsReady};
ghost use Rattle.vr_rules.specs.Deciding.{first_of, tick_table};
ghost use Rattle.vr_rules.specs.Replica.{head, last_view};
ghost use Rattle.vr_rules.specs.Rules.{backup_ticks, changing_ticks, on_tick, primary_ticks};
ghost use Rattle.vr_rules.specs.Steps.{◌⨾◌};
ghost use Rattle.vr_rules.specs.Words.{ask, enter, visit};
ghost use Rattle.vr_replica.specs.Ticks.{tells_all, tells_first, tick_rule};
ghost use Rattle.vr_replica.specs.declared.ticking.TickRule.TheVariants as TickRule;
ghost use Rattle.vr_actions.specs.Acts.{Acts, MaySend};

use std::alloc::Global;
use vr_actions::{Halt, Replica, enter, prepare_again};
use vr_disk::SectorDisk;
use vr_msg::Outbox;
use vr_repair::{ask, visit};
use vr_view::speak;

/// What a tick finds the replica to be.
#[derive(Clone, Copy, Debug, PartialEq, Eq)]
pub enum TickRule {
    /// The primary of a view that is started.
    TickedPrimary,
    /// A backup of a view that is started.
    TickedBackup,
    /// Its view isn't started.
    TickedChanging,
}

/// `TickedPrimary` where the replica leads; else `TickedBackup` where its view is started; else `TickedChanging`, and then its log view is
/// below its view.
#[tactic(auto, using(vr_volatile::proofs::Memory::some_member, crate::proofs::Ticks::unstarted), unfolding(vr_rules::specs::Deciding::first_of))]
pub fn decide_tick(replica: &Replica) -> TickRule
    requires { IsReady replica.now }
    ensures rule { first_of (tick_table replica.now) ≡ tick_rule result }
    ensures changing { result ≡ TickRule.TickedChanging → replica.now.log_view < replica.now.view }
{
    if replica.leads() {
        TickRule::TickedPrimary
    } else if replica.is_started() {
        TickRule::TickedBackup
    } else {
        TickRule::TickedChanging
    }
}

// Unless a block is missing, one place of the disk is visited, and the cursor moves on. Then the peer whose turn it is is asked for the
// first thing missing, if any, and the turn moves on. After an `Err` the disk has had its calls up to the stop; of replica and outputs
// nothing is said.
#[tactic(auto, using(vr_rules::proofs::Stepping::steps))]
fn look_and_ask<D: SectorDisk>(
    replica: &mut Replica,
    disk: &mut D,
    out: &mut Outbox,
) -> Result<(), Halt>
    requires ready { IsReady replica.old }
    ensures { Acts D.SectorDisk (visit ⨾ ask) replica.old replica.new disk.old disk.new out.old out.new result }
{
    visit(replica, disk, out)?;
    ask(replica, disk, out)
}

// ---- at the primary

// Whether the head is above the commit number.
#[tactic(auto, using(vr_volatile::proofs::Memory::window_of))]
fn has_open(replica: &Replica) -> bool
    requires { IsReady replica.now }
    ensures { result ≡ nat_lt replica.now.commit (head replica.now) }
{
    replica.commit() < replica.head()
}

// Where the head is above the commit number, and the op after the commit number is `Here`, it is read. One that reads is prepared to each
// other replica, ascending; one that doesn't becomes `Lost`. Else nothing is done. The disk is left as it is; after an `Err` nothing is
// said of replica and outputs.
#[tactic(auto, using(crate::proofs::Ticks::first_told, crate::proofs::Ticks::none_told, crate::proofs::Ticks::next_fits))]
fn tell_first<D: SectorDisk>(
    replica: &mut Replica,
    alloc: Global,
    disk: &mut D,
    out: &mut Outbox,
) -> Result<(), Halt>
    requires ready { IsReady replica.old }
    requires view { replica.old.view ≤ last_view }
    ensures { Acts D.SectorDisk tells_first replica.old replica.new disk.old disk.new out.old out.new result }
{
    if has_open(replica) {
        let op = replica.commit() + 1;
        prepare_again(replica, alloc, disk, op, out)
    } else {
        Ok(())
    }
}

// Rule 32, in this order: a commit goes to each other replica; the op after the commit number, up to the head, if `Here`, is read, and
// prepared to each. One that doesn't read becomes `Lost`. Then one place of the disk is visited, and the peer whose turn it is is asked for
// what is missing. After an `Err` the disk has had its calls up to the stop; of replica and outputs nothing is said.
#[tactic(auto, using(vr_rules::proofs::Stepping::steps), unfolding(crate::specs::Ticks::tells_first))]
fn tick_primary<D: SectorDisk>(
    replica: &mut Replica,
    alloc: Global,
    disk: &mut D,
    out: &mut Outbox,
) -> Result<(), Halt>
    requires ready { IsReady replica.old }
    requires view { replica.old.view ≤ last_view }
    ensures { Acts D.SectorDisk primary_ticks replica.old replica.new disk.old disk.new out.old out.new result }
{
    replica.tell_commit(out)?;
    tell_first(replica, alloc, disk, out)?;
    look_and_ask(replica, disk, out)
}

// ---- at a backup, and where the view isn't started

// Whether idle is at least so many ticks.
fn is_idle_for(replica: &Replica, ticks: u64) -> bool
    ensures { result ≡ nat_le ticks replica.now.idle }
{
    ticks <= replica.idle()
}

// The view after the replica's is entered, saved, and told to each other replica by start_view_change. After the last view only idle
// becomes 0. After an `Err` the disk has had its calls up to the stop; of replica and outputs nothing is said.
#[tactic(auto, using(crate::proofs::Ticks::next_entered))]
fn enter_next<D: SectorDisk>(
    replica: &mut Replica,
    alloc: Global,
    disk: &mut D,
    out: &mut Outbox,
) -> Result<(), Halt>
    requires { MaySend 1 replica.old }
    ensures { Acts D.SectorDisk (enter (replica.old.view + 1)) replica.old replica.new disk.old disk.new out.old out.new result }
{
    let view = replica.view() + 1;
    enter(replica, alloc, disk, view, out)
}

// Rule 33: idle is one more. At 5 the next view, if there is one, is entered, saved, and told to each other replica, and that is all.
// Below, one place of the disk is visited, and the peer whose turn it is is asked for what is missing. After an `Err` the disk has had its
// calls up to the stop; of replica and outputs nothing is said.
#[tactic(auto, using(crate::proofs::Ticks::backup_due, crate::proofs::Ticks::backup_waits, crate::proofs::Ticks::ready_waits, crate::proofs::Ticks::idle_fits))]
fn tick_backup<D: SectorDisk>(
    replica: &mut Replica,
    alloc: Global,
    disk: &mut D,
    out: &mut Outbox,
) -> Result<(), Halt>
    requires { MaySend 1 replica.old }
    ensures { Acts D.SectorDisk backup_ticks replica.old replica.new disk.old disk.new out.old out.new result }
{
    // The tick that has come isn't counted yet: with it there are five.
    if is_idle_for(replica, 4) {
        enter_next(replica, alloc, disk, out)
    } else {
        replica.idle_on();
        look_and_ask(replica, disk, out)
    }
}

// In this order: a start_view_change goes to each other replica; the replica speaks; one place of the disk is visited; a peer is asked for
// what is missing. Speaking, with a view-change quorum heard: the primary tries to begin the view, another replica sends its statement to
// the primary. After an `Err` the disk has had its calls up to the stop; of replica and outputs nothing is said.
#[tactic(auto, using(vr_rules::proofs::Stepping::steps))]
fn tell_all<D: SectorDisk>(
    replica: &mut Replica,
    alloc: Global,
    disk: &mut D,
    out: &mut Outbox,
) -> Result<(), Halt>
    requires send { MaySend 65 replica.old }
    requires changing { replica.old.log_view < replica.old.view }
    ensures { Acts D.SectorDisk tells_all replica.old replica.new disk.old disk.new out.old out.new result }
{
    replica.tell_change(out)?;
    speak(replica, alloc, disk, out)?;
    look_and_ask(replica, disk, out)
}

// Rule 34: idle is one more. At 10 the next view, if there is one, is entered, saved, and told to each other replica, and that is all.
// Below, in this order: start_view_change to each; it speaks; one place of the disk is visited; a peer is asked for what is missing.
// Speaking, with a view-change quorum heard: the primary tries to begin the view, another replica sends its statement to the primary. After
// an `Err` the disk has had its calls up to the stop; of replica and outputs nothing is said.
#[tactic(auto, using(crate::proofs::Ticks::changing_due, crate::proofs::Ticks::changing_waits, crate::proofs::Ticks::ready_waits, crate::proofs::Ticks::idle_fits))]
fn tick_changing<D: SectorDisk>(
    replica: &mut Replica,
    alloc: Global,
    disk: &mut D,
    out: &mut Outbox,
) -> Result<(), Halt>
    requires send { MaySend 65 replica.old }
    requires changing { replica.old.log_view < replica.old.view }
    ensures { Acts D.SectorDisk changing_ticks replica.old replica.new disk.old disk.new out.old out.new result }
{
    // The tick that has come isn't counted yet: with it there are ten.
    if is_idle_for(replica, 9) {
        enter_next(replica, alloc, disk, out)
    } else {
        replica.idle_on();
        tell_all(replica, alloc, disk, out)
    }
}

/// Rule 32, where the replica leads: a commit to each other replica; the first op above the commit number, if any, read and prepared to
/// each; visit; ask. Rule 33, else where the view is started: idle is one more; at 5 the next view is entered, and nothing else; below,
/// visit; ask. Rule 34, else: idle is one more; at 10 the next view is entered, and nothing else; below, start_view_change to each, speak,
/// visit, ask. Visit is of one place of the disk, ask of a peer for what is missing. After an `Err` the disk has had its calls up to the
/// stop; of replica and outputs nothing is said.
#[tactic(auto, using(crate::proofs::Ticks::primary_ticked, crate::proofs::Ticks::backup_ticked, crate::proofs::Ticks::changing_ticked))]
pub fn handle_tick<D: SectorDisk>(
    replica: &mut Replica,
    alloc: Global,
    disk: &mut D,
    out: &mut Outbox,
) -> Result<(), Halt>
    requires { MaySend 65 replica.old }
    ensures { Acts D.SectorDisk on_tick replica.old replica.new disk.old disk.new out.old out.new result }
{
    match decide_tick(replica) {
        TickRule::TickedPrimary => tick_primary(replica, alloc, disk, out),
        TickRule::TickedBackup => tick_backup(replica, alloc, disk, out),
        TickRule::TickedChanging => tick_changing(replica, alloc, disk, out),
    }
}
