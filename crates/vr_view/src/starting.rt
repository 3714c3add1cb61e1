//! The log of a view that is started: start_views, and get_views that ask for one.
ghost use Rattle.std.specs.Prelude.{◌≡◌, ◌<◌, ◌≤◌, ◌||◌, nat_lt};
ghost use Rattle.vr_base.specs.Bytes.{name_of};
ghost use Rattle.vr_volatile.specs.Ready.{HasWindow, IsReady};
ghost use Rattle.vr_msg.specs.Spelling.{AreHeaders};
ghost use Rattle.vr_rules.specs.Deciding.{first_of, get_view_table, log_of, start_view_table};
ghost use Rattle.vr_rules.specs.Replica.{last_view, window_end};
ghost use Rattle.vr_rules.specs.Rules.{acknowledge_stored, on_get_view, on_start_view};
ghost use Rattle.vr_rules.specs.Steps.{◌⨾◌};
ghost use Rattle.vr_rules.specs.Words.{apply, take};
ghost use Rattle.vr_view.specs.Logs.{MayTake};
ghost use Rattle.vr_view.specs.Messages.{IsStarting};
ghost use Rattle.vr_view.specs.Named.{start_rule, view_rule};
ghost use Rattle.vr_actions.specs.Telling.{each_to};
ghost use Rattle.vr_view.specs.declared.starting.StartRule.{StartRule};
ghost use Rattle.vr_actions.specs.Acts.{Acts, MayAct};

use crate::taking::{head_of, take};
use std::alloc::Global;
use vr_actions::{Halt, Log, Replica, acknowledge_all, apply, primary};
use vr_disk::SectorDisk;
use vr_msg::{GetView, Outbox, StartView};

/// What a start_view leads to.
#[derive(Clone, Copy)]
pub enum StartRule {
    /// It isn't from the primary of its view, or its log may not be taken over.
    Ignored,
    /// Its log is taken over.
    Taken,
    /// Its log is out of reach: it ends past the window, or begins above what is committed here. The view's checkpoint is asked for.
    SyncAsked,
}

/// What a get_view leads to.
#[derive(Clone, Copy)]
pub enum ViewRule {
    /// It isn't from another replica of the group, or the replica doesn't lead a view that is late enough.
    Ignored,
    /// The sender is told of the log.
    ViewGiven,
}

// The log that a start_view tells of: its view, `lo`, headers, head and commit number.
fn log_of(start: &StartView) -> Log<'_>
    ensures { result ≡ log_of start.now }
{
    Log {
        view: start.view,
        lo: start.body.lo,
        headers: &start.body.headers,
        head: start.head,
        commit: start.commit,
    }
}

// Whether the log's head is more than 64 above the checkpoint, or its `lo` above the commit number.
fn is_out_of_reach(replica: &Replica, log: &Log) -> bool
    requires { HasWindow replica.now }
    ensures { result ≡ (nat_lt (window_end replica.now) log.now.head || nat_lt replica.now.commit log.now.lo) }
{
    replica.window_end() < log.head || replica.commit() < log.lo
}

/// The first that holds: `Ignored` unless it is of this version and group and from its view's primary,
/// another replica; `Taken` where its log may be taken (`may_take`). Then `SyncAsked` where its log is
/// newer, and ends past the window or begins above the commit number. Both ask, too, that the replica
/// isn't that primary; else `Ignored`. Headers that are taken have the values of the program.
#[tactic(auto, using(vr_volatile::proofs::Memory::window_of, vr_volatile::proofs::Memory::some_member), unfolding(vr_rules::specs::Deciding::first_of))]
pub fn decide_start_view(replica: &Replica, start: &StartView) -> StartRule
    requires { IsReady replica.now }
    ensures rule { first_of (start_view_table name_of start.now replica.now) ≡ start_rule result }
    ensures values { result ≡ StartRule.Taken → AreHeaders start.now.body.headers }
{
    let log = log_of(start);
    if !replica.is_from_primary(start.version, start.cluster, start.replica, start.view) {
        StartRule::Ignored
    } else if replica.may_take(&log) && replica.index() != primary(replica.n(), start.view) {
        StartRule::Taken
    } else if replica.is_newer(&log)
        && is_out_of_reach(replica, &log)
        && replica.index() != primary(replica.n(), start.view)
    {
        StartRule::SyncAsked
    } else {
        StartRule::Ignored
    }
}

/// `ViewGiven` where the message is of this version and group and from another replica, and the replica
/// leads a view that is at least the asked one. Else `Ignored`.
#[tactic(auto, unfolding(vr_rules::specs::Deciding::first_of))]
pub fn decide_get_view(replica: &Replica, get: &GetView) -> ViewRule
    requires { 0 < replica.now.n }
    ensures { first_of (get_view_table get.now replica.now) ≡ view_rule result }
{
    if !replica.is_from(get.version, get.cluster, get.replica) {
        ViewRule::Ignored
    } else if replica.leads() && get.view <= replica.view() {
        ViewRule::ViewGiven
    } else {
        ViewRule::Ignored
    }
}

// In this order: the log is taken over, and saved; for each op above the commit number up to its head,
// ascending, if `Here`, a prepare_ok goes to the primary. Then what is committed is applied. `MayTake`:
// the log is newer, fits and is a chain. After an `Err` the disk has had its calls up to the stop; of
// replica and outputs nothing is said.
#[tactic(auto, using(crate::proofs::Takes::taken_low, crate::proofs::Choices::head_small))]
fn follow<D: SectorDisk>(
    replica: &mut Replica,
    alloc: Global,
    disk: &mut D,
    log: &Log,
    out: &mut Outbox,
) -> Result<(), Halt>
    requires act { MayAct 65 replica.old }
    requires may { MayTake log.now replica.old }
    ensures { Acts D.SectorDisk (take log.now ⨾ each_to (acknowledge_stored name_of) log.now.head ⨾ apply) replica.old replica.new disk.old disk.new out.old out.new result }
{
    take(replica, alloc, disk, log, out)?;
    acknowledge_all(replica, head_of(log), out)?;
    apply(replica, alloc, disk, out)
}

/// Only from its view's primary, another replica of this version and group, is anything done, and not
/// where the replica is that primary. Rule 26: a log that may be taken (newer, fits, a chain) is taken
/// over (`take`: views and Parts are by the log), and saved. Then each op above the commit number up to
/// its head, ascending, if `Here`, is acknowledged to the primary, and what is committed is applied.
/// Rule 35: else, where it is newer, and ends past the window or begins above the commit number, one
/// get_sync of its view goes to the sender. Else nothing is done. After an `Err` the disk has had its
/// calls up to the stop; of replica and outputs nothing is said.
#[tactic(auto, using(crate::proofs::Starts::starts, crate::proofs::Starts::may_follow, crate::proofs::Starts::view_started, vr_rules::proofs::Stepping::wants))]
pub fn handle_start_view<D: SectorDisk>(
    replica: &mut Replica,
    alloc: Global,
    disk: &mut D,
    start: &StartView,
    out: &mut Outbox,
) -> Result<(), Halt>
    requires act { MayAct 65 replica.old }
    requires message { IsStarting start.now }
    ensures { Acts D.SectorDisk (on_start_view start.now) replica.old replica.new disk.old disk.new out.old out.new result }
{
    match decide_start_view(replica, start) {
        StartRule::Ignored => Ok(()),
        StartRule::Taken => follow(replica, alloc, disk, &log_of(start), out),
        StartRule::SyncAsked => {
            replica.ask_sync(start.replica, start.view, out)?;
            Ok(())
        }
    }
}

/// Rule 27: where the replica leads a view that is at least the asked one, one start_view goes to the
/// sender. Else, and where the message isn't of this version and group and from another replica,
/// nothing is put out. Replica and disk are left as they are; after an `Err` nothing is said of
/// outputs.
#[tactic(auto, using(crate::proofs::Starts::gives, vr_volatile::proofs::Memory::some_member, vr_rules::proofs::Stepping::wants))]
pub fn handle_get_view<D: SectorDisk>(
    replica: &Replica,
    alloc: Global,
    _disk: &mut D,
    get: &GetView,
    out: &mut Outbox,
) -> Result<(), Halt>
    requires ready { IsReady replica.now }
    requires view { replica.now.view ≤ last_view }
    ensures { Acts D.SectorDisk (on_get_view get.now) replica.now replica.now _disk.old _disk.new out.old out.new result }
{
    match decide_get_view(replica, get) {
        ViewRule::Ignored => {}
        ViewRule::ViewGiven => replica.tell_view(alloc, get.replica, out)?,
    }
    Ok(())
}
