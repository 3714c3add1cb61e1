//! Try: the primary of a view that isn't started chooses the log with which it begins.
ghost use Rattle.std.specs.Prelude.{◌≡◌, ◌<◌, ◌≤◌, ◌+◌, ◌^◌, ◌++◌, IfOk, OnOk, ◌&&◌, if◌then◌else◌, length, nat_le, nat_lt, not};
ghost use Rattle.vr_base.specs.Replicas.{size};
ghost use Rattle.vr_volatile.specs.Ready.{IsReady};
ghost use Rattle.vr_rules.specs.Replica.{is_alone, is_primary, is_started, last_view, view_change};
ghost use Rattle.vr_rules.specs.Words.{advance, apply, begin_view, choose_line, chosen_log, decided, log_end, obey_choice, prepare_again, speak, stated, try, try_log};
ghost use Rattle.vr_msg.specs.declared.choice.Choice.TheVariants as Choice;
ghost use Rattle.vr_view.specs.Logs.{IsTaught, MayTake};
ghost use Rattle.vr_actions.specs.Telling.{each_to};
ghost use Rattle.vr_actions.specs.Acts.{Acts, MayAct, MaySend};

use crate::taking::{commit_of, head_of, take};
use std::alloc::{AllocError, Global};
use vr_actions::{Halt, Log, Replica, advance, apply, prepare_again};
use vr_base::{Seq, quorums};
use vr_choose::{choose, top_commit, top_view};
use vr_disk::SectorDisk;
use vr_header::HeaderList;
use vr_msg::{Choice, Outbox, Statement};

// The op of the last header, or the commit number where there is none.
fn log_end(commit: u64, headers: &HeaderList) -> u64
    ensures { result ≡ log_end commit headers.now }
{
    match headers.get(headers.len().saturating_sub(1)) {
        Some(header) => header.op,
        None => commit,
    }
}

// The log of the replica's view with these headers, and the greatest commit number that was stated. Its
// head is the op of the last header, or that commit number where there is none; its `lo` as many below
// as there are headers.
fn chosen_log<'a>(
    replica: &Replica,
    statements: &Seq<Statement>,
    headers: &'a HeaderList,
) -> Log<'a>
    ensures { result ≡ chosen_log replica.now statements.now headers.now }
{
    let commit = top_commit(statements.as_slice());
    let head = log_end(commit, headers);
    Log {
        view: replica.view(),
        lo: head.saturating_sub(headers.len() as u64),
        headers,
        head,
        commit,
    }
}

// What the statements decide, which are those of the group, the replica's own among them: too few, a
// wait at an op, or the headers of the log. An `Err` is want of memory.
#[tactic(auto, using(crate::proofs::Choices::some_stated))]
fn decide(
    replica: &Replica,
    alloc: Global,
    statements: &Seq<Statement>,
) -> Result<Choice, AllocError>
    requires ready { IsReady replica.now }
    requires stated { statements.now ≡ stated replica.now }
    ensures { IfOk result (λ c. c ≡ decided replica.now) }
{
    match quorums(replica.n()) {
        Some(quorums) => choose(alloc, statements.as_slice(), &quorums),
        None => Ok(Choice::TooFew),
    }
}

// For each op above the commit number up to the log's head, ascending: where it is `Here` and its entry
// reads, a prepare of it goes to each other replica. One that is `Here` and doesn't read becomes
// `Lost`. The saved value stays. The disk is left as it is; after an `Err` nothing is said of replica
// and outputs.
#[tactic(auto, using(vr_actions::proofs::Goes::goes))]
fn prepare_all<D: SectorDisk>(
    replica: &mut Replica,
    alloc: Global,
    disk: &mut D,
    log: &Log,
    out: &mut Outbox,
) -> Result<(), Halt>
    requires ready { IsReady replica.old }
    requires view { replica.old.view ≤ last_view }
    requires number { log.now.head < 2 ^ 63 }
    ensures saved { OnOk result (replica.new.saved ≡ replica.old.saved) }
    ensures acts { Acts D.SectorDisk (each_to prepare_again log.now.head) replica.old replica.new disk.old disk.new out.old out.new result }
{
    let commit = replica.commit();
    let head = head_of(log);
    for i in 0..head.saturating_sub(commit) {
        match prepare_again(replica, alloc, disk, commit + 1 + i, out) {
            Ok(()) => {}
            Err(halt) => return Err(halt),
        }
    }
    Ok(())
}

// Puts out a `choose` line: view, greatest log view stated, the log's commit number and head, the
// replica's Parts above its commit number up to the last that isn't `Nothing`. After an `Err`, want of
// memory, nothing is said of outputs.
#[tactic(auto, using(crate::proofs::Choices::choice_told, crate::proofs::Choices::commit_small))]
fn tell_choice(
    replica: &Replica,
    alloc: Global,
    statements: &Seq<Statement>,
    log: &Log,
    out: &mut Outbox,
) -> Result<(), AllocError>
    requires { IsReady replica.now }
    ensures { OnOk result (out.new ≡ out.old ++ choose_line statements.now log.now replica.now) }
{
    let view = top_view(statements.as_slice());
    replica.tell_choice(alloc, view, commit_of(log), head_of(log), out)?;
    Ok(())
}

// What is committed is applied. In a group of one the commit number rises first, as long as the next op
// has its quorum, the replica counted where it is `Here`. After an `Err` the disk has had its calls up
// to the stop; of replica and outputs nothing is said.
fn apply_log<D: SectorDisk>(
    replica: &mut Replica,
    alloc: Global,
    disk: &mut D,
    out: &mut Outbox,
) -> Result<(), Halt>
    requires { MayAct 64 replica.old }
    ensures { Acts D.SectorDisk (if is_alone replica.old then advance else apply) replica.old replica.new disk.old disk.new out.old out.new result }
{
    if replica.is_alone() {
        advance(replica, alloc, disk, out)
    } else {
        apply(replica, alloc, disk, out)
    }
}

// In this order: a `choose` line; the log is taken over, and saved; a start_view goes to each other
// replica. Then each op above the commit number up to the log's head, if `Here`, is read, and prepared
// to each other replica; one that doesn't read becomes `Lost`. Then what is committed is applied; in a
// group of one what is `Here` counts as committed first. After an `Err` the disk has had its calls up
// to the stop; of replica and outputs nothing is said.
#[tactic(auto, using(crate::proofs::Takes::taken_low, crate::proofs::Choices::head_small))]
fn begin_view<D: SectorDisk>(
    replica: &mut Replica,
    alloc: Global,
    disk: &mut D,
    statements: &Seq<Statement>,
    log: &Log,
    out: &mut Outbox,
) -> Result<(), Halt>
    requires act { MayAct 65 replica.old }
    requires may { MayTake log.now replica.old }
    ensures { Acts D.SectorDisk (begin_view statements.now log.now) replica.old replica.new disk.old disk.new out.old out.new result }
{
    tell_choice(replica, alloc, statements, log, out)?;
    take(replica, alloc, disk, log, out)?;
    replica.tell_views(alloc, out)?;
    prepare_all(replica, alloc, disk, log, out)?;
    apply_log(replica, alloc, disk, out)
}

// Where the log may be taken (newer, fits, a chain), the replica begins its view with it
// (`begin_view`): a `choose` line, take and save, start_views, prepares, apply. Else one `wait` line
// with the log's head is put out, and nothing else is done. `IsTaught`: the headers are those of
// entries of the group, of a view that may be entered. After an `Err` the disk has had its calls up to
// the stop; of replica and outputs nothing is said.
#[tactic(auto, using(vr_rules::proofs::Stepping::steps, crate::proofs::Takes::may_take_now, vr_volatile::proofs::Memory::window_of), unfolding(vr_rules::specs::Words::try_log))]
fn try_log<D: SectorDisk>(
    replica: &mut Replica,
    alloc: Global,
    disk: &mut D,
    statements: &Seq<Statement>,
    log: &Log,
    out: &mut Outbox,
) -> Result<(), Halt>
    requires act { MayAct 65 replica.old }
    requires taught { IsTaught log.now replica.old }
    ensures { Acts D.SectorDisk (try_log statements.now log.now) replica.old replica.new disk.old disk.new out.old out.new result }
{
    if replica.may_take(log) {
        begin_view(replica, alloc, disk, statements, log, out)
    } else {
        replica.tell_wait(log.head, out)?;
        Ok(())
    }
}

// Whether fewer replicas have stated, itself counted, than a view-change quorum.
fn are_too_few(replica: &Replica) -> bool
    ensures { result ≡ nat_lt (length (stated replica.now)) (view_change replica.now.n) }
{
    match quorums(replica.n()) {
        Some(quorums) => replica.stated_count() < quorums.view_change as usize,
        // No group has such a size; by the definition its quorum is 0.
        None => false,
    }
}

// The chosen log is the one of these headers. Where it may be taken, the view begins with it
// (`begin_view`); else one `wait` line with its head is put out. After an `Err` the disk has had its
// calls up to the stop; of replica and outputs nothing is said.
fn try_chosen<D: SectorDisk>(
    replica: &mut Replica,
    alloc: Global,
    disk: &mut D,
    statements: &Seq<Statement>,
    headers: &HeaderList,
    out: &mut Outbox,
) -> Result<(), Halt>
    requires send { MaySend 65 replica.old }
    requires stated { statements.now ≡ stated replica.old }
    requires chosen { decided replica.old ≡ Choice.Ends headers.now }
    ensures { Acts D.SectorDisk (obey_choice (stated replica.old) (decided replica.old)) replica.old replica.new disk.old disk.new out.old out.new result }
{
    let log = chosen_log(replica, statements, headers);
    try_log(replica, alloc, disk, statements, &log, out)
}

// What these statements decide is obeyed, which are those of the group, the replica's own among them.
// Too few: nothing; a wait: one `wait` line with its op. An end: where the chosen log may be taken, the
// view begins with it (`begin_view`); else one `wait` line with the log's head. After an `Err` the disk
// has had its calls up to the stop; of replica and outputs nothing is said.
#[tactic(auto, using(crate::proofs::Choices::choice_few, crate::proofs::Choices::choice_waits, vr_rules::proofs::Stepping::wants))]
fn obey_choice<D: SectorDisk>(
    replica: &mut Replica,
    alloc: Global,
    disk: &mut D,
    statements: &Seq<Statement>,
    out: &mut Outbox,
) -> Result<(), Halt>
    requires send { MaySend 65 replica.old }
    requires stated { statements.now ≡ stated replica.old }
    ensures { Acts D.SectorDisk (obey_choice (stated replica.old) (decided replica.old)) replica.old replica.new disk.old disk.new out.old out.new result }
{
    match decide(replica, alloc, statements)? {
        Choice::TooFew => Ok(()),
        Choice::WaitsAt(op) => {
            replica.tell_wait(op, out)?;
            Ok(())
        }
        Choice::Ends(headers) => {
            let tried = try_chosen(replica, alloc, disk, statements, &headers, out);
            drop(headers);
            tried
        }
    }
}

// Where fewer have stated than a view-change quorum, nothing is done. Else what the statements of the
// group, its own among them, decide is obeyed. A wait: one `wait` line with its op. An end: where the
// chosen log may be taken, the view begins with it (`begin_view`); else one `wait` line with the log's
// head. After an `Err` the disk has had its calls up to the stop; of replica and outputs nothing is
// said.
#[tactic(auto, using(crate::proofs::Choices::choice_small, vr_volatile::proofs::Memory::window_of, vr_rules::proofs::Stepping::wants))]
fn choose_log<D: SectorDisk>(
    replica: &mut Replica,
    alloc: Global,
    disk: &mut D,
    out: &mut Outbox,
) -> Result<(), Halt>
    requires { MaySend 65 replica.old }
    ensures { Acts D.SectorDisk (obey_choice (stated replica.old) (decided replica.old)) replica.old replica.new disk.old disk.new out.old out.new result }
{
    if are_too_few(replica) {
        return Ok(());
    }
    let statements = replica.stated(alloc)?;
    let obeyed = obey_choice(replica, alloc, disk, &statements, out);
    drop(statements);
    obeyed
}

// Whether the replica is the primary of its view, and that isn't started.
fn may_try(replica: &Replica) -> bool
    requires { 0 < replica.now.n }
    ensures { result ≡ (is_primary replica.now && not (is_started replica.now)) }
{
    replica.is_primary() && !replica.is_started()
}

/// Where the replica isn't the primary of its view, or that is started, or too few have stated, nothing
/// is done. Where the statements decide on a wait, one `wait` line with its op is put out. Where they
/// decide on a log that may be taken, the view begins with it: `choose` line, take and save,
/// start_views, prepares, apply. Where that may not be taken, one `wait` line with its head is put out.
/// After an `Err` the disk has had its calls up to the stop; of replica and outputs nothing is said.
#[tactic(auto, using(crate::proofs::Choices::tries, vr_volatile::proofs::Memory::some_member))]
pub fn try_view<D: SectorDisk>(
    replica: &mut Replica,
    alloc: Global,
    disk: &mut D,
    out: &mut Outbox,
) -> Result<(), Halt>
    requires { MaySend 65 replica.old }
    ensures { Acts D.SectorDisk try replica.old replica.new disk.old disk.new out.old out.new result }
{
    if may_try(replica) {
        choose_log(replica, alloc, disk, out)
    } else {
        Ok(())
    }
}

// Whether at least a view-change quorum is known to have entered its view.
fn is_heard(replica: &Replica) -> bool
    ensures { result ≡ nat_le (view_change replica.now.n) (size replica.now.heard) }
{
    match quorums(replica.n()) {
        Some(quorums) => quorums.view_change as usize <= replica.heard().size(),
        // No group has such a size; by the definition its quorum is 0.
        None => true,
    }
}

/// With fewer heard than a view-change quorum nothing is done. Else the primary tries to begin its view
/// (`try`), with the log that the statements decide on, and another replica sends one do_view_change
/// with its statement to the primary. After an `Err` the disk has had its calls up to the stop; of
/// replica and outputs nothing is said.
#[tactic(auto, using(vr_rules::proofs::Stepping::steps, vr_volatile::proofs::Memory::some_member), unfolding(vr_rules::specs::Words::speak))]
pub fn speak<D: SectorDisk>(
    replica: &mut Replica,
    alloc: Global,
    disk: &mut D,
    out: &mut Outbox,
) -> Result<(), Halt>
    requires send { MaySend 65 replica.old }
    requires changing { replica.old.log_view < replica.old.view }
    ensures { Acts D.SectorDisk speak replica.old replica.new disk.old disk.new out.old out.new result }
{
    if !is_heard(replica) {
        return Ok(());
    }
    if replica.is_primary() {
        try_view(replica, alloc, disk, out)
    } else {
        replica.tell_statement(alloc, out)?;
        Ok(())
    }
}
