//! Entries of the primary are stored, and acknowledged: prepares.
ghost use Rattle.std.specs.Prelude.{◌≡◌, ◌≤◌, ◌+◌, ◌&&◌, nat_lt, true};
ghost use Rattle.vr_base.specs.Bytes.{name_of};
ghost use Rattle.vr_volatile.specs.Ready.{IsReady, MayStore};
ghost use Rattle.vr_actions.specs.Waits.{EndsAtOnce, passes};
ghost use Rattle.vr_rules.specs.Deciding.{first_of, is_unknown, prepare_table};
ghost use Rattle.vr_rules.specs.Replica.{head, last_view, window_end};
ghost use Rattle.vr_rules.specs.declared.rule.Rule.TheVariants.{Ahead, Known, Next};
ghost use Rattle.vr_rules.specs.Rules.{obey_prepare, on_prepare};
ghost use Rattle.vr_rules.specs.Steps.{◌⨾◌, change};
ghost use Rattle.vr_rules.specs.Words.{learn, rested};
ghost use Rattle.vr_normal.specs.Messages.{IsPreparing};
ghost use Rattle.vr_normal.specs.Named.{prepare_rule};
ghost use Rattle.vr_normal.specs.Words.{is_next};
ghost use Rattle.vr_actions.specs.Acts.{Acts, MayAct, MaySend};

use crate::entries::header_of;
use crate::learning::ask_view;
use crate::making::head_name;
use std::alloc::Global;
use vr_actions::{Halt, Replica, accept, learn, write};
use vr_disk::{SLOTS, SectorDisk};
use vr_header::Header;
use vr_msg::{Outbox, Prepare};

/// What a prepare leads to.
#[derive(Clone, Copy)]
pub enum PrepareRule {
    /// It isn't from the primary of its view, another replica of the group.
    Ignored,
    /// It is of a view before the replica's.
    PreparedBefore,
    /// It is of a view whose log the replica doesn't have, and asks for.
    PreparedLater,
    /// Its op is one of the checkpoint.
    Past,
    /// Its op is past the window.
    Beyond,
    /// Its header is known.
    Known,
    /// It is the next entry.
    Next,
    /// Entries before it are missing.
    Ahead,
    /// It finds no place.
    Other,
}

// Whether no header of its op is known, its op is the one after the head, and its parent is the head's name.
#[tactic(auto, using(vr_volatile::proofs::Memory::window_of, vr_volatile::proofs::Memory::head_fits))]
fn is_next(replica: &Replica, header: &Header) -> bool
    requires { IsReady replica.now }
    ensures { result ≡ is_next header.now replica.now }
{
    replica.is_unknown(header.op)
        && header.op == replica.head() + 1
        && header.parent == head_name(replica)
}

// Whether no header of its op is known, and its op is above the one after the head.
#[tactic(auto, using(vr_volatile::proofs::Memory::window_of, vr_volatile::proofs::Memory::head_fits))]
fn is_ahead(replica: &Replica, header: &Header) -> bool
    requires { IsReady replica.now }
    ensures { result ≡ (is_unknown header.now.op replica.now && nat_lt (head replica.now + 1) header.now.op) }
{
    replica.is_unknown(header.op) && replica.head() + 1 < header.op
}

// Whether the op is more than 64 above the checkpoint.
#[tactic(auto, using(vr_volatile::proofs::Memory::window_of))]
fn is_beyond(replica: &Replica, op: u64) -> bool
    requires { IsReady replica.now }
    ensures { result ≡ nat_lt (window_end replica.now) op }
{
    replica.checkpoint() + (SLOTS as u64) < op
}

/// The first that holds: `Ignored` unless it is of this version and group and from its view's primary, another replica; `PreparedBefore`
/// below the view; `PreparedLater` above the log view. By its op: `Past` up to the checkpoint; `Beyond` past the window; `Known` where the
/// op's known header is its own, in all 128 bytes. Where no header of the op is known: `Next` for the op after the head with the head's
/// name as parent; `Ahead` for a later op. Else `Other`.
#[tactic(auto, using(vr_volatile::proofs::Memory::some_member), unfolding(vr_rules::specs::Deciding::first_of))]
pub fn decide_prepare(replica: &Replica, prepare: &Prepare) -> PrepareRule
    requires { IsReady replica.now }
    ensures { first_of (prepare_table name_of prepare.now replica.now) ≡ prepare_rule result }
{
    let header = prepare.entry.header();
    if !replica.is_from_primary(
        prepare.version,
        header.cluster,
        prepare.replica,
        prepare.view,
    ) {
        PrepareRule::Ignored
    } else if prepare.view < replica.view() {
        PrepareRule::PreparedBefore
    } else if replica.log_view() < prepare.view {
        PrepareRule::PreparedLater
    } else if header.op <= replica.checkpoint() {
        PrepareRule::Past
    } else if is_beyond(replica, header.op) {
        PrepareRule::Beyond
    } else if replica.is_known(&header, header.op) {
        PrepareRule::Known
    } else if is_next(replica, &header) {
        PrepareRule::Next
    } else if is_ahead(replica, &header) {
        PrepareRule::Ahead
    } else {
        PrepareRule::Other
    }
}

// In this order: idle is 0; this commit number is learned, at most up to the head; what is committed is applied. After an `Err` the disk
// has had its calls up to the stop; of replica and outputs nothing is said.
#[tactic(auto, using(vr_rules::proofs::Stepping::steps, vr_volatile::proofs::Memory::readies))]
fn hear<D: SectorDisk>(
    replica: &mut Replica,
    alloc: Global,
    disk: &mut D,
    commit: u64,
    out: &mut Outbox,
) -> Result<(), Halt>
    requires { MayAct 64 replica.old }
    ensures { Acts D.SectorDisk (change rested ⨾ learn commit) replica.old replica.new disk.old disk.new out.old out.new result }
{
    replica.rest();
    learn(replica, alloc, disk, commit, out)
}

// Rule 11, in this order: idle is 0; the entry is written, unless the Part of its op is `Here`; a prepare_ok of it goes to the view's
// primary. Then the prepare's commit number is learned, at most up to the head, and what is committed is applied. After an `Err` the disk
// has had its calls up to the stop; of replica and outputs nothing is said.
#[tactic(auto, using(vr_volatile::proofs::Memory::readies))]
fn store_known<D: SectorDisk>(
    replica: &mut Replica,
    alloc: Global,
    disk: &mut D,
    prepare: &Prepare,
    out: &mut Outbox,
) -> Result<(), Halt>
    requires send { MaySend 64 replica.old }
    requires may { MayStore prepare.now.entry replica.old }
    ensures { Acts D.SectorDisk (obey_prepare name_of prepare.now Known) replica.old replica.new disk.old disk.new out.old out.new result }
{
    replica.rest();
    accept(replica, disk, &prepare.entry, out)?;
    replica.acknowledge(&prepare.entry.header(), out)?;
    learn(replica, alloc, disk, prepare.commit, out)
}

// Rule 12, in this order: idle is 0; the entry is written, and `Here`; a prepare_ok of it goes to the view's primary. Then the prepare's
// commit number is learned, at most up to the head, and what is committed is applied. After an `Err` the disk has had its calls up to the
// stop; of replica and outputs nothing is said.
#[tactic(auto, using(vr_volatile::proofs::Memory::readies))]
fn store_next<D: SectorDisk>(
    replica: &mut Replica,
    alloc: Global,
    disk: &mut D,
    prepare: &Prepare,
    out: &mut Outbox,
) -> Result<(), Halt>
    requires send { MaySend 64 replica.old }
    requires may { MayStore prepare.now.entry replica.old }
    ensures { Acts D.SectorDisk (obey_prepare name_of prepare.now Next) replica.old replica.new disk.old disk.new out.old out.new result }
{
    replica.rest();
    write(replica, disk, &prepare.entry, out)?;
    replica.acknowledge(&prepare.entry.header(), out)?;
    learn(replica, alloc, disk, prepare.commit, out)
}

// Rule 13, in this order: idle is 0; a get_view of the prepare's view goes to its sender; the commit number is learned; what is committed
// is applied. The entry isn't written. After an `Err` the disk has had its calls up to the stop; of replica and outputs nothing is said.
#[tactic(auto, using(vr_rules::proofs::Stepping::steps, vr_volatile::proofs::Memory::readies))]
fn ask_ahead<D: SectorDisk>(
    replica: &mut Replica,
    alloc: Global,
    disk: &mut D,
    prepare: &Prepare,
    out: &mut Outbox,
) -> Result<(), Halt>
    requires act { MayAct 64 replica.old }
    requires view { prepare.now.view ≤ last_view }
    ensures { Acts D.SectorDisk (obey_prepare name_of prepare.now Ahead) replica.old replica.new disk.old disk.new out.old out.new result }
{
    replica.rest();
    ask_view(replica, prepare.view, prepare.replica, out)?;
    learn(replica, alloc, disk, prepare.commit, out)
}

/// Rules 7 to 14. Nothing is done where it is below the view, or not of this version and group and from its view's primary, another
/// replica. Above the log view a get_view goes to the sender, and that is all. Else idle is 0; an entry whose header is known, or that is
/// next, is written unless `Here`, and a prepare_ok goes to the primary; one ahead sends get_view. Then, unless past the window or without
/// a place (`Other`), its commit number is learned, and what is committed applied. Where it is ignored, before the view or `Other`
/// (`passes`), it answers `Ok` and leaves the very same disk. After an `Err` the disk has had its calls up to the stop; of replica and
/// outputs nothing is said.
#[tactic(auto, using(crate::proofs::Prepares::view_fits))]
pub fn handle_prepare<D: SectorDisk>(
    replica: &mut Replica,
    alloc: Global,
    disk: &mut D,
    prepare: &Prepare,
    out: &mut Outbox,
) -> Result<(), Halt>
    requires send { MaySend 64 replica.old }
    requires message { IsPreparing prepare.now }
    ensures passed { passes (first_of (prepare_table name_of prepare.now replica.old)) ≡ true → EndsAtOnce disk.old disk.new result }
    ensures acts { Acts D.SectorDisk (on_prepare prepare.now) replica.old replica.new disk.old disk.new out.old out.new result }
{
    let _header = header_of(&prepare.entry);
    match decide_prepare(replica, prepare) {
        PrepareRule::Ignored => Ok(()),
        PrepareRule::PreparedBefore => Ok(()),
        PrepareRule::PreparedLater => {
            ask_view(replica, prepare.view, prepare.replica, out)?;
            Ok(())
        }
        PrepareRule::Past => hear(replica, alloc, disk, prepare.commit, out),
        PrepareRule::Beyond => {
            replica.rest();
            Ok(())
        }
        PrepareRule::Known => store_known(replica, alloc, disk, prepare, out),
        PrepareRule::Next => store_next(replica, alloc, disk, prepare, out),
        PrepareRule::Ahead => ask_ahead(replica, alloc, disk, prepare, out),
        PrepareRule::Other => {
            replica.rest();
            Ok(())
        }
    }
}
