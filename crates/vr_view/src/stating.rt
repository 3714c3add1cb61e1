//! A replica states its log for a view: do_view_changes.
ghost use Rattle.std.specs.Prelude.{◌≡◌, ◌<◌, ◌≤◌, ◌+◌, ◌∷◌, [], IfOk, OnOk};
ghost use Rattle.vr_msg.specs.Spelling.{AreHeaders, known};
ghost use Rattle.vr_rules.specs.Deciding.{do_view_change_table, first_of};
ghost use Rattle.vr_rules.specs.declared.rule.Rule.TheVariants.{Stated};
ghost use Rattle.vr_rules.specs.Replica.{last_view};
ghost use Rattle.vr_rules.specs.Rules.{on_do_view_change, with_statement};
ghost use Rattle.vr_rules.specs.Steps.{◌⨾◌, change};
ghost use Rattle.vr_rules.specs.Words.{try};
ghost use Rattle.vr_view.specs.Messages.{IsStating};
ghost use Rattle.vr_view.specs.Named.{state_rule};
ghost use Rattle.vr_view.specs.Entering.{entering};
ghost use Rattle.vr_actions.specs.Acts.{Acts, MayAct, MaySend};

use crate::trying::try_view;
use std::alloc::{AllocError, Global};
use vr_actions::{Halt, Replica, enter, primary, valued};
use vr_base::Seq;
use vr_disk::SectorDisk;
use vr_header::Part;
use vr_msg::{DoViewChange, DvcBody, Outbox, Statement};

/// What a do_view_change leads to.
#[derive(Clone, Copy)]
pub enum StateRule {
    /// It isn't from another replica of the group.
    Ignored,
    /// It is of a view before the replica's, or of one whose primary the replica isn't.
    StatedBefore,
    /// The view is started already: the sender is told of the log.
    StatedLate,
    /// The statement is kept.
    Stated,
}

/// The first that holds: `Ignored` unless the message is of this version and group and from another
/// replica; `StatedBefore` below the view. Also `StatedBefore` where the replica isn't the primary of
/// the message's view. Then `StatedLate` where that is its own view, and started; else `Stated`.
#[tactic(auto, unfolding(vr_rules::specs::Deciding::first_of))]
pub fn decide_do_view_change(replica: &Replica, message: &DoViewChange) -> StateRule
    requires { 0 < replica.now.n }
    ensures { first_of (do_view_change_table message.now replica.now) ≡ state_rule result }
{
    if !replica.is_from(message.version, message.cluster, message.replica) {
        StateRule::Ignored
    } else if message.view < replica.view()
        || replica.index() != primary(replica.n(), message.view)
    {
        StateRule::StatedBefore
    } else if message.view == replica.view() && replica.is_started() {
        StateRule::StatedLate
    } else {
        StateRule::Stated
    }
}

// A copy of a Part. The header that it knows, if any, has the values of the program.
#[tactic(auto, using(crate::proofs::Copies::valued))]
fn copy_part(part: &Part) -> Part
    ensures same { result ≡ part.now }
    ensures values { AreHeaders (known (part.now ∷ [])) }
{
    match part {
        Part::Here(header) => Part::Here(valued(*header)),
        Part::Lost(header) => Part::Lost(valued(*header)),
        Part::Wanted(header) => Part::Wanted(valued(*header)),
        Part::Unknown => Part::Unknown,
        Part::Nothing => Part::Nothing,
    }
}

// A copy of Parts, in order. The headers that they know have the values of the program. An `Err` is want
// of memory.
#[tactic(auto, using(crate::proofs::Copies::copies))]
fn copy_parts(alloc: Global, parts: &[Part]) -> Result<Seq<Part>, AllocError>
    ensures same { IfOk result (λ copy. copy ≡ parts.now) }
    ensures values { OnOk result (AreHeaders (known parts.now)) }
{
    let mut copy = Seq::from_vec(Vec::with_capacity(alloc, parts.len())?);
    for part in parts {
        copy.push(copy_part(part))?;
    }
    Ok(copy)
}

// A copy of a statement. The headers that its Parts know have the values of the program. An `Err` is want
// of memory.
fn copy_statement(alloc: Global, statement: &Statement) -> Result<Statement, AllocError>
    ensures same { IfOk result (λ copy. copy ≡ statement.now) }
    ensures values { OnOk result (AreHeaders (known statement.now.body.parts)) }
{
    Ok(Statement {
        log_view: statement.log_view,
        commit: statement.commit,
        head: statement.head,
        body: DvcBody {
            first: statement.body.first,
            parts: copy_parts(alloc, statement.body.parts.as_slice())?,
        },
    })
}

// In this order: this is the view, with acknowledgements and statements dropped, only itself heard, and
// idle 0; it is saved once; a start_view_change goes to each other replica. Group and size stay. After
// an `Err` the disk has had its calls up to the stop; of replica and outputs nothing is said.
#[tactic(auto, using(crate::proofs::States::enters))]
fn enter_later<D: SectorDisk>(
    replica: &mut Replica,
    alloc: Global,
    disk: &mut D,
    view: u32,
    out: &mut Outbox,
) -> Result<(), Halt>
    requires act { MayAct 1 replica.old }
    requires later { replica.old.view < view }
    requires last { view ≤ last_view }
    ensures view { OnOk result (replica.new.view ≡ view) }
    ensures group { OnOk result (replica.new.cluster ≡ replica.old.cluster) }
    ensures size { OnOk result (replica.new.n ≡ replica.old.n) }
    ensures spent { OnOk result (replica.new.saved.fields.sequence ≤ replica.old.saved.fields.sequence + 1) }
    ensures acts { Acts D.SectorDisk (entering view) replica.old replica.new disk.old disk.new out.old out.new result }
{
    match enter(replica, alloc, disk, view, out) {
        Ok(()) => Ok(()),
        Err(halt) => Err(halt),
    }
}

// Where the replica is in this view, nothing is done. Else it is entered: acknowledgements and
// statements are dropped, only itself is heard, idle is 0; it saves once; a start_view_change goes to
// each other replica. Group and size stay. After an `Err` the disk has had its calls up to the stop; of
// replica and outputs nothing is said.
#[tactic(auto, using(crate::proofs::States::enters))]
fn enter_up_to<D: SectorDisk>(
    replica: &mut Replica,
    alloc: Global,
    disk: &mut D,
    view: u32,
    out: &mut Outbox,
) -> Result<(), Halt>
    requires act { MayAct 1 replica.old }
    requires later { replica.old.view ≤ view }
    requires last { view ≤ last_view }
    ensures view { OnOk result (replica.new.view ≡ view) }
    ensures group { OnOk result (replica.new.cluster ≡ replica.old.cluster) }
    ensures size { OnOk result (replica.new.n ≡ replica.old.n) }
    ensures spent { OnOk result (replica.new.saved.fields.sequence ≤ replica.old.saved.fields.sequence + 1) }
    ensures acts { Acts D.SectorDisk (entering view) replica.old replica.new disk.old disk.new out.old out.new result }
{
    if replica.view() < view {
        enter_later(replica, alloc, disk, view, out)
    } else {
        Ok(())
    }
}

// In this order: the message's view is entered, unless it is the replica's; the statement takes the
// place of the sender's; the replica tries to begin its view (`try`). Entering saves, and tells each
// other replica. After an `Err` the disk has had its calls up to the stop; of replica and outputs
// nothing is said.
#[tactic(auto, using(vr_rules::proofs::Stepping::steps, crate::proofs::States::states))]
fn keep<D: SectorDisk>(
    replica: &mut Replica,
    alloc: Global,
    disk: &mut D,
    message: &DoViewChange,
    out: &mut Outbox,
) -> Result<(), Halt>
    requires act { MayAct 66 replica.old }
    requires message { IsStating message.now }
    requires rule { first_of (do_view_change_table message.now replica.old) ≡ Stated }
    ensures { Acts D.SectorDisk (entering message.now.view ⨾ change (with_statement message.now.replica message.now.statement) ⨾ try) replica.old replica.new disk.old disk.new out.old out.new result }
{
    enter_up_to(replica, alloc, disk, message.view, out)?;
    let statement = copy_statement(alloc, &message.statement)?;
    replica.keep_statement(message.replica, statement);
    try_view(replica, alloc, disk, out)
}

/// Where the message isn't of this version and group and from another replica, is below the view, or of
/// a view whose primary isn't this one, nothing is done. Rule 24: of the replica's own view, started,
/// one start_view goes to the sender. Rule 25, else: a later view is entered, saved and told to each
/// other replica; the statement takes the place of the sender's; the replica tries to begin its view.
/// It tries: where the statements decide on a log that may be taken, the view begins with it; else
/// nothing or one `wait` line is put out. After an `Err` the disk has had its calls up to the stop; of
/// replica and outputs nothing is said.
#[tactic(auto, using(crate::proofs::States::rules, vr_volatile::proofs::Memory::some_member, vr_rules::proofs::Stepping::wants))]
pub fn handle_do_view_change<D: SectorDisk>(
    replica: &mut Replica,
    alloc: Global,
    disk: &mut D,
    message: &DoViewChange,
    out: &mut Outbox,
) -> Result<(), Halt>
    requires send { MaySend 66 replica.old }
    requires message { IsStating message.now }
    ensures { Acts D.SectorDisk (on_do_view_change message.now) replica.old replica.new disk.old disk.new out.old out.new result }
{
    match decide_do_view_change(replica, message) {
        StateRule::Ignored => Ok(()),
        StateRule::StatedBefore => Ok(()),
        StateRule::StatedLate => {
            replica.tell_view(alloc, message.replica, out)?;
            Ok(())
        }
        StateRule::Stated => keep(replica, alloc, disk, message, out),
    }
}
