//! Requests of clients.
ghost use Rattle.std.specs.Prelude.{◌≡◌, ◌≤◌, ◌-◌, ◌++◌, ◌||◌, not, nat_le, nat_lt, slice_index_or, IfOk, OnOk};
ghost use Rattle.vr_base.specs.Bytes.{name_of};
ghost use Rattle.vr_header.specs.declared.part.Part.TheVariants.{Nothing};
ghost use Rattle.vr_volatile.specs.Ready.{IsReady};
ghost use Rattle.vr_msg.specs.Asking.{IsKindValue, IsReplyKind, IsRequest};
ghost use Rattle.vr_msg.specs.Normal.{last_op, pipeline};
ghost use Rattle.vr_rules.specs.Deciding.{first_of, is_in_flight, request_table};
ghost use Rattle.vr_rules.specs.Outputs.{replies};
ghost use Rattle.vr_rules.specs.Replica.{head, last_view, version};
ghost use Rattle.vr_rules.specs.Rules.{asker_by, on_request};
ghost use Rattle.vr_rules.specs.Words.{is_loaded};
ghost use Rattle.vr_state.specs.Asks.{is_fresh};
ghost use Rattle.vr_state.specs.Fitting.{AnswerFits};
ghost use Rattle.vr_normal.specs.Named.{request_rule};
ghost use Rattle.vr_normal.specs.Requests.{Answers, HasNumber, open_rows, stored_replies};
ghost use Rattle.vr_normal.specs.Words.{any_of, is_of};
ghost use Rattle.vr_actions.specs.Acts.{Acts, MaySend};

use crate::making::make_next;
use std::alloc::{AllocError, Global};
use vr_actions::{Halt, Replica, Window};
use vr_base::{NoMemory, Sum};
use vr_ckpt::SessionAnswer;
use vr_disk::SectorDisk;
use vr_header::{Header, LAST_OP, Part};
use vr_msg::{Answered, Outbox, ReplyKind, Request, RequestFields};

// The most entries that stand above the commit number.
const PIPELINE: u64 = 8;

/// What a request leads to.
#[derive(Drop)]
pub enum RequestRule {
    /// It is of another group.
    Ignored,
    /// This replica doesn't lead its view.
    Redirected,
    /// What is committed isn't applied yet.
    Behind,
    /// A request of the client stands above the commit number.
    InFlight,
    /// It isn't fresh: what the sessions answer.
    Answered(SessionAnswer),
    /// There is no room for it.
    Full,
    /// It becomes the next entry.
    Made,
}

// ---- which rule applies

// Whether the Part at this place knows a header, and that is of this client. Past the list it isn't.
#[tactic(auto, using(vr_window::proofs::Lists::past_is, vr_window::proofs::Lists::found_is))]
fn is_of(parts: &Window<Part>, client: u64, at: usize) -> bool
    ensures { result ≡ is_of client (slice_index_or parts.now at Nothing) }
{
    match parts.item(at) {
        Some(part) => match part.header() {
            Some(header) => header.client == client,
            None => false,
        },
        None => false,
    }
}

// Whether one of the Parts from place `from` on, below place `end`, knows a header of this client.
#[tactic(auto, using(crate::proofs::Requests::any_more, crate::proofs::Requests::any_found, crate::proofs::Requests::any_past))]
fn any_of(parts: &Window<Part>, client: u64, from: usize, end: usize) -> bool
    ensures { result ≡ any_of client parts.now from end }
{
    for i in from..end {
        if is_of(parts, client, i) {
            return true;
        }
    }
    false
}

// Whether an op above the commit number, at most the head, has a known header of this client.
#[tactic(auto, using(vr_volatile::proofs::Memory::window_of, vr_volatile::proofs::Memory::commit_fits, crate::proofs::Requests::flight_is))]
fn is_in_flight(replica: &Replica, client: u64) -> bool
    requires { IsReady replica.now }
    ensures { result ≡ is_in_flight client replica.now }
{
    let first = replica.first();
    let from = (replica.commit() + 1).saturating_sub(first) as usize;
    let end = (replica.head() + 1).saturating_sub(first) as usize;
    any_of(replica.parts(), client, from, end)
}

// Whether a block is missing, or applied is below the commit number.
fn is_late(replica: &Replica) -> bool
    ensures { result ≡ (not (is_loaded replica.now) || nat_lt replica.now.applied replica.now.commit) }
{
    !replica.is_loaded() || replica.applied() < replica.commit()
}

// Whether the head is at least 8 above the commit number, or at least 2^62.
#[tactic(auto, using(vr_volatile::proofs::Memory::window_of))]
fn is_full(replica: &Replica) -> bool
    requires { IsReady replica.now }
    ensures { result ≡ (nat_le pipeline (head replica.now - replica.now.commit) || nat_le last_op (head replica.now)) }
{
    let head = replica.head();
    PIPELINE <= head.saturating_sub(replica.commit()) || LAST_OP <= head
}

// Whether the sessions answer that the request is `Fresh`.
fn is_fresh(answer: &SessionAnswer) -> bool
    ensures { result ≡ is_fresh answer.now }
{
    match answer {
        SessionAnswer::Fresh => true,
        _ => false,
    }
}

// `Answered`, with what the sessions answer, where that isn't `Fresh`. Else `Full` where the head is at least 8 above the commit number, or
// at least 2^62; else `Made`. The rules in front of these aren't looked at. An `Err` is want of memory.
#[tactic(auto, unfolding(vr_rules::specs::Deciding::first_of, crate::specs::Requests::Answers))]
fn decide_open(replica: &Replica, request: &RequestFields) -> Result<RequestRule, NoMemory>
    requires { IsReady replica.now }
    ensures rule { IfOk result (λ x. first_of (open_rows request.now replica.now) ≡ request_rule x) }
    ensures answer { IfOk result (λ x. Answers x request.now replica.now) }
{
    let answer = replica.state().check(request.client, request.request)?;
    if !is_fresh(&answer) {
        Ok(RequestRule::Answered(answer))
    } else if is_full(replica) {
        Ok(RequestRule::Full)
    } else {
        Ok(RequestRule::Made)
    }
}

/// The first that holds: `Ignored` of another version or group; `Redirected` where the replica doesn't lead; `Behind` where a block is
/// missing or applied is below the commit number. `InFlight` where an op above the commit number, up to the head, is of the client;
/// `Answered`, with what the sessions answer, where that isn't `Fresh`. `Full` where the head is at least 8 above the commit number, or at
/// least 2^62; else `Made`. An `Err` is want of memory.
#[tactic(auto, using(vr_volatile::proofs::Memory::some_member), unfolding(vr_rules::specs::Deciding::first_of, crate::specs::Requests::Answers))]
pub fn decide_request(replica: &Replica, request: &RequestFields) -> Result<RequestRule, NoMemory>
    requires { IsReady replica.now }
    ensures rule { IfOk result (λ x. first_of (request_table request.now replica.now) ≡ request_rule x) }
    ensures answer { IfOk result (λ x. Answers x request.now replica.now) }
{
    if !replica.is_for(request.version, request.cluster) {
        Ok(RequestRule::Ignored)
    } else if !replica.leads() {
        Ok(RequestRule::Redirected)
    } else if is_late(replica) {
        Ok(RequestRule::Behind)
    } else if is_in_flight(replica, request.client) {
        Ok(RequestRule::InFlight)
    } else {
        decide_open(replica, request)
    }
}

// ---- what is done

// The name of the request, which is that of its header.
fn request_name(request: &Request) -> Sum
    ensures { result ≡ (asker_by name_of request.now).name }
{
    let (_, name) = request.header();
    name
}

// Puts out one reply of this kind, with the request's client, number and name, and the replica's view and version. After an `Err`, want of
// memory, nothing is said of outputs.
fn reply_to(
    replica: &Replica,
    request: &Request,
    kind: ReplyKind,
    out: &mut Outbox,
) -> Result<(), AllocError>
    requires view { replica.now.view ≤ last_view }
    requires kind { IsReplyKind kind }
    requires fits { IsKindValue (version replica.now) kind }
    ensures { OnOk result (out.new ≡ out.old ++ replies (asker_by name_of request.now) kind replica.now) }
{
    let fields = request.fields();
    replica.reply(
        fields.client,
        fields.request,
        request_name(request),
        kind,
        out,
    )
}

// Puts out one reply to the request: of `Repeat` the stored outcome with its op, else `Old`, `Gap` or `Evicted` as it is. Of `Fresh`
// nothing is put out. `HasNumber`, `AnswerFits`: op and outcome of a `Repeat` are such as a reply may carry. After an `Err`, want of
// memory, nothing is said of outputs.
fn reply_stored(
    replica: &Replica,
    request: &Request,
    answer: SessionAnswer,
    out: &mut Outbox,
) -> Result<(), AllocError>
    requires view { replica.now.view ≤ last_view }
    requires number { HasNumber answer }
    requires fits { AnswerFits (version replica.now) answer }
    ensures { OnOk result (out.new ≡ out.old ++ stored_replies (asker_by name_of request.now) answer replica.now) }
{
    match answer {
        SessionAnswer::Fresh => Ok(()),
        SessionAnswer::Repeat(outcome, op) => {
            let kind = ReplyKind::Outcome(Answered { op, outcome });
            reply_to(replica, request, kind, out)
        }
        SessionAnswer::Old => reply_to(replica, request, ReplyKind::Old, out),
        SessionAnswer::Gap => reply_to(replica, request, ReplyKind::Gap, out),
        SessionAnswer::Evicted => reply_to(replica, request, ReplyKind::Evicted, out),
    }
}

// `rule` is the one that applies. `Ignored` and `InFlight`: nothing; `Redirected`: reply `redirect`; `Behind` and `Full`: reply `busy`;
// `Answered`: reply what the sessions answer, which it has (`Answers`). `Made`: the next entry is made, written, prepared to each other
// replica, and counted; what is committed is applied. In all others replica and disk are left as they are. After an `Err` the disk has had
// its calls up to the stop; of replica and outputs nothing is said.
#[tactic(auto, using(crate::proofs::Requests::rules, vr_rules::proofs::Stepping::wants))]
fn obey_request<D: SectorDisk>(
    replica: &mut Replica,
    alloc: Global,
    disk: &mut D,
    request: &Request,
    rule: RequestRule,
    out: &mut Outbox,
) -> Result<(), Halt>
    requires send { MaySend 64 replica.old }
    requires form { IsRequest request.now }
    requires rule { first_of (request_table request.now replica.old) ≡ request_rule rule }
    requires answer { Answers rule request.now replica.old }
    ensures { Acts D.SectorDisk (on_request request.now) replica.old replica.new disk.old disk.new out.old out.new result }
{
    match rule {
        RequestRule::Ignored => Ok(()),
        RequestRule::Redirected => {
            reply_to(replica, request, ReplyKind::Redirect, out)?;
            Ok(())
        }
        RequestRule::Behind => {
            reply_to(replica, request, ReplyKind::Busy, out)?;
            Ok(())
        }
        RequestRule::InFlight => Ok(()),
        RequestRule::Answered(answer) => {
            reply_stored(replica, request, answer, out)?;
            Ok(())
        }
        RequestRule::Full => {
            reply_to(replica, request, ReplyKind::Busy, out)?;
            Ok(())
        }
        RequestRule::Made => make_next(replica, alloc, disk, request, out),
    }
}

/// The first that holds: of another version or group, nothing; the replica doesn't lead, reply `redirect`; a block is missing or applied is
/// below the commit number, reply `busy`. An op above the commit number is of the client, nothing; it isn't fresh, reply the stored outcome
/// or why there is none. The head is at least 8 above the commit number or at least 2^62, reply `busy`. Else, in this order: the next entry
/// is written; a prepare goes to each other replica; the commit number rises as quorums allow; what is committed is applied. After an `Err`
/// the disk has had its calls up to the stop; of replica and outputs nothing is said.
#[tactic(auto, using(vr_rules::proofs::Stepping::wants))]
pub fn handle_request<D: SectorDisk>(
    replica: &mut Replica,
    alloc: Global,
    disk: &mut D,
    request: &Request,
    out: &mut Outbox,
) -> Result<(), Halt>
    requires { MaySend 64 replica.old }
    ensures { Acts D.SectorDisk (on_request request.now) replica.old replica.new disk.old disk.new out.old out.new result }
{
    let rule = decide_request(replica, request.fields())?;
    obey_request(replica, alloc, disk, request, rule, out)
}
