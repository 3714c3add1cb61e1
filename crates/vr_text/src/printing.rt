//! The lines that a replay writes.
ghost use Rattle.std.specs.Prelude.{◌≡◌, ◌++◌, IfOk, OnOk};
ghost use Rattle.vr_header.specs.Bodies.{IsOperation};
ghost use Rattle.vr_text.specs.Fronts.{IsFront};
ghost use Rattle.vr_text.specs.Plain.{HasText, HasTexts, IsPlain};
ghost use Rattle.vr_text.specs.Text.{chosen_text, committed_text, kind_text, line_text, output_text, reply_text, sent_text, started_text, waiting_text};

use crate::frames::put_frame;
use crate::parts::put_parts;
use crate::texts::{put, put_client, put_log, put_number, put_operation, put_outcome};
use std::alloc::{AllocError, Global};
use vr_base::ByteList;
use vr_msg::{Chosen, Committed, Output, Reply, ReplyKind, Sent, Started, Waiting};

/// Message `m`.
#[tactic(auto, using(std::proofs::lemmas::Grind::common_steps, crate::proofs::Fronts::front_then), unfolding(crate::specs::Text::sent_text))]
fn put_sent(to: &mut ByteList, m: u64, s: &Sent) -> Result<(), AllocError>
    ensures text { OnOk result (to.new ≡ to.old ++ sent_text m s.now) }
    ensures front { IsFront to.old to.new }
{
    put_number(to, "send ", m)?;
    put_number(to, " ", u64::from(s.from))?;
    put_number(to, " ", u64::from(s.to))?;
    put(to, " ")?;
    put_frame(to, s.message.frame())
}

#[tactic(auto, using(std::proofs::lemmas::Grind::common_steps, crate::proofs::Fronts::front_then), unfolding(crate::specs::Text::committed_text))]
fn put_committed(to: &mut ByteList, c: &Committed) -> Result<(), AllocError>
    ensures text { OnOk result (to.new ≡ to.old ++ committed_text c.now) }
    ensures printable { OnOk result (IsOperation 2 c.now.entry.operation) }
    ensures front { IsFront to.old to.new }
{
    let header = c.entry.header();
    put_number(to, "commit ", u64::from(c.replica))?;
    put_number(to, " op ", header.op)?;
    put_number(to, " view ", u64::from(header.view))?;
    put_client(to, header.client, header.request)?;
    put_operation(to, c.entry.operation())
}

#[tactic(auto, using(std::proofs::lemmas::Grind::common_steps, crate::proofs::Fronts::front_then))]
fn put_kind(to: &mut ByteList, view: u32, kind: &ReplyKind) -> Result<(), AllocError>
    ensures text { OnOk result (to.new ≡ to.old ++ kind_text view kind.now) }
    ensures printable { OnOk result (HasText kind.now) }
    ensures front { IsFront to.old to.new }
{
    match kind {
        ReplyKind::Outcome(answered) => {
            put_number(to, "op ", answered.op)?;
            put(to, " ")?;
            put_outcome(to, &answered.outcome)
        }
        ReplyKind::Old => put(to, "old"),
        ReplyKind::Gap => put(to, "gap"),
        ReplyKind::Evicted => put(to, "evicted"),
        ReplyKind::Busy => put(to, "busy"),
        ReplyKind::Redirect => put_number(to, "redirect ", u64::from(view)),
    }
}

#[tactic(auto, using(std::proofs::lemmas::Grind::common_steps, crate::proofs::Fronts::front_then), unfolding(crate::specs::Text::reply_text))]
fn put_reply(to: &mut ByteList, reply: &Reply) -> Result<(), AllocError>
    ensures text { OnOk result (to.new ≡ to.old ++ reply_text reply.now) }
    ensures printable { OnOk result (HasText reply.now.kind) }
    ensures front { IsFront to.old to.new }
{
    let r = reply.fields();
    put_number(to, "reply ", u64::from(r.replica))?;
    put_client(to, r.client, r.request)?;
    put_kind(to, r.view, &r.kind)
}

#[tactic(auto, using(std::proofs::lemmas::Grind::common_steps, crate::proofs::Fronts::front_then), unfolding(crate::specs::Text::chosen_text))]
fn put_chosen(to: &mut ByteList, c: &Chosen) -> Result<(), AllocError>
    ensures text { OnOk result (to.new ≡ to.old ++ chosen_text c.now) }
    ensures front { IsFront to.old to.new }
{
    put_number(to, "choose ", u64::from(c.replica))?;
    put_number(to, " view ", u64::from(c.view))?;
    put_log(to, c.log_view, c.commit, c.head)?;
    put(to, " own ")?;
    put_parts(to, c.own.as_slice())
}

#[tactic(auto, using(std::proofs::lemmas::Grind::common_steps, crate::proofs::Fronts::front_then), unfolding(crate::specs::Text::waiting_text))]
fn put_waiting(to: &mut ByteList, w: &Waiting) -> Result<(), AllocError>
    ensures text { OnOk result (to.new ≡ to.old ++ waiting_text w.now) }
    ensures front { IsFront to.old to.new }
{
    put_number(to, "wait ", u64::from(w.replica))?;
    put_number(to, " view ", u64::from(w.view))?;
    put_number(to, " op ", w.op)
}

#[tactic(auto, using(std::proofs::lemmas::Grind::common_steps, crate::proofs::Fronts::front_then), unfolding(crate::specs::Text::started_text))]
fn put_started(to: &mut ByteList, s: &Started) -> Result<(), AllocError>
    ensures text { OnOk result (to.new ≡ to.old ++ started_text s.now) }
    ensures front { IsFront to.old to.new }
{
    put_number(to, "start ", u64::from(s.replica))?;
    put_number(to, " view ", u64::from(s.view))?;
    put_number(to, " log_view ", u64::from(s.log_view))?;
    put_number(to, " commit ", s.commit)
}

fn put_output(to: &mut ByteList, m: u64, output: &Output) -> Result<(), AllocError>
    ensures text { OnOk result (to.new ≡ to.old ++ output_text m output.now) }
    ensures printable { OnOk result (HasTexts output.now) }
    ensures front { IsFront to.old to.new }
{
    match output {
        Output::Send(s) => put_sent(to, m, s),
        Output::Commit(c) => put_committed(to, c),
        Output::Reply(r) => put_reply(to, r),
        Output::Choose(c) => put_chosen(to, c),
        Output::Wait(w) => put_waiting(to, w),
        Output::Start(s) => put_started(to, s),
        Output::Halted(replica) => put_number(to, "halt ", u64::from(*replica)),
        Output::Migrated(replica) => put_number(to, "migrated ", u64::from(*replica)),
        Output::Done => put(to, "done"),
        Output::KeptOut => put(to, "kept out"),
    }
}

/// Adds the line of an output at the end of a text; `m` is the number of the message that it is, if it is
/// one. An `Err` may have added some of it, after what stood there. The bytes before the line's end are from 32 to 126.
#[tactic(auto, using(std::proofs::lemmas::Grind::common_steps, crate::proofs::Fronts::front_then, crate::proofs::Plain::output_plain))]
pub fn write_text(m: u64, output: &Output, to: &mut ByteList) -> Result<(), AllocError>
    ensures text { OnOk result (to.new ≡ to.old ++ line_text m output.now) }
    ensures plain { OnOk result (IsPlain (output_text m output.now)) }
    ensures front { IsFront to.old to.new }
{
    put_output(to, m, output)?;
    put(to, "\n")
}

/// The line of an output, with its end; `m` is the number of the message that it is, if it is one.
pub fn text(alloc: Global, m: u64, output: &Output) -> Result<ByteList, AllocError>
    ensures text { IfOk result (λ text. text ≡ line_text m output.now) }
    ensures plain { OnOk result (IsPlain (output_text m output.now)) }
{
    let mut text = ByteList::new(alloc);
    write_text(m, output, &mut text)?;
    Ok(text)
}
