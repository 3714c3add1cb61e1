//! The text of messages between replicas.
ghost use Rattle.std.specs.Prelude.{◌≡◌, ◌++◌, ◌≤◌, ◌+◌, ◌^◌, OnOk};
ghost use Rattle.vr_msg.specs.Forms.{IsFrame};
ghost use Rattle.vr_text.specs.Fronts.{IsFront};
ghost use Rattle.vr_text.specs.Text.{commit_text, do_view_change_text, frame_text, get_prepare_text, give_prepare_text, prepare_ok_text, prepare_text, start_view_text, stated, statement_text, sync_view_text};

use crate::parts::put_parts;
use crate::texts::{put, put_entry, put_head, put_log, put_number, put_view};
use std::alloc::AllocError;
use vr_base::ByteList;
use vr_header::Part;
use vr_msg::{
    Commit, DoViewChange, Frame, GetPrepare, GivePrepare, Prepare, PrepareOk, StartView, Statement,
    SyncView,
};

#[tactic(auto, using(std::proofs::lemmas::Grind::common_steps, crate::proofs::Fronts::front_then), unfolding(crate::specs::Text::prepare_text))]
fn put_prepare(to: &mut ByteList, p: &Prepare) -> Result<(), AllocError>
    ensures text { OnOk result (to.new ≡ to.old ++ prepare_text p.now) }
    ensures front { IsFront to.old to.new }
{
    let header = p.entry.header();
    put_view(to, "prepare", p.view)?;
    put(to, " ")?;
    put_entry(to, header.op, header.view)?;
    put_number(to, " commit ", p.commit)
}

#[tactic(auto, using(std::proofs::lemmas::Grind::common_steps, crate::proofs::Fronts::front_then), unfolding(crate::specs::Text::prepare_ok_text))]
fn put_prepare_ok(to: &mut ByteList, p: &PrepareOk) -> Result<(), AllocError>
    ensures text { OnOk result (to.new ≡ to.old ++ prepare_ok_text p.now) }
    ensures front { IsFront to.old to.new }
{
    put_view(to, "prepare_ok", p.view)?;
    put(to, " ")?;
    put_entry(to, p.op, p.made)
}

#[tactic(auto, using(std::proofs::lemmas::Grind::common_steps, crate::proofs::Fronts::front_then), unfolding(crate::specs::Text::commit_text))]
fn put_commit(to: &mut ByteList, c: &Commit) -> Result<(), AllocError>
    ensures text { OnOk result (to.new ≡ to.old ++ commit_text c.now) }
    ensures front { IsFront to.old to.new }
{
    put_view(to, "commit", c.view)?;
    put_head(to, c.head, c.commit)
}

#[tactic(auto, using(std::proofs::lemmas::Grind::common_steps, crate::proofs::Fronts::front_then), unfolding(crate::specs::Text::start_view_text))]
fn put_start_view(to: &mut ByteList, v: &StartView) -> Result<(), AllocError>
    ensures text { OnOk result (to.new ≡ to.old ++ start_view_text v.now) }
    ensures front { IsFront to.old to.new }
{
    put_view(to, "start_view", v.view)?;
    put_head(to, v.head, v.commit)
}

#[tactic(auto, using(std::proofs::lemmas::Grind::common_steps, crate::proofs::Fronts::front_then), unfolding(crate::specs::Text::sync_view_text))]
fn put_sync_view(to: &mut ByteList, v: &SyncView) -> Result<(), AllocError>
    ensures text { OnOk result (to.new ≡ to.old ++ sync_view_text v.now) }
    ensures front { IsFront to.old to.new }
{
    put_view(to, "sync_view", v.view)?;
    put_head(to, v.head, v.commit)?;
    put_number(to, " checkpoint ", v.checkpoint)
}

/// What a replica states of its log; its Parts are told from the op after its commit number on.
#[tactic(auto, using(std::proofs::lemmas::Grind::common_steps, crate::proofs::Fronts::front_then), unfolding(crate::specs::Text::statement_text))]
fn put_statement(to: &mut ByteList, s: &Statement) -> Result<(), AllocError>
    requires first { s.now.body.first ≤ s.now.commit + 1 }
    requires commit { s.now.commit ≤ 2 ^ 62 }
    ensures text { OnOk result (to.new ≡ to.old ++ statement_text s.now) }
    ensures front { IsFront to.old to.new }
{
    put_log(to, s.log_view, s.commit, s.head)?;
    put(to, " parts ")?;
    put_parts(to, stated(s))
}

/// The Parts from the op after the commit number on.
fn stated(s: &Statement) -> &[Part]
    requires first { s.now.body.first ≤ s.now.commit + 1 }
    requires commit { s.now.commit ≤ 2 ^ 62 }
    ensures { result.now ≡ stated s.now }
{
    let parts = s.body.parts.as_slice();
    let skipped = s.commit + 1 - s.body.first;
    if skipped < parts.len() as u64 {
        &parts[skipped as usize..]
    } else {
        &[]
    }
}

#[tactic(auto, using(std::proofs::lemmas::Grind::common_steps, crate::proofs::Fronts::front_then), unfolding(crate::specs::Text::do_view_change_text))]
fn put_do_view_change(to: &mut ByteList, d: &DoViewChange) -> Result<(), AllocError>
    requires first { d.now.statement.body.first ≤ d.now.statement.commit + 1 }
    requires commit { d.now.statement.commit ≤ 2 ^ 62 }
    ensures text { OnOk result (to.new ≡ to.old ++ do_view_change_text d.now) }
    ensures front { IsFront to.old to.new }
{
    put_view(to, "do_view_change", d.view)?;
    put_statement(to, &d.statement)
}

/// What a message says; of a request or a reply, which replicas don't send each other, only what it is.
#[tactic(auto, using(std::proofs::lemmas::Grind::common_steps, crate::proofs::Fronts::front_then))]
pub fn put_frame(to: &mut ByteList, frame: &Frame) -> Result<(), AllocError>
    requires { IsFrame frame.now }
    ensures text { OnOk result (to.new ≡ to.old ++ frame_text frame.now) }
    ensures front { IsFront to.old to.new }
{
    match frame {
        Frame::Request(_) => put(to, "request"),
        Frame::Reply(_) => put(to, "reply"),
        Frame::Prepare(p) => put_prepare(to, p),
        Frame::PrepareOk(p) => put_prepare_ok(to, p),
        Frame::Commit(c) => put_commit(to, c),
        Frame::StartViewChange(s) => put_view(to, "start_view_change", s.view),
        Frame::DoViewChange(d) => put_do_view_change(to, d),
        Frame::StartView(v) => put_start_view(to, v),
        Frame::GetView(g) => put_view(to, "get_view", g.view),
        Frame::GetPrepare(g) => put_get_prepare(to, g),
        Frame::GivePrepare(g) => put_give_prepare(to, g),
        Frame::GetBlock(g) => put_number(to, "get_block ", g.address),
        Frame::GiveBlock(g) => put_number(to, "give_block ", g.address),
        Frame::GetSync(g) => put_view(to, "get_sync", g.view),
        Frame::SyncView(v) => put_sync_view(to, v),
    }
}

#[tactic(auto, using(std::proofs::lemmas::Grind::common_steps, crate::proofs::Fronts::front_then), unfolding(crate::specs::Text::get_prepare_text))]
fn put_get_prepare(to: &mut ByteList, g: &GetPrepare) -> Result<(), AllocError>
    ensures text { OnOk result (to.new ≡ to.old ++ get_prepare_text g.now) }
    ensures front { IsFront to.old to.new }
{
    put(to, "get_prepare ")?;
    put_entry(to, g.op, g.made)
}

#[tactic(auto, using(std::proofs::lemmas::Grind::common_steps, crate::proofs::Fronts::front_then), unfolding(crate::specs::Text::give_prepare_text))]
fn put_give_prepare(to: &mut ByteList, g: &GivePrepare) -> Result<(), AllocError>
    ensures text { OnOk result (to.new ≡ to.old ++ give_prepare_text g.now) }
    ensures front { IsFront to.old to.new }
{
    let header = g.entry.header();
    put(to, "give_prepare ")?;
    put_entry(to, header.op, header.view)
}
