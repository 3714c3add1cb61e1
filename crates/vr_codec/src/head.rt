//! The header of a message.
ghost use Rattle.std.specs.Prelude.{◌≡◌, ◌≤◌, length};
ghost use Rattle.vr_msg.specs.declared.frame.Frame.{Frame};
ghost use Rattle.vr_msg.specs.Spelling.{command_for, header_before, kind_number, kind_op, with_fields};

use vr_base::{Sum, Version, checksum};
use vr_header::{Command, Header, Size};
use vr_msg::{
    Commit, DoViewChange, Frame, GetBlock, GetPrepare, GetSync, GetView, GiveBlock, GivePrepare,
    Prepare, PrepareOk, Reply, ReplyKind, Request, StartView, StartViewChange, SyncView,
};

/// The command of a message.
pub(crate) fn command_for(frame: &Frame) -> Command
    ensures { result ≡ command_for frame.now }
{
    match frame {
        Frame::Request(_) => Command::Request,
        Frame::Reply(_) => Command::Reply,
        Frame::Prepare(_) => Command::Prepare,
        Frame::PrepareOk(_) => Command::PrepareOk,
        Frame::Commit(_) => Command::Commit,
        Frame::StartViewChange(_) => Command::StartViewChange,
        Frame::DoViewChange(_) => Command::DoViewChange,
        Frame::StartView(_) => Command::StartView,
        Frame::GetView(_) => Command::GetView,
        Frame::GetPrepare(_) => Command::GetPrepare,
        Frame::GivePrepare(_) => Command::GivePrepare,
        Frame::GetBlock(_) => Command::GetBlock,
        Frame::GiveBlock(_) => Command::GiveBlock,
        Frame::GetSync(_) => Command::GetSync,
        Frame::SyncView(_) => Command::SyncView,
    }
}

/// A header of this version and command before a body, with no other field set.
pub(crate) fn header_before(version: Version, body: &[u8], command: Command) -> Header
    requires { length body.now ≤ 20352 }
    ensures { result ≡ header_before version body.now command }
{
    Header {
        body: checksum(body),
        parent: Sum([0; 16]),
        request_name: Sum([0; 16]),
        cluster: 0,
        client: 0,
        request: 0,
        view: 0,
        op: 0,
        commit: 0,
        size: Size::new(128 + body.len() as u32),
        command,
        replica: 0,
        version,
        kind: 0,
        aux: 0,
    }
}

fn kind_number(kind: &ReplyKind) -> u8
    ensures { result ≡ kind_number kind.now }
{
    match kind {
        ReplyKind::Outcome(_) => 1,
        ReplyKind::Old => 2,
        ReplyKind::Gap => 3,
        ReplyKind::Evicted => 4,
        ReplyKind::Busy => 5,
        ReplyKind::Redirect => 6,
    }
}

// The op that was executed, 0 where none was.
fn kind_op(kind: &ReplyKind) -> u64
    ensures { result ≡ kind_op kind.now }
{
    match kind {
        ReplyKind::Outcome(answered) => answered.op,
        ReplyKind::Old => 0,
        ReplyKind::Gap => 0,
        ReplyKind::Evicted => 0,
        ReplyKind::Busy => 0,
        ReplyKind::Redirect => 0,
    }
}

/// The header with the fields that the message sets.
pub(crate) fn with_fields(frame: &Frame, h: Header) -> Header
    ensures { result ≡ with_fields frame.now h }
{
    match frame {
        Frame::Request(request) => request_fields(request, h),
        Frame::Reply(reply) => reply_fields(reply, h),
        Frame::Prepare(p) => prepare_fields(p, h),
        Frame::PrepareOk(p) => prepare_ok_fields(p, h),
        Frame::Commit(c) => commit_fields(c, h),
        Frame::StartViewChange(s) => start_view_change_fields(s, h),
        Frame::DoViewChange(d) => do_view_change_fields(d, h),
        Frame::StartView(v) => start_view_fields(v, h),
        Frame::GetView(g) => get_view_fields(g, h),
        Frame::GetPrepare(g) => get_prepare_fields(g, h),
        Frame::GivePrepare(g) => give_prepare_fields(g, h),
        Frame::GetBlock(g) => get_block_fields(g, h),
        Frame::GiveBlock(g) => give_block_fields(g, h),
        Frame::GetSync(g) => get_sync_fields(g, h),
        Frame::SyncView(v) => sync_view_fields(v, h),
    }
}

fn request_fields(request: &Request, h: Header) -> Header
    ensures { result ≡ with_fields (Frame.Request request.now) h }
{
    let q = request.fields();
    Header {
        cluster: q.cluster,
        client: q.client,
        request: q.request,
        ..h
    }
}

fn reply_fields(reply: &Reply, h: Header) -> Header
    ensures { result ≡ with_fields (Frame.Reply reply.now) h }
{
    let r = reply.fields();
    Header {
        cluster: r.cluster,
        replica: r.replica,
        view: r.view,
        client: r.client,
        request: r.request,
        request_name: r.request_name,
        op: kind_op(&r.kind),
        kind: kind_number(&r.kind),
        ..h
    }
}

fn prepare_fields(p: &Prepare, h: Header) -> Header
    ensures { result ≡ with_fields (Frame.Prepare p.now) h }
{
    let entry = p.entry.header();
    Header {
        cluster: entry.cluster,
        replica: p.replica,
        view: p.view,
        op: entry.op,
        commit: p.commit,
        ..h
    }
}

fn prepare_ok_fields(p: &PrepareOk, h: Header) -> Header
    ensures { result ≡ with_fields (Frame.PrepareOk p.now) h }
{
    Header {
        cluster: p.cluster,
        replica: p.replica,
        view: p.view,
        op: p.op,
        parent: p.name,
        aux: p.made as u64,
        ..h
    }
}

fn commit_fields(c: &Commit, h: Header) -> Header
    ensures { result ≡ with_fields (Frame.Commit c.now) h }
{
    Header {
        cluster: c.cluster,
        replica: c.replica,
        view: c.view,
        op: c.head,
        commit: c.commit,
        ..h
    }
}

fn start_view_change_fields(s: &StartViewChange, h: Header) -> Header
    ensures { result ≡ with_fields (Frame.StartViewChange s.now) h }
{
    Header {
        cluster: s.cluster,
        replica: s.replica,
        view: s.view,
        ..h
    }
}

fn do_view_change_fields(d: &DoViewChange, h: Header) -> Header
    ensures { result ≡ with_fields (Frame.DoViewChange d.now) h }
{
    Header {
        cluster: d.cluster,
        replica: d.replica,
        view: d.view,
        op: d.statement.head,
        commit: d.statement.commit,
        aux: d.statement.log_view as u64,
        ..h
    }
}

fn start_view_fields(v: &StartView, h: Header) -> Header
    ensures { result ≡ with_fields (Frame.StartView v.now) h }
{
    Header {
        cluster: v.cluster,
        replica: v.replica,
        view: v.view,
        op: v.head,
        commit: v.commit,
        aux: v.body.lo,
        ..h
    }
}

fn get_view_fields(g: &GetView, h: Header) -> Header
    ensures { result ≡ with_fields (Frame.GetView g.now) h }
{
    Header {
        cluster: g.cluster,
        replica: g.replica,
        view: g.view,
        ..h
    }
}

fn get_prepare_fields(g: &GetPrepare, h: Header) -> Header
    ensures { result ≡ with_fields (Frame.GetPrepare g.now) h }
{
    Header {
        cluster: g.cluster,
        replica: g.replica,
        op: g.op,
        parent: g.name,
        aux: g.made as u64,
        ..h
    }
}

fn give_prepare_fields(g: &GivePrepare, h: Header) -> Header
    ensures { result ≡ with_fields (Frame.GivePrepare g.now) h }
{
    let entry = g.entry.header();
    Header {
        cluster: entry.cluster,
        replica: g.replica,
        op: entry.op,
        ..h
    }
}

fn get_block_fields(g: &GetBlock, h: Header) -> Header
    ensures { result ≡ with_fields (Frame.GetBlock g.now) h }
{
    Header {
        cluster: g.cluster,
        replica: g.replica,
        parent: g.name,
        aux: g.address,
        ..h
    }
}

fn give_block_fields(g: &GiveBlock, h: Header) -> Header
    ensures { result ≡ with_fields (Frame.GiveBlock g.now) h }
{
    Header {
        cluster: g.cluster,
        replica: g.replica,
        aux: g.address,
        ..h
    }
}

fn get_sync_fields(g: &GetSync, h: Header) -> Header
    ensures { result ≡ with_fields (Frame.GetSync g.now) h }
{
    Header {
        cluster: g.cluster,
        replica: g.replica,
        view: g.view,
        ..h
    }
}

fn sync_view_fields(v: &SyncView, h: Header) -> Header
    ensures { result ≡ with_fields (Frame.SyncView v.now) h }
{
    Header {
        cluster: v.cluster,
        replica: v.replica,
        view: v.view,
        op: v.head,
        commit: v.commit,
        aux: v.body.lo,
        ..h
    }
}
