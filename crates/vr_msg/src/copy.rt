//! Copies of messages and of what they carry.
ghost use Rattle.std.specs.Prelude.{◌≡◌, IfOk};

use crate::{
    Answered, DoViewChange, DvcBody, Frame, GiveBlock, GivePrepare, Message, Prepare, Reply,
    ReplyFields, ReplyKind, Request, RequestFields, StartView, Statement, SvBody, SyncView,
};
use std::alloc::{AllocError, Global};

impl Request {
    /// A copy of the request.
    pub fn try_clone(&self, alloc: Global) -> Result<Request, AllocError>
        ensures { IfOk result (λ copy. copy ≡ self.now) }
    {
        let q = self.fields();
        let fields = RequestFields {
            version: q.version,
            cluster: q.cluster,
            client: q.client,
            request: q.request,
            operation: q.operation.try_clone(alloc)?,
        };
        Ok(self.same(fields))
    }
}

impl ReplyKind {
    /// A copy of the kind, with its outcome.
    pub fn try_clone(&self, alloc: Global) -> Result<ReplyKind, AllocError>
        ensures { IfOk result (λ copy. copy ≡ self.now) }
    {
        match self {
            ReplyKind::Outcome(answered) => Ok(ReplyKind::Outcome(Answered {
                op: answered.op,
                outcome: answered.outcome.try_clone(alloc)?,
            })),
            ReplyKind::Old => Ok(ReplyKind::Old),
            ReplyKind::Gap => Ok(ReplyKind::Gap),
            ReplyKind::Evicted => Ok(ReplyKind::Evicted),
            ReplyKind::Busy => Ok(ReplyKind::Busy),
            ReplyKind::Redirect => Ok(ReplyKind::Redirect),
        }
    }
}

impl Reply {
    /// A copy of the reply.
    pub fn try_clone(&self, alloc: Global) -> Result<Reply, AllocError>
        ensures { IfOk result (λ copy. copy ≡ self.now) }
    {
        let r = self.fields();
        Ok(Reply::new(ReplyFields {
            version: r.version,
            cluster: r.cluster,
            replica: r.replica,
            view: r.view,
            client: r.client,
            request: r.request,
            request_name: r.request_name,
            kind: r.kind.try_clone(alloc)?,
        }))
    }
}

impl DvcBody {
    /// A copy of the Parts.
    pub fn try_clone(&self, alloc: Global) -> Result<DvcBody, AllocError>
        ensures { IfOk result (λ copy. copy ≡ self.now) }
    {
        Ok(DvcBody {
            first: self.first,
            parts: self.parts.try_clone(alloc)?,
        })
    }
}

impl SvBody {
    /// A copy of the headers.
    pub fn try_clone(&self, alloc: Global) -> Result<SvBody, AllocError>
        ensures { IfOk result (λ copy. copy ≡ self.now) }
    {
        Ok(SvBody {
            lo: self.lo,
            headers: self.headers.try_clone(alloc)?,
        })
    }
}

impl Statement {
    /// A copy of the statement.
    pub fn try_clone(&self, alloc: Global) -> Result<Statement, AllocError>
        ensures { IfOk result (λ copy. copy ≡ self.now) }
    {
        Ok(Statement {
            log_view: self.log_view,
            commit: self.commit,
            head: self.head,
            body: self.body.try_clone(alloc)?,
        })
    }
}

fn copy_prepare(alloc: Global, p: &Prepare) -> Result<Prepare, AllocError>
    ensures { IfOk result (λ copy. copy ≡ p.now) }
{
    Ok(Prepare {
        version: p.version,
        replica: p.replica,
        view: p.view,
        commit: p.commit,
        entry: p.entry.try_clone(alloc)?,
    })
}

fn copy_change(alloc: Global, d: &DoViewChange) -> Result<DoViewChange, AllocError>
    ensures { IfOk result (λ copy. copy ≡ d.now) }
{
    Ok(DoViewChange {
        version: d.version,
        cluster: d.cluster,
        replica: d.replica,
        view: d.view,
        statement: d.statement.try_clone(alloc)?,
    })
}

fn copy_start(alloc: Global, v: &StartView) -> Result<StartView, AllocError>
    ensures { IfOk result (λ copy. copy ≡ v.now) }
{
    Ok(StartView {
        version: v.version,
        cluster: v.cluster,
        replica: v.replica,
        view: v.view,
        head: v.head,
        commit: v.commit,
        body: v.body.try_clone(alloc)?,
    })
}

fn copy_give_prepare(alloc: Global, g: &GivePrepare) -> Result<GivePrepare, AllocError>
    ensures { IfOk result (λ copy. copy ≡ g.now) }
{
    Ok(GivePrepare {
        version: g.version,
        replica: g.replica,
        entry: g.entry.try_clone(alloc)?,
    })
}

fn copy_give_block(alloc: Global, g: &GiveBlock) -> Result<GiveBlock, AllocError>
    ensures { IfOk result (λ copy. copy ≡ g.now) }
{
    Ok(GiveBlock {
        version: g.version,
        cluster: g.cluster,
        replica: g.replica,
        address: g.address,
        block: g.block.try_clone(alloc)?,
    })
}

fn copy_sync(alloc: Global, v: &SyncView) -> Result<SyncView, AllocError>
    ensures { IfOk result (λ copy. copy ≡ v.now) }
{
    Ok(SyncView {
        version: v.version,
        cluster: v.cluster,
        replica: v.replica,
        view: v.view,
        head: v.head,
        commit: v.commit,
        checkpoint: v.checkpoint,
        root_address: v.root_address,
        root_name: v.root_name,
        body: v.body.try_clone(alloc)?,
    })
}

fn copy_frame(alloc: Global, frame: &Frame) -> Result<Frame, AllocError>
    ensures { IfOk result (λ copy. copy ≡ frame.now) }
{
    match frame {
        Frame::Request(q) => Ok(Frame::Request(q.try_clone(alloc)?)),
        Frame::Reply(r) => Ok(Frame::Reply(r.try_clone(alloc)?)),
        Frame::Prepare(p) => Ok(Frame::Prepare(copy_prepare(alloc, p)?)),
        Frame::PrepareOk(p) => Ok(Frame::PrepareOk(*p)),
        Frame::Commit(c) => Ok(Frame::Commit(*c)),
        Frame::StartViewChange(s) => Ok(Frame::StartViewChange(*s)),
        Frame::DoViewChange(d) => Ok(Frame::DoViewChange(copy_change(alloc, d)?)),
        Frame::StartView(v) => Ok(Frame::StartView(copy_start(alloc, v)?)),
        Frame::GetView(g) => Ok(Frame::GetView(*g)),
        Frame::GetPrepare(g) => Ok(Frame::GetPrepare(*g)),
        Frame::GivePrepare(g) => Ok(Frame::GivePrepare(copy_give_prepare(alloc, g)?)),
        Frame::GetBlock(g) => Ok(Frame::GetBlock(*g)),
        Frame::GiveBlock(g) => Ok(Frame::GiveBlock(copy_give_block(alloc, g)?)),
        Frame::GetSync(g) => Ok(Frame::GetSync(*g)),
        Frame::SyncView(v) => Ok(Frame::SyncView(copy_sync(alloc, v)?)),
    }
}

impl Message {
    /// A copy of the message.
    pub fn try_clone(&self, alloc: Global) -> Result<Message, AllocError>
        ensures { IfOk result (λ copy. copy ≡ self.now) }
    {
        let frame = self.frame();
        Ok(Message::new(copy_frame(alloc, frame)?))
    }
}
