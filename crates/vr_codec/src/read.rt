//! What a header and the bytes after it say, once they are known to be of a message's form.
ghost use Rattle.std.specs.Prelude.{◌≡◌, ◌+◌, ◌-◌, ◌≤◌, ◌<◌, ◌^◌, ◌||◌, not, true, Some, length, take, drop, IfOk, IfSome, is_ok, is_some};
ghost use Rattle.std.specs.Int.{w16};
ghost use Rattle.vr_base.specs.Bytes.{number};
ghost use Rattle.vr_header.specs.Made.{entry_of};
ghost use Rattle.vr_header.specs.Names.{header_name};
ghost use Rattle.vr_header.specs.Spelling.{decoded};
ghost use Rattle.vr_header.specs.declared.command.Command.{Command};
ghost use Rattle.vr_msg.specs.declared.frame.Frame.{Frame};
ghost use Rattle.vr_msg.specs.Asking.{IsKindValue};
ghost use Rattle.vr_codec.specs.Shapes.{body_fits, is_asked, knows, numbers_fit};
ghost use Rattle.vr_codec.specs.Reading.{kind_at, headers_at, are_headers, are_parts, part_of_tag, rest_at, parts_at, body_at, bare_for, needs_view, frame_for, IsAsking};

use crate::shape::knows;
use std::alloc::{AllocError, Global};
use vr_base::{ByteList, Seq, Sum, Version, sum_at, u16_at, u64_at};
use vr_header::{Command, Entry, Header, HeaderList, Operation, Outcome, Part, decoded_header};
use vr_msg::{
    Answered, Commit, DoViewChange, DvcBody, Frame, GetBlock, GetPrepare, GetSync, GetView,
    GiveBlock, GivePrepare, Prepare, PrepareOk, Reply, ReplyFields, ReplyKind, Request,
    RequestFields, RequestNames, StartView, StartViewChange, Statement, SvBody, SyncView,
};

#[tactic(auto, unfolding(crate::specs::Reading::kind_at))]
fn read_kind(
    alloc: Global,
    version: Version,
    kind: u8,
    op: u64,
    body: &[u8],
) -> Result<Option<ReplyKind>, AllocError>
    ensures kind { IfOk result (λ read. read ≡ kind_at version kind op body.now) }
    ensures fits { IfOk result (λ read. IfSome read (IsKindValue version)) }
{
    match kind {
        1 => match Outcome::decode_body(alloc, body, version)? {
            Some(outcome) => Ok(Some(ReplyKind::Outcome(Answered { op, outcome }))),
            None => Ok(None),
        },
        2 => Ok(Some(ReplyKind::Old)),
        3 => Ok(Some(ReplyKind::Gap)),
        4 => Ok(Some(ReplyKind::Evicted)),
        5 => Ok(Some(ReplyKind::Busy)),
        6 => Ok(Some(ReplyKind::Redirect)),
        _ => Ok(None),
    }
}

#[tactic(auto, using(std::proofs::lemmas::Grind::common_steps, crate::proofs::Fitting::reading_headers))]
fn read_headers(alloc: Global, count: u64, bytes: &[u8]) -> Result<HeaderList, AllocError>
    requires { are_headers count bytes.now ≡ true }
    ensures { IfOk result (λ headers. headers ≡ headers_at count bytes.now) }
{
    let mut headers = Vec::new(alloc);
    let mut rest = bytes;
    for i in 0..count {
        headers.push(decoded_header(rest))?;
        let (_, after) = rest.split_at(128);
        rest = after;
    }
    Ok(HeaderList::from_vec(headers))
}

#[tactic(auto, using(std::proofs::lemmas::Grind::common_steps), unfolding(crate::specs::Reading::part_of_tag))]
fn read_part(tag: u8, bytes: &[u8]) -> Part
    requires { (not (knows tag) || is_ok (decoded bytes.now)) ≡ true }
    ensures { result ≡ part_of_tag tag bytes.now }
{
    match tag {
        0 => Part::Nothing,
        1 => Part::Here(decoded_header(bytes)),
        2 => Part::Lost(decoded_header(bytes)),
        3 => Part::Wanted(decoded_header(bytes)),
        _ => Part::Unknown,
    }
}

#[tactic(auto, using(std::proofs::lemmas::Grind::common_steps, crate::proofs::Fitting::long_of_ok), unfolding(crate::specs::Reading::rest_at))]
fn rest_at(tag: u8, bytes: &[u8]) -> &[u8]
    requires { (not (knows tag) || is_ok (decoded bytes.now)) ≡ true }
    ensures { result.now ≡ rest_at tag bytes.now }
{
    if knows(tag) {
        let (_, after) = bytes.split_at(128);
        after
    } else {
        bytes
    }
}

#[tactic(auto, using(std::proofs::lemmas::Grind::common_steps, crate::proofs::Fitting::reading_parts))]
fn read_parts(alloc: Global, tags: &[u8], bytes: &[u8]) -> Result<Seq<Part>, AllocError>
    requires { are_parts tags.now bytes.now ≡ true }
    ensures { IfOk result (λ parts. parts ≡ parts_at tags.now bytes.now) }
{
    let mut parts = Vec::new(alloc);
    let mut rest = bytes;
    for tag in tags {
        parts.push(read_part(*tag, rest))?;
        rest = rest_at(*tag, rest);
    }
    Ok(Seq::from_vec(parts))
}

#[tactic(auto, unfolding(crate::specs::Reading::body_at))]
fn read_body(alloc: Global, body: &[u8]) -> Result<DvcBody, AllocError>
    requires long { 10 + number w16 8 body.now ≤ length body.now }
    requires parts { are_parts (take (number w16 8 body.now) (drop 10 body.now)) (drop (10 + number w16 8 body.now) body.now) ≡ true }
    ensures { IfOk result (λ read. read ≡ body_at body.now) }
{
    let count = u16_at(body, 8) as usize;
    let (front, bytes) = body.split_at(10 + count);
    let (_, tags) = front.split_at(10);
    Ok(DvcBody {
        first: u64_at(body, 0),
        parts: read_parts(alloc, tags, bytes)?,
    })
}

#[tactic(auto, using(std::proofs::lemmas::Grind::common_steps, crate::proofs::Fitting::asked_form, crate::proofs::Fitting::asked_names))]
fn read_request(
    alloc: Global,
    h: &Header,
    name: Sum,
    body: &[u8],
) -> Result<Option<Frame>, AllocError>
    requires asked { is_asked h.now.version h.now.request body.now ≡ true }
    requires header { IsAsking h.now body.now }
    requires name { name ≡ header_name h.now }
    ensures { IfOk result (λ read. read ≡ frame_for Command.Request h.now body.now) }
{
    match Operation::decode_body(alloc, body, h.version)? {
        Some(operation) => {
            let fields = RequestFields {
                version: h.version,
                cluster: h.cluster,
                client: h.client,
                request: h.request,
                operation,
            };
            let names = RequestNames {
                body: h.body,
                header: name,
            };
            Ok(Some(Frame::Request(Request::named(fields, names))))
        }
        None => Ok(None),
    }
}

#[tactic(auto, using(std::proofs::lemmas::Grind::common_steps, crate::proofs::Fitting::reply_form))]
fn read_reply(alloc: Global, h: &Header, body: &[u8]) -> Result<Option<Frame>, AllocError>
    requires view { h.now.view < 2 ^ 32 - 1 }
    requires op { h.now.op ≤ 2 ^ 62 }
    ensures { IfOk result (λ read. read ≡ frame_for Command.Reply h.now body.now) }
{
    match read_kind(alloc, h.version, h.kind, h.op, body)? {
        Some(kind) => Ok(Some(Frame::Reply(Reply::new(ReplyFields {
            version: h.version,
            cluster: h.cluster,
            replica: h.replica,
            view: h.view,
            client: h.client,
            request: h.request,
            request_name: h.request_name,
            kind,
        })))),
        None => Ok(None),
    }
}

fn read_prepare(alloc: Global, h: &Header, body: &[u8]) -> Result<Option<Frame>, AllocError>
    requires { is_some (entry_of body.now) ≡ true }
    ensures { IfOk result (λ read. read ≡ frame_for Command.Prepare h.now body.now) }
{
    Ok(Some(Frame::Prepare(Prepare {
        version: h.version,
        replica: h.replica,
        view: h.view,
        commit: h.commit,
        entry: Entry::from_bytes(alloc, body)?,
    })))
}

fn read_give_prepare(alloc: Global, h: &Header, body: &[u8]) -> Result<Option<Frame>, AllocError>
    requires { is_some (entry_of body.now) ≡ true }
    ensures { IfOk result (λ read. read ≡ frame_for Command.GivePrepare h.now body.now) }
{
    Ok(Some(Frame::GivePrepare(GivePrepare {
        version: h.version,
        replica: h.replica,
        entry: Entry::from_bytes(alloc, body)?,
    })))
}

fn read_do_view_change(alloc: Global, h: &Header, body: &[u8]) -> Result<Option<Frame>, AllocError>
    requires log_view { h.now.aux < 2 ^ 32 }
    requires long { 10 + number w16 8 body.now ≤ length body.now }
    requires parts { are_parts (take (number w16 8 body.now) (drop 10 body.now)) (drop (10 + number w16 8 body.now) body.now) ≡ true }
    ensures { IfOk result (λ read. read ≡ frame_for Command.DoViewChange h.now body.now) }
{
    Ok(Some(Frame::DoViewChange(DoViewChange {
        version: h.version,
        cluster: h.cluster,
        replica: h.replica,
        view: h.view,
        statement: Statement {
            log_view: h.aux as u32,
            commit: h.commit,
            head: h.op,
            body: read_body(alloc, body)?,
        },
    })))
}

fn read_start_view(alloc: Global, h: &Header, body: &[u8]) -> Result<Option<Frame>, AllocError>
    requires lo { h.now.aux ≤ h.now.op }
    requires headers { are_headers (h.now.op - h.now.aux) body.now ≡ true }
    ensures { IfOk result (λ read. read ≡ frame_for Command.StartView h.now body.now) }
{
    Ok(Some(Frame::StartView(StartView {
        version: h.version,
        cluster: h.cluster,
        replica: h.replica,
        view: h.view,
        head: h.op,
        commit: h.commit,
        body: SvBody {
            lo: h.aux,
            headers: read_headers(alloc, h.op - h.aux, body)?,
        },
    })))
}

fn read_give_block(alloc: Global, h: &Header, body: &[u8]) -> Result<Option<Frame>, AllocError>
    ensures { IfOk result (λ read. read ≡ frame_for Command.GiveBlock h.now body.now) }
{
    Ok(Some(Frame::GiveBlock(GiveBlock {
        version: h.version,
        cluster: h.cluster,
        replica: h.replica,
        address: h.aux,
        block: ByteList::from_vec(Vec::from_slice(alloc, body)?),
    })))
}

fn read_sync_view(alloc: Global, h: &Header, body: &[u8]) -> Result<Option<Frame>, AllocError>
    requires long { 32 ≤ length body.now }
    requires lo { h.now.aux ≤ h.now.op }
    requires headers { are_headers (h.now.op - h.now.aux) (drop 32 body.now) ≡ true }
    ensures { IfOk result (λ read. read ≡ frame_for Command.SyncView h.now body.now) }
{
    let (_, headers) = body.split_at(32);
    Ok(Some(Frame::SyncView(SyncView {
        version: h.version,
        cluster: h.cluster,
        replica: h.replica,
        view: h.view,
        head: h.op,
        commit: h.commit,
        checkpoint: u64_at(body, 0),
        root_address: u64_at(body, 8),
        root_name: sum_at(body, 16),
        body: SvBody {
            lo: h.aux,
            headers: read_headers(alloc, h.op - h.aux, headers)?,
        },
    })))
}

fn read_prepare_ok(h: &Header) -> PrepareOk
    requires { h.now.aux < 2 ^ 32 }
    ensures { bare_for Command.PrepareOk h.now ≡ Some (Frame.PrepareOk result) }
{
    PrepareOk {
        version: h.version,
        cluster: h.cluster,
        replica: h.replica,
        view: h.view,
        op: h.op,
        name: h.parent,
        made: h.aux as u32,
    }
}

fn read_get_prepare(h: &Header) -> GetPrepare
    requires { h.now.aux < 2 ^ 32 }
    ensures { bare_for Command.GetPrepare h.now ≡ Some (Frame.GetPrepare result) }
{
    GetPrepare {
        version: h.version,
        cluster: h.cluster,
        replica: h.replica,
        op: h.op,
        name: h.parent,
        made: h.aux as u32,
    }
}

// A message without a body.
fn read_bare(h: &Header) -> Option<Frame>
    requires { needs_view h.now.command ≡ true → h.now.aux < 2 ^ 32 }
    ensures { result ≡ bare_for h.now.command h.now }
{
    match h.command {
        Command::PrepareOk => Some(Frame::PrepareOk(read_prepare_ok(h))),
        Command::Commit => Some(Frame::Commit(Commit {
            version: h.version,
            cluster: h.cluster,
            replica: h.replica,
            view: h.view,
            head: h.op,
            commit: h.commit,
        })),
        Command::StartViewChange => Some(Frame::StartViewChange(StartViewChange {
            version: h.version,
            cluster: h.cluster,
            replica: h.replica,
            view: h.view,
        })),
        Command::GetView => Some(Frame::GetView(GetView {
            version: h.version,
            cluster: h.cluster,
            replica: h.replica,
            view: h.view,
        })),
        Command::GetPrepare => Some(Frame::GetPrepare(read_get_prepare(h))),
        Command::GetBlock => Some(Frame::GetBlock(GetBlock {
            version: h.version,
            cluster: h.cluster,
            replica: h.replica,
            address: h.aux,
            name: h.parent,
        })),
        Command::GetSync => Some(Frame::GetSync(GetSync {
            version: h.version,
            cluster: h.cluster,
            replica: h.replica,
            view: h.view,
        })),
        _ => None,
    }
}

// What a header of this name and the bytes after it say, `None` where its command is no message's.
#[tactic(auto, using(crate::proofs::Fitting::readable))]
pub(crate) fn read_frame(
    alloc: Global,
    h: &Header,
    name: Sum,
    body: &[u8],
) -> Result<Option<Frame>, AllocError>
    requires numbers { numbers_fit h.now ≡ true }
    requires body { body_fits h.now.command h.now body.now ≡ true }
    requires asking { h.now.command ≡ Command.Request → IsAsking h.now body.now }
    requires name { name ≡ header_name h.now }
    ensures { IfOk result (λ read. read ≡ frame_for h.now.command h.now body.now) }
{
    match h.command {
        Command::Request => read_request(alloc, h, name, body),
        Command::Reply => read_reply(alloc, h, body),
        Command::Prepare => read_prepare(alloc, h, body),
        Command::GivePrepare => read_give_prepare(alloc, h, body),
        Command::DoViewChange => read_do_view_change(alloc, h, body),
        Command::StartView => read_start_view(alloc, h, body),
        Command::GiveBlock => read_give_block(alloc, h, body),
        Command::SyncView => read_sync_view(alloc, h, body),
        _ => Ok(read_bare(h)),
    }
}
