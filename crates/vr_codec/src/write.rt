//! The bytes after the header of a message.
ghost use Rattle.std.specs.Prelude.{◌≡◌, ◌≤◌, ◌++◌, ◌∷◌, [], OnOk, OnErr, length, map};
ghost use Rattle.vr_base.specs.Bytes.{KeepsFront, bytes16, bytes64};
ghost use Rattle.vr_msg.specs.Forms.{IsFrame};
ghost use Rattle.vr_msg.specs.Spelling.{AreHeaders, IsBodyValue, body_bytes, headers_bytes, kind_bytes, known, parts_bytes, sync_bytes, tag, IsName};

use std::alloc::AllocError;
use vr_base::Sum;
use vr_header::{Header, Part, encode};
use vr_msg::{DvcBody, Frame, ReplyKind, SyncView};

fn write_kind(kind: &ReplyKind, to: &mut Vec<u8>) -> Result<(), AllocError>
    ensures bytes { OnOk result (to.new.items ≡ to.old.items ++ kind_bytes kind.now) }
    ensures front { OnErr result (KeepsFront to.old.items to.new.items) }
{
    match kind {
        ReplyKind::Outcome(answered) => answered.outcome.write_body(to),
        ReplyKind::Old
        | ReplyKind::Gap
        | ReplyKind::Evicted
        | ReplyKind::Busy
        | ReplyKind::Redirect => Ok(()),
    }
}

#[tactic(auto, using(std::proofs::lemmas::Grind::common_steps, crate::proofs::Written::writing_headers, crate::proofs::Written::kept_more, crate::proofs::Written::kept_through))]
fn write_headers(headers: &[Header], to: &mut Vec<u8>) -> Result<(), AllocError>
    ensures bytes { OnOk result (to.new.items ≡ to.old.items ++ headers_bytes headers.now) }
    ensures front { OnErr result (KeepsFront to.old.items to.new.items) }
    ensures values { OnOk result (AreHeaders headers.now) }
{
    for header in headers {
        to.extend_from_slice(&encode(header))?;
    }
    Ok(())
}

fn tag(part: &Part) -> u8
    ensures { result ≡ tag part.now }
{
    match part {
        Part::Nothing => 0,
        Part::Here(_) => 1,
        Part::Lost(_) => 2,
        Part::Wanted(_) => 3,
        Part::Unknown => 4,
    }
}

#[tactic(auto, using(std::proofs::lemmas::Grind::common_steps, crate::proofs::Written::writing_tags, crate::proofs::Written::kept_more, crate::proofs::Written::kept_through))]
fn write_tags(parts: &[Part], to: &mut Vec<u8>) -> Result<(), AllocError>
    ensures bytes { OnOk result (to.new.items ≡ to.old.items ++ map tag parts.now) }
    ensures front { OnErr result (KeepsFront to.old.items to.new.items) }
{
    for part in parts {
        to.push(tag(part))?;
    }
    Ok(())
}

// The header of one Part, if it knows one.
fn write_part(part: &Part, to: &mut Vec<u8>) -> Result<(), AllocError>
    ensures bytes { OnOk result (to.new.items ≡ to.old.items ++ headers_bytes (known (part.now ∷ []))) }
    ensures front { OnErr result (KeepsFront to.old.items to.new.items) }
    ensures values { OnOk result (AreHeaders (known (part.now ∷ []))) }
{
    match part {
        Part::Here(header) => write_headers(&[*header], to),
        Part::Lost(header) => write_headers(&[*header], to),
        Part::Wanted(header) => write_headers(&[*header], to),
        Part::Unknown => Ok(()),
        Part::Nothing => Ok(()),
    }
}

#[tactic(auto, using(std::proofs::lemmas::Grind::common_steps, crate::proofs::Written::writing_known, crate::proofs::Written::kept_more, crate::proofs::Written::kept_through))]
fn write_known(parts: &[Part], to: &mut Vec<u8>) -> Result<(), AllocError>
    ensures bytes { OnOk result (to.new.items ≡ to.old.items ++ headers_bytes (known parts.now)) }
    ensures front { OnErr result (KeepsFront to.old.items to.new.items) }
    ensures values { OnOk result (AreHeaders (known parts.now)) }
{
    for part in parts {
        write_part(part, to)?;
    }
    Ok(())
}

#[tactic(auto, using(std::proofs::lemmas::Grind::common_steps, vr_base::proofs::Writing::kept_before), unfolding(vr_base::specs::Bytes::bytes16, vr_base::specs::Bytes::bytes64))]
fn write_front(first: u64, count: u16, to: &mut Vec<u8>) -> Result<(), AllocError>
    ensures bytes { OnOk result (to.new.items ≡ to.old.items ++ (bytes64 first ++ bytes16 count)) }
    ensures front { OnErr result (KeepsFront to.old.items to.new.items) }
{
    to.extend_from_slice(&first.to_be_bytes())?;
    to.extend_from_slice(&count.to_be_bytes())?;
    Ok(())
}

#[tactic(auto, using(std::proofs::lemmas::Grind::common_steps, vr_base::proofs::Writing::kept_before, crate::proofs::Written::four_parts))]
fn write_parts(body: &DvcBody, to: &mut Vec<u8>) -> Result<(), AllocError>
    requires { length body.now.parts ≤ 128 }
    ensures bytes { OnOk result (to.new.items ≡ to.old.items ++ parts_bytes body.now) }
    ensures front { OnErr result (KeepsFront to.old.items to.new.items) }
    ensures values { OnOk result (AreHeaders (known body.now.parts)) }
{
    let parts = body.parts.as_slice();
    write_front(body.first, parts.len() as u16, to)?;
    write_tags(parts, to)?;
    write_known(parts, to)?;
    Ok(())
}

#[tactic(auto, unfolding(vr_base::specs::Bytes::bytes64))]
fn write_number(number: u64, to: &mut Vec<u8>) -> Result<(), AllocError>
    ensures bytes { OnOk result (to.new.items ≡ to.old.items ++ bytes64 number) }
    ensures front { OnErr result (KeepsFront to.old.items to.new.items) }
{
    to.extend_from_slice(&number.to_be_bytes())?;
    Ok(())
}

// A checkpoint's number, and the address of its root.
#[tactic(auto, using(std::proofs::lemmas::Grind::common_steps, vr_base::proofs::Writing::kept_before))]
fn write_place(checkpoint: u64, address: u64, to: &mut Vec<u8>) -> Result<(), AllocError>
    ensures bytes { OnOk result (to.new.items ≡ to.old.items ++ (bytes64 checkpoint ++ bytes64 address)) }
    ensures front { OnErr result (KeepsFront to.old.items to.new.items) }
{
    write_number(checkpoint, to)?;
    write_number(address, to)?;
    Ok(())
}

#[tactic(auto, using(std::proofs::lemmas::Grind::common_steps, vr_base::proofs::Writing::kept_before))]
fn write_name(name: Sum, to: &mut Vec<u8>) -> Result<(), AllocError>
    ensures bytes { OnOk result (to.new.items ≡ to.old.items ++ name.0) }
    ensures front { OnErr result (KeepsFront to.old.items to.new.items) }
    ensures values { IsName name }
{
    to.extend_from_slice(&name.0)?;
    Ok(())
}

#[tactic(auto, using(std::proofs::lemmas::Grind::common_steps, vr_base::proofs::Writing::kept_before))]
fn write_checkpoint(v: &SyncView, to: &mut Vec<u8>) -> Result<(), AllocError>
    ensures bytes { OnOk result (to.new.items ≡ to.old.items ++ (bytes64 v.now.checkpoint ++ (bytes64 v.now.root_address ++ v.now.root_name.0))) }
    ensures front { OnErr result (KeepsFront to.old.items to.new.items) }
    ensures values { OnOk result (IsName v.now.root_name) }
{
    write_place(v.checkpoint, v.root_address, to)?;
    write_name(v.root_name, to)?;
    Ok(())
}

#[tactic(auto, using(std::proofs::lemmas::Grind::common_steps, vr_base::proofs::Writing::kept_before))]
fn write_sync(v: &SyncView, to: &mut Vec<u8>) -> Result<(), AllocError>
    ensures bytes { OnOk result (to.new.items ≡ to.old.items ++ sync_bytes v.now) }
    ensures front { OnErr result (KeepsFront to.old.items to.new.items) }
    ensures values { OnOk result (IsName v.now.root_name × AreHeaders v.now.body.headers) }
{
    write_checkpoint(v, to)?;
    write_headers(v.body.headers.as_slice(), to)?;
    Ok(())
}

/// Adds the bytes after the header of a message at the end.
pub(crate) fn write_body(frame: &Frame, to: &mut Vec<u8>) -> Result<(), AllocError>
    requires { IsFrame frame.now }
    ensures bytes { OnOk result (to.new.items ≡ to.old.items ++ body_bytes frame.now) }
    ensures front { OnErr result (KeepsFront to.old.items to.new.items) }
    ensures values { OnOk result (IsBodyValue frame.now) }
{
    match frame {
        Frame::Request(request) => request.fields().operation.write_body(to),
        Frame::Reply(reply) => write_kind(&reply.fields().kind, to),
        Frame::Prepare(prepare) => prepare.entry.write(to),
        Frame::PrepareOk(_) => Ok(()),
        Frame::Commit(_) => Ok(()),
        Frame::StartViewChange(_) => Ok(()),
        Frame::DoViewChange(change) => write_parts(&change.statement.body, to),
        Frame::StartView(start) => write_headers(start.body.headers.as_slice(), to),
        Frame::GetView(_) => Ok(()),
        Frame::GetPrepare(_) => Ok(()),
        Frame::GivePrepare(give) => give.entry.write(to),
        Frame::GetBlock(_) => Ok(()),
        Frame::GiveBlock(give) => {
            to.extend_from_slice(give.block.as_slice())?;
            Ok(())
        }
        Frame::GetSync(_) => Ok(()),
        Frame::SyncView(sync) => write_sync(sync, to),
    }
}
