//! What stands at the front of bytes.
ghost use Rattle.std.specs.Prelude.{◌≡◌, ◌≤◌, ◌<◌, length, take, MatchOption};
ghost use Rattle.vr_codec.specs.Deciding.{IsFault};
ghost use Rattle.vr_stream.specs.Cutting.{IsMessage, IsSized, IsUnsized};
ghost use Rattle.vr_stream.specs.Looking.{Sees};

use vr_base::u32_at;
use vr_codec::{MsgFault, judge};
use vr_header::{HEADER_SIZE, MESSAGE_MOST, SIZE_AT, decode};

/// What stands at the front of bytes.
#[derive(Clone, Copy, Debug, PartialEq, Eq)]
pub(crate) enum Front {
    /// A message of so many bytes.
    Whole(usize),
    /// Less than a message.
    Short,
    /// What is no message.
    Broken(MsgFault),
}

/// Bytes of which at least a header has come, and not all that it speaks of.
#[tactic(auto, using(std::proofs::lemmas::Grind::common_steps, crate::proofs::Looked::is_short, crate::proofs::Looked::header_broken))]
fn look_at_header(bytes: &[u8]) -> Front
    requires { IsUnsized bytes.now }
    ensures { Sees bytes.now result }
{
    match decode(bytes) {
        Ok(_) => Front::Short,
        Err(fault) => Front::Broken(MsgFault::Header(fault)),
    }
}

/// Bytes that begin with as many as their header speaks of.
#[tactic(auto, using(std::proofs::lemmas::Grind::common_steps, crate::proofs::Looked::message_broken))]
fn look_at_whole(bytes: &[u8], size: usize) -> Front
    requires { IsSized bytes.now size }
    ensures { Sees bytes.now result }
{
    match judge(&bytes[..size]) {
        None => Front::Whole(size),
        Some(fault) => Front::Broken(fault),
    }
}

/// What stands at the front of these bytes.
pub(crate) fn look(bytes: &[u8]) -> Front
    ensures { Sees bytes.now result }
{
    if bytes.len() < HEADER_SIZE {
        return Front::Short;
    }
    let size = u32_at(bytes, SIZE_AT) as usize;
    if HEADER_SIZE <= size && size <= MESSAGE_MOST && size <= bytes.len() {
        look_at_whole(bytes, size)
    } else {
        look_at_header(bytes)
    }
}
