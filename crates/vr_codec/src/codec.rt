//! The bytes of messages, both ways.
ghost use Rattle.std.specs.Prelude.{◌≡◌, ◌≢◌, ◌≤◌, ◌+◌, ◌==◌, List, ℕ, ◌++◌, ◌⊎◌, Ok, Err, IfOk, IfErr, OnOk, OnErr, MatchOption, length, take, drop};
ghost use Rattle.vr_base.specs.Bytes.{KeepsFront};
ghost use Rattle.vr_codec.specs.declared.fault.MsgFault.{MsgFault};
ghost use Rattle.vr_msg.specs.declared.frame.Frame.{Frame};
ghost use Rattle.vr_codec.specs.Deciding.{IsFault, Reads};
ghost use Rattle.vr_codec.specs.Shapes.{inspected};
ghost use Rattle.vr_header.specs.Spelling.{IsHeader};
ghost use Rattle.vr_msg.specs.Forms.{IsFrame};
ghost use Rattle.vr_msg.specs.Spelling.{IsBodyValue, Spells, body_bytes, frame_header, spelling, version_of};

use crate::MsgFault;
use crate::head::{command_for, header_before, with_fields};
use crate::read::read_frame;
use crate::shape::inspect;
use crate::write::write_body;
use std::alloc::{AllocError, Global};
use vr_base::{Version, put, sum_at};
use vr_header::Header;
use vr_msg::{Frame, Message};

/// The first fault of the bytes, `None` exactly where they spell a message. It takes no memory.
pub fn judge(bytes: &[u8]) -> Option<MsgFault>
    ensures { MatchOption result ((m : Frame) × Spells m bytes.now) (IsFault bytes.now) }
{
    match inspect(bytes) {
        Ok(_) => None,
        Err(fault) => Some(fault),
    }
}

/// Where the header of a message tells its version.
const VERSION_PLACE: usize = 110;

/// Whether the bytes tell this version, as each message of it does. It takes no memory, and makes no digest.
pub fn tells_version(bytes: &[u8], version: Version) -> bool
    ensures { (m : Frame) → Spells m bytes.now → result ≡ (version_of m == version) }
{
    match bytes.get(VERSION_PLACE) {
        Some(told) => *told == version.get(),
        None => false,
    }
}

/// The message that the bytes spell, or their first fault.
pub fn decode(alloc: Global, bytes: &[u8]) -> Result<Message, MsgFault>
    ensures found { IfOk result (λ m. Spells m bytes.now) }
    ensures fault { IfErr result (λ f. f ≢ MsgFault.NoMemory → IsFault bytes.now f) }
    ensures only { (m : Frame) → Spells m bytes.now → (result ≡ Ok m) ⊎ (result ≡ Err MsgFault.NoMemory) }

    // Only a message can want memory.
    ensures memory { result ≡ Err MsgFault.NoMemory → (m : Frame) × Spells m bytes.now }

    // No other message's spelling begins the bytes.
    ensures alone { IfOk result (λ m. (other : Frame) (front rest : List ℕ) → Spells other front → front ++ rest ≡ bytes.now → other ≡ m) }
{
    match inspect(bytes) {
        Ok(header) => read_message(alloc, &header, bytes),
        Err(fault) => Err(fault),
    }
}

// The message of bytes that passed.
fn read_message(alloc: Global, header: &Header, bytes: &[u8]) -> Result<Message, MsgFault>
    requires { inspected bytes.now ≡ Ok header.now }
    ensures { Reads bytes.now result }
{
    let (_, body) = bytes.split_at(128);
    match read_frame(alloc, header, sum_at(bytes, 0), body) {
        Ok(Some(frame)) => Ok(Message::new(frame)),
        Ok(None) => Err(MsgFault::BodyShape),
        Err(_) => Err(MsgFault::NoMemory),
    }
}

/// Adds the one spelling of a message at the end, of at most 20,480 bytes. An `Err` may have added some
/// bytes after what was there.
#[tactic(auto, using(std::proofs::lemmas::Grind::common_steps, crate::proofs::Written::behind_zeros, vr_base::proofs::Writing::kept_before))]
pub fn encode(message: &Message, to: &mut Vec<u8>) -> Result<(), AllocError>
    ensures bytes { OnOk result (to.new.items ≡ to.old.items ++ spelling message.now) }
    ensures front { OnErr result (KeepsFront to.old.items to.new.items) }
    ensures spelled { OnOk result (Spells message.now (spelling message.now)) }
{
    let frame = message.frame();
    let start = to.len();
    to.extend_from_slice(&[0; 128])?;
    write_body(frame, to)?;
    put_header(frame, start, to.as_mut_slice());
    Ok(())
}

// Writes the header of a message in front of its body, which ends the bytes.
#[tactic(auto, using(std::proofs::lemmas::Grind::common_steps, vr_msg::proofs::Short::body_short))]
fn put_header(frame: &Frame, start: usize, bytes: &mut [u8])
    requires form { IsFrame frame.now }
    requires values { IsBodyValue frame.now }
    requires room { start + 128 ≤ length bytes.old }
    requires body { drop (start + 128) bytes.old ≡ body_bytes frame.now }
    ensures whole { bytes.new ≡ take start bytes.old ++ spelling frame.now }
    ensures header { IsHeader (frame_header frame.now) }
{
    let (_, body) = bytes.split_at(start + 128);
    let bare = header_before(frame.version(), body, command_for(frame));
    let header = with_fields(frame, bare);
    let head = vr_header::encode(&header);
    put(bytes, start, &head);
}
