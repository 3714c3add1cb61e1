//! What a program says of its end.
ghost use Rattle.std.specs.Prelude.{◌≡◌, IfOk, MatchOption, string_bytes, true};
ghost use Rattle.vr_base.specs.Texts.{code_of};
ghost use Rattle.vr_top.specs.Telling.{Tells, line_of, takes_memory};

use std::alloc::{AllocError, Global};
use vr_base::{Status, code, status_line};
use vr_edge::{Sink, write_whole};

/// The line of a status, with its LF; the empty text of `Done`, which has none. `None` only for `Refused` and `OtherMember`, whose lines name a
/// number or members.
fn fixed_line(status: &Status) -> Option<&'static str>
    ensures { MatchOption result (takes_memory status.now ≡ true) (λ line. line.now ≡ line_of status.now) }
{
    match status {
        Status::Done => Some(""),
        Status::Usage => Some("usage\n"),
        Status::Refused(_) => None,
        Status::SessionLost => Some("session lost\n"),
        Status::ReadFault => Some("read fault\n"),
        Status::WriteFault => Some("write fault\n"),
        Status::DiskFault => Some("disk fault\n"),
        Status::LinkFault => Some("link fault\n"),
        Status::SuperLost => Some("superblock lost\n"),
        Status::OtherMember(_, _) => None,
        Status::NoMemory => Some("no memory\n"),
        Status::Occupied => Some("occupied\n"),
        Status::NoAnswer => Some("no answer\n"),
        Status::SpawnFault => Some("spawn fault\n"),
    }
}

/// The text of a status and an LF; nothing for `Done`, which has no text.
fn line_for(alloc: Global, status: &Status) -> Result<String, AllocError>
    ensures { IfOk result (λ line. string_bytes line ≡ line_of status.now) }
{
    let mut line = status_line(alloc, status)?;
    if !line.is_empty() {
        line.push('\n')?;
    }
    Ok(line)
}

/// Writes the line of a status: whole where no write fails, and else a front of it; nothing for `Done`, which has none. Only the lines of `Refused`
/// and `OtherMember` take memory: where that is short, the sink may be left unchanged instead.
#[tactic(auto, using(crate::proofs::Lines::no_front, crate::proofs::Lines::front_by, crate::proofs::Lines::whole_by))]
fn tell<K: Sink>(alloc: Global, status: &Status, errors: &mut K)
    ensures { Tells K.Sink status.now errors.old errors.new }
{
    if let Some(line) = fixed_line(status) {
        let _ = write_whole(errors, line.as_bytes());
        return;
    }
    let Ok(line) = line_for(alloc, status) else {
        return;
    };
    let _ = write_whole(errors, line.as_bytes());
}

/// Writes the line of a status, and gives its code, whatever became of the line.
pub fn finish<K: Sink>(alloc: Global, status: &Status, errors: &mut K) -> u8
    ensures code { result ≡ code_of status.now }

    // The line goes out, or a front of it where a write fails. Where memory is short nothing does, of the two that take memory for their line, and each other one is told still.
    ensures told { Tells K.Sink status.now errors.old errors.new }
{
    tell(alloc, status, errors);
    code(status)
}
