//! The lines of a source, asked one after the other.
ghost use Rattle.std.specs.Prelude.{◌≡◌, ◌≤◌, ◌<◌};
ghost use Rattle.cmd_client.specs.Acts.{AsksLines, HearsLine, TakesLine};
ghost use Rattle.cmd_client.specs.Run.{Judges};
ghost use Rattle.cmd_client.specs.Text.{longest};

use crate::asking::exchange;
use crate::text::read_line;
use std::alloc::Global;
use vr_base::{Status, Version};
use vr_client::ClientCore;
use vr_edge::{Link, Sink, Source};
use vr_header::Operation;
use vr_lines::{Found, Lines};

/// The most lines of a source.
const LIMIT: u32 = 1_000_000;

/// The most bytes of a line in front of a value: `put KEY ` with a key of 64 bytes.
const PUT_KEY: usize = 69;

// The longest line of the contracts is said by it.
const _: () = prove!(PUT_KEY == 69);

/// The most bytes of a line of this version, without its end: 69, and those of the longest value. It is at most that of version 2.
fn line_limit(version: Version) -> usize
    ensures value { result ≡ longest version }
    ensures most { result ≤ longest 2 }
{
    PUT_KEY + version.value_limit()
}

/// The operation that a line is in this version, where its number is at most `LIMIT`. `Refused` with that number where the line is none of `put`,
/// `get` and `del`, or its number is above `LIMIT`. `NoMemory` may come of any line, and no other `Err` comes.
fn judge(alloc: Global, number: u32, line: &[u8], version: Version) -> Result<Operation, Status>
    ensures { Judges version number line.now result }
{
    match read_line(alloc, line, version) {
        Ok(Some(operation)) if number <= LIMIT => Ok(operation),
        Ok(_) => Err(Status::Refused(number)),
        Err(_) => Err(Status::NoMemory),
    }
}

/// Reads the next line of the source, and gives the operation that it is in this version, where the number is at most `LIMIT`. `Refused` with that
/// number: it is no such operation, too long for this version, or one line too many. `Done`: the source is at its end, with no byte left. After
/// `NoMemory` the line was read. `ReadFault`: a read failed, and `lines` keeps what had come; by it alone the source counts one fault more.
#[tactic(auto, using(crate::proofs::Exchanges::heard, crate::proofs::Exchanges::judged_counts))]
fn next_operation<S: Source>(
    alloc: Global,
    lines: &mut Lines,
    source: &mut S,
    number: u32,
    version: Version,
) -> Result<Operation, Status>
    ensures { HearsLine S.Source version number lines.old lines.new source.old source.new result }
{
    match lines.read(source, line_limit(version)) {
        Ok(Found::Line) => judge(alloc, number, lines.line(), version),
        Ok(Found::TooLong) => Err(Status::Refused(number)),
        Ok(Found::End) => Err(Status::Done),
        Err(_) => Err(Status::ReadFault),
    }
}

/// Reads the line with this number, asks its operation with that number, and writes the answer's line: `Ok` where it is an outcome. After `Done`,
/// `Refused` and `ReadFault` nothing was asked or written; `NoMemory` may come before the ask, or in it. The other ends come of the ask: after
/// `SessionLost` the answer's line is written, after `WriteFault` or `NoMemory` a front of it at most. Source, link and sink count one fault more
/// where the `Err` names them, and else none; nothing is attached. After `Ok` the next number is one more, and the client keeps its version, group
/// and id.
#[tactic(auto, using(crate::proofs::Exchanges::taken, crate::proofs::Exchanges::exchange_counts, crate::proofs::Exchanges::heard_writes, crate::proofs::Exchanges::heard_links))]
fn take_line<S: Source, K: Sink, L: Link>(
    alloc: Global,
    core: &mut ClientCore,
    lines: &mut Lines,
    source: &mut S,
    link: &mut L,
    sink: &mut K,
    number: u32,
    turns: u64,
) -> Result<(), Status>
    requires first { 0 < number }
    requires number { core.old.number ≡ number }
    ensures { TakesLine S.Source K.Sink L.Link number turns core.old core.new lines.old lines.new source.old source.new link.old link.new sink.old sink.new result }
{
    match next_operation(alloc, lines, source, number, core.version()) {
        Ok(operation) => {
            let asked = exchange(alloc, core, link, sink, &operation, turns);
            drop(operation);
            asked
        }
        Err(status) => Err(status),
    }
}

/// Asks the lines of the source in order, from number 1 on; each one's outcome is written before the next line is read. `Done`: the source is at its
/// end. `Refused`: the line with that number isn't asked, being no operation of this version, too long, or above `LIMIT`. Else the read, the ask or
/// the write of one line ends it, and nothing of a later one is done; after `SessionLost` alone its answer is written whole. Source, link and sink
/// count one fault more where the status names them, and else none; nothing is attached.
#[tactic(auto, using(std::proofs::lemmas::Grind::common_steps, crate::proofs::Exchanges::midst_begins, crate::proofs::Exchanges::midst_more, crate::proofs::Exchanges::ends_at, crate::proofs::Exchanges::stops_later, crate::proofs::Exchanges::one_too_many, crate::proofs::Exchanges::heard_writes, crate::proofs::Exchanges::heard_links))]
pub fn ask_lines<S: Source, K: Sink, L: Link>(
    alloc: Global,
    core: &mut ClientCore,
    lines: &mut Lines,
    source: &mut S,
    link: &mut L,
    sink: &mut K,
    turns: u64,
) -> Status
    requires { core.old.number ≡ 1 }
    ensures { AsksLines S.Source K.Sink L.Link turns core.old core.new lines.old lines.new source.old source.new link.old link.new sink.old sink.new result }
{
    for done in 0..LIMIT {
        if let Err(status) = take_line(alloc, core, lines, source, link, sink, done + 1, turns) {
            return status;
        }
    }
    match next_operation(alloc, lines, source, LIMIT + 1, core.version()) {
        Ok(_) => Status::Refused(LIMIT + 1),
        Err(status) => status,
    }
}
