//! One ask, whose answer is written.
ghost use Rattle.std.specs.Prelude.{◌≡◌};
ghost use Rattle.cmd_client.specs.Acts.{Exchanged, PutsLine, WritesLine};
ghost use Rattle.cmd_client.specs.Asking.{KeepsSession, status_of};
ghost use Rattle.vr_client.specs.Acts.{MayAsk};

use crate::text::answer_text;
use std::alloc::Global;
use vr_base::Status;
use vr_client::{Answer, AskFault, ClientCore};
use vr_edge::{Link, Sink, write_whole};
use vr_header::Operation;

/// No answer in all turns ends as `NoAnswer`, a receive that failed as `LinkFault`, want of memory as `NoMemory`.
fn status_of(fault: AskFault) -> Status
    ensures { result ≡ status_of fault }
{
    match fault {
        AskFault::NoAnswer => Status::NoAnswer,
        AskFault::Link => Status::LinkFault,
        AskFault::NoMemory => Status::NoMemory,
    }
}

/// Writes the line of an answer whole, with its LF. After `WriteFault` the sink took a front of it, and counts one fault more; after `NoMemory` it
/// took a front, too, and counts none. No other `Err` comes.
#[tactic(auto, using(crate::proofs::Answers::front_none))]
fn write_answer<K: Sink>(alloc: Global, sink: &mut K, answer: &Answer) -> Result<(), Status>
    ensures { WritesLine K.Sink answer.now sink.old sink.new result }
{
    let Ok(text) = answer_text(alloc, answer) else {
        return Err(Status::NoMemory);
    };
    match write_whole(sink, text.as_slice()) {
        Ok(()) => Ok(()),
        Err(_) => Err(Status::WriteFault),
    }
}

/// `Ok` exactly for an outcome. `SessionLost` for `Old`, `Gap` and `Evicted`: after these the group knows the session no more.
fn keep_session(answer: &Answer) -> Result<(), Status>
    ensures { KeepsSession answer.now result }
{
    match answer {
        Answer::Outcome(_) => Ok(()),
        _ => Err(Status::SessionLost),
    }
}

/// Writes the line of an answer whole, with its LF: `Ok` where it is an outcome, and `SessionLost` where it is `Old`, `Gap` or `Evicted`. After
/// `WriteFault` or `NoMemory`, whatever the answer, the sink took a front of the line. The sink counts one fault more after `WriteFault`, and else
/// none; no other `Err` comes.
#[tactic(auto, using(crate::proofs::Answers::put_kept, crate::proofs::Answers::put_unwritten, crate::proofs::Answers::kept_counts))]
fn put_answer<K: Sink>(alloc: Global, sink: &mut K, answer: &Answer) -> Result<(), Status>
    ensures { PutsLine K.Sink answer.now sink.old sink.new result }
{
    match write_answer(alloc, sink, answer) {
        Ok(()) => keep_session(answer),
        Err(status) => Err(status),
    }
}

/// Asks with the client's next number, and then writes the line of the answer: `Ok` where it is an outcome. After `SessionLost` the line of another
/// answer was written whole; after `WriteFault` a front of a line, and after `NoMemory` at most one. After `NoAnswer` and `LinkFault`, a receive that
/// failed, nothing was written. In each case the number is used up, and the client keeps its version, group and id. Link and sink count one fault
/// more where the status names them, and else none; nothing is attached.
#[tactic(auto, using(crate::proofs::Answers::exchanged, crate::proofs::Answers::unanswered, crate::proofs::Answers::unanswered_counts, crate::proofs::Answers::put_links, crate::proofs::Answers::unanswered_links))]
pub fn exchange<K: Sink, L: Link>(
    alloc: Global,
    core: &mut ClientCore,
    link: &mut L,
    sink: &mut K,
    operation: &Operation,
    turns: u64,
) -> Result<(), Status>
    requires { MayAsk core.old operation.now }
    ensures { Exchanged K.Sink L.Link operation.now turns core.old core.new link.old link.new sink.old sink.new result }
{
    match core.ask(link, operation, turns) {
        Ok(answer) => {
            let put = put_answer(alloc, sink, &answer);
            drop(answer);
            put
        }
        Err(fault) => Err(status_of(fault)),
    }
}
