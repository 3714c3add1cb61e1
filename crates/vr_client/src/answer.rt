//! What a client makes of what it hears.
ghost use Rattle.std.specs.Prelude.{◌≡◌, ◌<◌};
ghost use Rattle.vr_client.specs.Heeding.{heed, heed_kind, heed_reply, MovesWithin};
ghost use Rattle.vr_client.specs.declared.answer.AskFault.TheVariants as fault;

use std::alloc::AllocError;
use vr_base::Sum;
use vr_edge::LinkFailed;
use vr_mail::{Letter, ReceiveFault};
use vr_msg::{Answered, Frame, Reply, ReplyKind};

/// The answer to a request.
#[derive(Drop, PartialEq, Eq)]
pub enum Answer {
    /// It was executed.
    Outcome(Answered),
    /// A later request of this client was executed.
    Old,
    /// An earlier request of this client is missing.
    Gap,
    /// The client has no session.
    Evicted,
}

/// Why an ask has no answer.
#[derive(Clone, Copy, Debug, PartialEq, Eq)]
pub enum AskFault {
    /// All turns ended without one.
    NoAnswer,
    /// A receive failed.
    Link,
    NoMemory,
}

impl From<AllocError> for AskFault {
    ghost from_gives = { λ _ e. e ≡ fault.NoMemory };

    fn from(_error: AllocError) -> AskFault {
        AskFault::NoMemory
    }
}

impl From<ReceiveFault> for AskFault {
    ghost use Rattle.vr_client.specs.Heeding.{fault_of};

    ghost from_gives = { λ r e. e ≡ fault_of r };

    fn from(failed: ReceiveFault) -> AskFault {
        match failed {
            ReceiveFault::Link => AskFault::Link,
            ReceiveFault::NoMemory => AskFault::NoMemory,
        }
    }
}

/// What a client makes of a turn.
#[derive(Drop, PartialEq, Eq)]
pub enum Heed {
    /// Nothing.
    Ignored,
    /// It asks this member from now on.
    Moved(u32),
    Answered(Answer),
}

/// What it makes of a reply to its request, in a group of `n`: an outcome, `Old`, `Gap` and `Evicted` are its answer, and `Busy`
/// is ignored. A redirect moves it to the primary of this view, `view` modulo `n`.
fn heed_kind(n: u8, view: u32, kind: ReplyKind) -> Heed
    requires { 0 < n }
    ensures { result ≡ heed_kind n view kind }
{
    match kind {
        ReplyKind::Outcome(answered) => Heed::Answered(Answer::Outcome(answered)),
        ReplyKind::Old => Heed::Answered(Answer::Old),
        ReplyKind::Gap => Heed::Answered(Answer::Gap),
        ReplyKind::Evicted => Heed::Answered(Answer::Evicted),
        ReplyKind::Busy => Heed::Ignored,
        ReplyKind::Redirect => Heed::Moved(view % u32::from(n)),
    }
}

/// A reply to a request of another name is ignored. Of one to this request an outcome, `Old`, `Gap` or `Evicted` is the answer,
/// and busy is ignored. A redirect moves the client to the primary of the reply's view, the view modulo `n`.
fn heed_reply(n: u8, name: &Sum, reply: Reply) -> Heed
    requires { 0 < n }
    ensures { result ≡ heed_reply n name.now reply }
{
    let fields = reply.into_fields();
    if fields.request_name == *name {
        heed_kind(n, fields.view, fields.kind)
    } else {
        Heed::Ignored
    }
}

/// Heeds only a reply to the request of this name. An outcome, `Old`, `Gap` or `Evicted` is the answer, busy is ignored, and a
/// redirect moves the client to the primary of its view, the view modulo `n`. Nothing, any other message and any other reply are
/// ignored. A port that it moves to is below `n`.
pub fn heed_letter(n: u8, name: &Sum, letter: Option<Letter>) -> Heed
    requires { 0 < n }
    ensures value { result ≡ heed n name.now letter }
    ensures port { MovesWithin n result }
{
    let Some(letter) = letter else {
        return Heed::Ignored;
    };
    match letter.message.into_frame() {
        Frame::Reply(reply) => heed_reply(n, name, reply),
        other => {
            drop(other);
            Heed::Ignored
        }
    }
}
