//! What a message answers.
ghost use Rattle.std.specs.Prelude.{◌≡◌, ◌≤◌, is_some, length};
ghost use Rattle.std.specs.Int.{w64};
ghost use Rattle.vr_base.specs.Bytes.{number};
ghost use Rattle.vr_io_policy.specs.Topics.{is_log, is_named, is_named_answer, is_state, mark_of, same_topic, topic_by, topic_of};

use crate::guest::HEADER;
use vr_base::{Sum, sum_at, u64_at};

/// Where a header has its command.
pub(crate) const COMMAND_AT: usize = 108;

/// The commands of answers: that these are the numbers of `vr_header` is proved.
const REPLY: u8 = 5;

const START_VIEW: u8 = 11;

const GIVE_PREPARE: u8 = 14;

const GIVE_BLOCK: u8 = 16;

const SYNC_VIEW: u8 = 19;

/// What an answer is about: a second one that is about the same within a short time may be lost.
#[derive(Clone, Copy, Debug)]
pub enum Topic {
    /// The log of the sender's view, as it is now.
    Log,
    /// The sender's checkpoint, as it is now.
    State,
    /// The very message of this name.
    Named(Sum),
}

impl Topic {
    fn is_log(self) -> bool
        ensures { result ≡ is_log self }
    {
        matches!(self, Topic::Log)
    }

    fn is_state(self) -> bool
        ensures { result ≡ is_state self }
    {
        matches!(self, Topic::State)
    }

    // Whether it is the very message of this name.
    fn is_named(self, name: Sum) -> bool
        ensures { result ≡ is_named name self }
    {
        match self {
            Topic::Named(own) => name == own,
            _ => false,
        }
    }

    /// Whether it is the same.
    pub fn is_same(self, other: Topic) -> bool
        ensures { result ≡ same_topic self other }
    {
        match self {
            Topic::Log => other.is_log(),
            Topic::State => other.is_state(),
            Topic::Named(name) => other.is_named(name),
        }
    }

    /// A number that is the same for the same topic, and hardly for two others.
    pub fn mark(self) -> u64
        ensures { result ≡ mark_of self }
    {
        match self {
            Topic::Log => 0,
            Topic::State => 1,
            Topic::Named(name) => front(&name.0),
        }
    }
}

// The number in the first eight bytes of a name.
fn front(name: &[u8; 16]) -> u64
    ensures { result ≡ number w64 0 name.now }
{
    u64_at(name, 0)
}

// Whether only the same message, bit by bit, is a repetition of it.
fn is_named_answer(command: u8) -> bool
    ensures { result ≡ is_named_answer command }
{
    command == REPLY || command == GIVE_PREPARE || command == GIVE_BLOCK
}

// What a message of this command answers.
#[tactic(auto, unfolding(crate::specs::Topics::topic_by))]
fn topic_by(command: u8, bytes: &[u8]) -> Option<Topic>
    requires { 128 ≤ length bytes.now }
    ensures { result ≡ topic_by command bytes.now }
{
    if command == START_VIEW {
        return Some(Topic::Log);
    }
    if command == SYNC_VIEW {
        return Some(Topic::State);
    }
    if is_named_answer(command) {
        return Some(Topic::Named(sum_at(bytes, 0)));
    }
    None
}

/// What a message answers, by its bytes; `None` where it isn't an answer.
#[tactic(auto, using(crate::proofs::Commands::by_command), unfolding(crate::specs::Topics::topic_of))]
pub(crate) fn topic_of(bytes: &[u8]) -> Option<Topic>
    ensures { result ≡ topic_of bytes.now }
{
    if bytes.len() < HEADER {
        return None;
    }
    topic_by(bytes[COMMAND_AT], bytes)
}

/// Whether a message is an answer.
pub fn is_answer(bytes: &[u8]) -> bool
    ensures { result ≡ is_some (topic_of bytes.now) }
{
    topic_of(bytes).is_some()
}
