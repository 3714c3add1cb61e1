//! Replies to clients.
ghost use Rattle.std.specs.Prelude.{◌≡◌};
ghost use Rattle.vr_msg.specs.Asking.{IsReply};

use std::marker::Model;
use vr_base::{Sum, Version};
use vr_header::Outcome;

/// The outcome of a request, and the op that it was.
#[derive(Drop, PartialEq, Eq)]
pub struct Answered {
    pub op: u64,
    pub outcome: Outcome,
}

/// What is replied to a request.
#[derive(Drop, PartialEq, Eq)]
pub enum ReplyKind {
    /// It was executed.
    Outcome(Answered),
    /// A later request of this client was executed.
    Old,
    /// An earlier request of this client is missing.
    Gap,
    /// The client has no session.
    Evicted,
    /// It may be asked again later.
    Busy,
    /// The replica isn't the primary, or isn't yet; the reply's view says who is.
    Redirect,
}

/// What a reply says.
#[derive(Drop, PartialEq, Eq)]
pub struct ReplyFields {
    pub version: Version,
    /// The number of the group.
    pub cluster: u64,
    /// The number of the sender.
    pub replica: u8,
    pub view: u32,
    /// The number of the client, and of its request.
    pub client: u64,
    pub request: u32,
    /// The name of the request's header.
    pub request_name: Sum,
    pub kind: ReplyKind,
}

/// A reply to a client; its view is at most 2^32 - 2 and its op at most 2^62, and an outcome fits the version.
#[derive(Drop, PartialEq, Eq)]
pub struct Reply {
    fields: ReplyFields,
}

impl Model for Reply {
    ghost use Rattle.vr_msg.specs.declared.reply.ReplyFields.{ReplyFields};
    ghost use Rattle.vr_msg.specs.Asking.{IsReply};

    ghost Value = { ReplyFields };

    ghost view = { λ r. r.fields };

    ghost invariant = { λ r. IsReply r.fields };

    ghost inverse = { λ fields. record { fields = fields } };
}

impl Reply {
    /// The reply that says this.
    pub fn new(fields: ReplyFields) -> Reply
        requires { IsReply fields }
        ensures { result ≡ fields }
    {
        Reply { fields }
    }

    /// What it says.
    pub fn fields(&self) -> &ReplyFields
        ensures value { result.now ≡ self.now }
        ensures form { IsReply self.now }
    {
        &self.fields
    }

    /// What it says; it takes no memory.
    pub fn into_fields(self) -> ReplyFields
        ensures value { result ≡ self }
        ensures form { IsReply self }
    {
        self.fields
    }
}
