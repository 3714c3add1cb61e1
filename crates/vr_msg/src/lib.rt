//! The messages of the protocol, the events and outputs of a replica, the choice of a new view's log (`choice`), and the definitions of
//! each: forms, spelling, numbers. The bytes of a message are read and written in `vr_codec`.
#![tactic(auto)]

mod choice;
mod copy;
mod event;
mod frame;
mod make;
mod message;
mod output;
mod reply;
mod request;
mod statement;

pub use choice::Choice;
pub use event::Event;
pub use frame::{
    Commit, DoViewChange, Frame, GetBlock, GetPrepare, GetSync, GetView, GiveBlock, GivePrepare,
    Prepare, PrepareOk, StartView, StartViewChange, SyncView,
};
pub use message::Message;
pub use output::{Chosen, Committed, Outbox, Output, Sent, Started, Waiting};
pub use reply::{Answered, Reply, ReplyFields, ReplyKind};
pub use request::{Names as RequestNames, Request, RequestFields};
pub use statement::{DvcBody, Statement, SvBody};
