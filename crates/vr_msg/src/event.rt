//! What happens to a replica.

use crate::{Message, Request};

/// What happens to a replica, and is handled in one step.
#[derive(Drop, PartialEq, Eq)]
pub enum Event {
    /// A client asks.
    Request(Request),
    /// A message arrives.
    Deliver(Message),
    /// Time goes by.
    Tick,
}
