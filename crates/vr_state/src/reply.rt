//! What an applied entry answers its client.

use vr_header::Outcome;

/// What an applied entry answers its client.
#[derive(Debug, Drop, PartialEq, Eq)]
pub enum ReplyBody {
    /// What the request gave, and the number of the entry that executed it: this one's, or of a repeat the first one's.
    Outcome(Outcome, u64),
    /// A later request of the client was executed.
    Old,
    /// A request between the client's last one and this is missing.
    Gap,
    /// The client has no session.
    Evicted,
}
