//! What is chosen.

use vr_header::HeaderList;

/// The log that a new view begins with, as far as the statements decide it.
#[derive(Drop, PartialEq, Eq)]
pub enum Choice {
    /// It ends; its headers, from the first that is given on to the head, in order.
    Ends(HeaderList),
    /// It isn't decided whether it has this op.
    WaitsAt(u64),
    /// Too few replicas have stated what they hold.
    TooFew,
}
