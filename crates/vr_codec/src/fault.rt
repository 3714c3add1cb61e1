//! Why bytes are no message.

use vr_header::HeaderFault;

/// Why bytes are no message: the first of these that applies. Want of memory may come in place of any
/// message, and in place of no other fault.
#[derive(Clone, Copy, Debug, PartialEq, Eq)]
pub enum MsgFault {
    /// They don't begin with a header.
    Header(HeaderFault),
    /// The bytes after the header aren't as many as it says, or don't have the name that it gives.
    BodySum,
    /// The header's command is no message's, a field that its command has no use for isn't zero, a
    /// number is out of its range, or the body isn't of its form.
    BodyShape,
    NoMemory,
}
