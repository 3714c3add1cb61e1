//! What comes next of a stream.

use vr_codec::MsgFault;

/// What comes next of a stream.
#[derive(Clone, Copy, Debug, PartialEq, Eq)]
pub enum Next {
    /// A message.
    Message,
    /// Nothing before more has come.
    More,
    /// Nothing any more: what stands there is no message, by this fault.
    Broken(MsgFault),
}
