//! What a step of a trial is: a member's start or stop, the client's link, or what it asks.

/// What the client asks.
#[derive(Clone, Copy, Debug, PartialEq, Eq)]
pub enum Question {
    /// A session.
    Register,
    /// To keep the value with this number at the key with it.
    Put(u8),
    /// The value at the key with this number.
    Get(u8),
}

/// A step of a trial.
#[derive(Clone, Copy, Debug, PartialEq, Eq)]
pub enum Step {
    /// The member with this number is made anew, and starts.
    Start(u8),
    /// It starts with the disk that it has.
    Restart(u8),
    /// The client takes its link.
    Attach,
    Ask(Question),
    /// The member is stopped.
    Stop(u8),
}
