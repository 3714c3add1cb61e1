//! Messages.
ghost use Rattle.std.specs.Prelude.{◌≡◌, true};
ghost use Rattle.vr_msg.specs.Forms.{IsFrame};

use crate::Frame;
use std::marker::Model;

/// A message: a frame that has a spelling in bytes. Its views are at most 2^32 - 2, its op and commit
/// numbers at most 2^62, and what it carries is of its kind's form.
#[derive(PartialEq, Eq)]
pub struct Message {
    frame: Frame,
}

// By hand, so that a function that lets one go calls this, in place of spelling out each kind.
impl Drop for Message {
    fn drop(self) {
        let Message { frame } = self;
        drop(frame);
    }
}

impl Model for Message {
    ghost use Rattle.vr_msg.specs.declared.frame.Frame.{Frame};
    ghost use Rattle.vr_msg.specs.Forms.{IsFrame};

    ghost Value = { Frame };

    ghost view = { λ m. m.frame };

    ghost invariant = { λ m. IsFrame m.frame };

    ghost inverse = { λ frame. record { frame = frame } };
}

impl Message {
    /// The message that says this.
    pub fn new(frame: Frame) -> Message
        requires { IsFrame frame }
        ensures { result ≡ frame }
    {
        Message { frame }
    }

    /// What it says.
    pub fn frame(&self) -> &Frame
        ensures value { result.now ≡ self.now }
        ensures form { IsFrame self.now }
    {
        &self.frame
    }

    /// Whether both are one prepare.
    pub fn is_same_prepare(&self, other: &Message) -> bool
        ensures { result ≡ true → self.now ≡ other.now }
    {
        match (&self.frame, &other.frame) {
            (Frame::Prepare(mine), Frame::Prepare(its)) => mine.is(its),
            _ => false,
        }
    }

    /// What it says; it takes no memory.
    pub fn into_frame(self) -> Frame
        ensures value { result ≡ self }
        ensures form { IsFrame self }
    {
        let Message { frame } = self;
        frame
    }
}
