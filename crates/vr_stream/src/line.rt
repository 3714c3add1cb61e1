//! The stream at a port.
ghost use Rattle.std.specs.Prelude.{◌≡◌, ◌≤◌, IfOk, length};
ghost use Rattle.vr_stream.specs.Lines.{fresh_line, Takes};

use crate::Deframer;
use std::alloc::{AllocError, Global};
use vr_edge::STREAM_ROOM;

/// The stream at a port. Once its connection is over its messages may still be given, and what comes then is another one's.
#[derive(Drop)]
pub struct Incoming {
    pub deframer: Deframer,
    pub over: bool,
}

impl Incoming {
    /// A stream of which nothing has come.
    pub fn new(alloc: Global) -> Result<Incoming, AllocError>
        ensures { IfOk result (λ l. l ≡ fresh_line) }
    {
        Ok(Incoming {
            deframer: Deframer::new(alloc)?,
            over: false,
        })
    }

    /// Takes bytes that came, and says whether it did: it does where less than a message is left, or where they begin another connection.
    pub fn take(&mut self, piece: &[u8]) -> bool
        requires { length piece.now ≤ STREAM_ROOM }
        ensures { Takes self.old piece.now self.new result }
    {
        if self.over {
            self.deframer.reset();
            self.over = false;
        }
        if !self.deframer.is_short() {
            return false;
        }
        self.deframer.push(piece);
        true
    }
}
