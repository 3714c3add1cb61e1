//! When a call that failed is made again.
ghost use Rattle.std.specs.Prelude.{◌≡◌, ◌≢◌, ◌∷◌, [], length, replicate};
ghost use Rattle.vr_io_policy.specs.Pauses.{passes, pauses};

use std::io::ErrorKind;

/// How often a write that failed in passing is made again, and after how many milliseconds each time.
const WRITE_TIMES: u32 = 100;

const WRITE_MILLIS: u64 = 10;

/// How often a read is made again after the first time, which is at once, and after how many milliseconds each time.
const READ_TIMES: u32 = 2;

const READ_MILLIS: u64 = 5;

/// The pauses that are left before a call is made again, the next one first.
#[derive(Clone, Copy, Debug, PartialEq, Eq)]
pub struct Again {
    /// Whether it is made again at once before all of them.
    pub at_once: bool,
    pub times: u32,
    pub millis: u64,
}

impl Again {
    /// Of a read: at once, and twice after five milliseconds.
    pub fn for_read() -> Again
        ensures { pauses result ≡ 0 ∷ (5 ∷ (5 ∷ [])) }
    {
        Again {
            at_once: true,
            times: READ_TIMES,
            millis: READ_MILLIS,
        }
    }

    /// Of a write: for a second, each ten milliseconds.
    pub fn for_write() -> Again
        ensures { pauses result ≡ replicate 100 10 }
    {
        Again {
            at_once: false,
            times: WRITE_TIMES,
            millis: WRITE_MILLIS,
        }
    }

    /// How often the call is made again.
    pub fn times(&self) -> usize
        ensures { result ≡ length (pauses self.now) }
    {
        let at_once = if self.at_once { 1 } else { 0 };
        at_once + self.times as usize
    }

    /// After how many milliseconds the call is made again; 0 where it isn't any more.
    pub fn pause(&mut self) -> u64
        ensures next { pauses self.old ≢ [] → pauses self.old ≡ result ∷ pauses self.new }
        ensures over { pauses self.old ≡ [] → (result ≡ 0) × (pauses self.new ≡ []) }
    {
        if self.at_once {
            self.at_once = false;
            return 0;
        }
        if self.times == 0 {
            return 0;
        }
        self.times -= 1;
        self.millis
    }
}

/// Whether a call that fails so may go well when it is made again: a signal came, or there was no room yet.
pub fn is_passing(kind: ErrorKind) -> bool
    ensures { result ≡ passes kind }
{
    matches!(kind, ErrorKind::Interrupted | ErrorKind::WouldBlock)
}
