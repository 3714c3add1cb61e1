//! A sink of bytes.
ghost use Rattle.std.specs.Prelude.{List, ℕ, Option, length};
ghost use Rattle.std.specs.Io.{WritesAtMost};
ghost use Rattle.std.specs.Io.KnownBytes.{WriteAppends};
ghost use Rattle.vr_edge.specs.Counts.{HasWriteCause};

use thiserror::Error;

/// A write that failed.
#[derive(Clone, Copy, Debug, PartialEq, Eq, Error)]
#[error("write failed")]
pub struct WriteFailed;

/// What bytes are written to.
pub trait Sink {
    /// The bytes that were taken, where the sink tells them.
    ghost taken: { Self → Option (List ℕ) };

    /// How often a write has failed, or has taken nothing of a piece that is not empty.
    ghost faults: { Self → ℕ };

    /// Takes bytes from the front of `from`, and returns how many. 0 of a piece that is not empty is a fault
    /// to the caller.
    fn write(&mut self, from: &[u8]) -> Result<usize, WriteFailed>
        ensures bound { WritesAtMost result from.now }
        ensures bytes { WriteAppends (taken self.old) (taken self.new) result from.now }
        ensures cause { HasWriteCause (faults self.old) (faults self.new) (length from.now) result };
}
