//! A source of bytes.
ghost use Rattle.std.specs.Prelude.{List, ℕ, Option, length, IfOk};
ghost use Rattle.std.specs.Io.{ReadsAtMost};
ghost use Rattle.std.specs.Io.KnownBytes.{ReadConsumes};
ghost use Rattle.vr_base.specs.Causes.{HasCause};
ghost use Rattle.vr_edge.specs.Told.{ZeroAtEnd};

use thiserror::Error;

/// A read that failed.
#[derive(Clone, Copy, Debug, PartialEq, Eq, Error)]
#[error("read failed")]
pub struct ReadFailed;

/// What bytes are read from.
pub trait Source {
    /// The bytes that are left, where the source tells them.
    ghost left: { Self → Option (List ℕ) };

    /// How often a read has failed.
    ghost faults: { Self → ℕ };

    /// Reads into the front of `to`, and returns how many bytes. 0 into a buffer that is not empty is the end.
    fn read(&mut self, to: &mut [u8]) -> Result<usize, ReadFailed>
        ensures bound { ReadsAtMost result to.new }
        ensures bytes { ReadConsumes (left self.old) (left self.new) result to.new }
        ensures end { IfOk result (λ count. ZeroAtEnd (left self.old) (length to.new) count) }
        ensures cause { HasCause (faults self.old) (faults self.new) result };
}
