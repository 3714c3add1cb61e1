//! The lines of a source, one after the other.
ghost use Rattle.std.specs.Prelude.{◌≤◌, IfOk, OnErr};
ghost use Rattle.vr_base.specs.Causes.{HasCause};
ghost use Rattle.vr_lines.specs.Coming.{Breaks, Comes};
ghost use Rattle.vr_lines.specs.Grammar.{longest_line};

use crate::{Lines, Next};
use vr_edge::{ReadFailed, Source};

/// What comes next of a source that is read as far as need be.
#[derive(Clone, Copy, Debug, PartialEq, Eq)]
pub enum Found {
    /// A line.
    Line,
    /// A line that is too long: it is not taken.
    TooLong,
    /// Nothing: the source is at its end.
    End,
}

impl Lines {
    /// The next line of a source whose lines have at most so many bytes. After an `Err` what has come of the line stands still.
    pub fn read<S: Source>(&mut self, source: &mut S, longest: usize) -> Result<Found, ReadFailed>
        requires { longest ≤ longest_line }
        ensures found { IfOk result (λ found. Comes longest self.old.bytes (S.left source.old) self.new (S.left source.new) found) }
        ensures broken { OnErr result (Breaks self.old.bytes (S.left source.old) self.new.bytes (S.left source.new)) }
        ensures cause { HasCause (S.faults source.old) (S.faults source.new) result }
    {
        let mut ended = false;
        loop {
            match self.give(longest, ended) {
                Next::Line => return Ok(Found::Line),
                Next::TooLong => return Ok(Found::TooLong),
                Next::End => return Ok(Found::End),
                Next::More => ended = self.fill(source)? == 0,
            }
        }
    }
}
