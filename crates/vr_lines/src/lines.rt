//! Where lines end in the pieces of a source.
ghost use Rattle.std.specs.Prelude.{◌≡◌, ◌<◌, ◌-◌, ◌++◌, [], None, IfOk, IfSome, OnErr, length, min, take};
ghost use Rattle.std.specs.Io.KnownBytes.{Keeps};
ghost use Rattle.vr_base.specs.Causes.{HasCause};
ghost use Rattle.vr_lines.specs.Cuts.{whole_lines, IsEnd};
ghost use Rattle.vr_lines.specs.Held.{Fills, Gives, GivesWithin, room};

use crate::LONGEST;
use memchr::memchr;
use std::marker::Model;
use vr_edge::{ReadFailed, Source};

/// The longest line of any version, with its end.
const ROOM: usize = 3112;

/// The end of a line.
const LF: u8 = b'\n';

/// What has come of a source and wasn't given yet: never more than the longest line of any version.
#[derive(Drop)]
pub struct Lines {
    buffer: [u8; ROOM],
    /// What wasn't given yet stands from here
    start: usize,
    /// to here.
    end: usize,
    /// The line that was given last stands from here
    from: usize,
    /// to here.
    to: usize,
}

impl Model for Lines {
    ghost use Rattle.std.specs.Prelude.{◌≡◌, ◌≤◌, length};
    ghost use Rattle.vr_lines.specs.Held.{Held, between, room};

    ghost Value = { Held };

    ghost view = { λ l. record { bytes = between l.start l.end l.buffer; line = between l.from l.to l.buffer } };

    ghost invariant = { λ l. (length l.buffer ≡ room) × (l.start ≤ l.end) × (l.end ≤ room) × (l.from ≤ l.to) × (l.to ≤ room) };
}

/// What comes next of a source.
#[derive(Clone, Copy, Debug, PartialEq, Eq)]
pub enum Next {
    /// A line.
    Line,
    /// More bytes than a line has, and no end among them.
    TooLong,
    /// Nothing: the source is at its end.
    End,
    /// Nothing before more has come.
    More,
}

/// The place of the first LF, `None` exactly where there is none.
fn find_end(bytes: &[u8]) -> Option<usize>
    ensures within { IfSome result (λ at. at < length bytes.now) }
    ensures found { IfSome result (λ at. IsEnd bytes.now at) }
    ensures none { result ≡ None → whole_lines bytes.now ≡ [] }
{
    memchr(LF, bytes)
}

impl Lines {
    /// Nothing has come.
    pub fn new() -> Lines
        ensures { result.bytes ≡ [] }
    {
        Lines {
            buffer: [0; ROOM],
            start: 0,
            end: 0,
            from: 0,
            to: 0,
        }
    }

    /// Takes so many bytes of a piece as there is room for, and returns how many. The line that was given last is lent no more. It is for
    /// programs that have pieces and no `Source`; `fill` reads one.
    pub fn push(&mut self, piece: &[u8]) -> usize
        ensures count { result ≡ min (length piece.now) (room - length self.old.bytes) }
        ensures bytes { self.new.bytes ≡ self.old.bytes ++ take result piece.now }
    {
        let held = self.end - self.start;
        self.buffer.copy_within(self.start..self.end, 0);
        let count = piece.len().min(ROOM - held);
        self.buffer[held..held + count].copy_from_slice(&piece[..count]);
        self.start = 0;
        self.end = held + count;
        count
    }

    /// Reads more of a source after what wasn't given yet, as much as there is room for, and returns how many bytes. The line that was
    /// given last is lent no more.
    pub fn fill<S: Source>(&mut self, source: &mut S) -> Result<usize, ReadFailed>
        requires { length self.old.bytes < room }
        ensures filled { IfOk result (λ count. Fills (S.left source.old) (S.left source.new) self.old.bytes self.new.bytes count) }
        ensures kept { OnErr result ((self.new.bytes ≡ self.old.bytes) × Keeps (S.left source.old) (S.left source.new)) }
        ensures cause { HasCause (S.faults source.old) (S.faults source.new) result }
    {
        let held = self.end - self.start;
        self.buffer.copy_within(self.start..self.end, 0);
        self.start = 0;
        self.end = held;
        let count = source.read(&mut self.buffer[held..])?;
        self.end = held + count;
        Ok(count)
    }

    /// What comes next of a source whose lines have at most so many bytes; `ended` says that the source is at its end.
    pub(crate) fn give(&mut self, longest: usize, ended: bool) -> Next
        ensures { GivesWithin longest ended self.old.bytes self.new result }
    {
        let held = self.end - self.start;
        match find_end(&self.buffer[self.start..self.end]) {
            Some(at) if at > longest => Next::TooLong,
            Some(at) => {
                self.from = self.start;
                self.to = self.start + at;
                self.start += at + 1;
                Next::Line
            }
            None if held > longest => Next::TooLong,
            None if !ended => Next::More,
            None if held == 0 => Next::End,
            None => {
                self.from = self.start;
                self.to = self.end;
                self.start = self.end;
                Next::Line
            }
        }
    }

    /// What comes next of a schedule; `ended` says that its source is at its end.
    #[tactic(auto, using(std::proofs::lemmas::Grind::common_steps, crate::proofs::Giving::gives))]
    pub fn next(&mut self, ended: bool) -> Next
        ensures { Gives ended self.old.bytes self.new result }
    {
        self.give(LONGEST, ended)
    }

    /// The line that was given last, without its end.
    pub fn line(&self) -> &[u8]
        ensures { result.now ≡ self.now.line }
    {
        &self.buffer[self.from..self.to]
    }
}
