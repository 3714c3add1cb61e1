//! The streams at all ports.
ghost use Rattle.std.specs.Prelude.{◌≡◌, ◌≤◌, IfOk, None, length, replicate, vec_capacity};
ghost use Rattle.vr_stream.specs.Lines.{fresh_line};

use crate::Next;
use crate::line::Incoming;
use std::alloc::{AllocError, Global};
use vr_edge::STREAM_ROOM;

/// What stood ready.
#[derive(Clone, Copy, Debug, PartialEq, Eq)]
pub enum Given {
    /// A message, at this port.
    Message(u32),
    /// Nothing.
    Nothing,
    /// Bytes that are no message, at this port, whose connection isn't over.
    Damage(u32),
}

/// The streams by their ports, and the port at which messages may stand ready.
#[derive(Drop)]
pub struct Framer {
    lines: Vec<Incoming>,
    ready: Option<u32>,
}

/// So many streams of which nothing has come.
#[tactic(auto, using(std::proofs::lemmas::Grind::common_steps, crate::proofs::Held::one_more))]
fn fresh_lines(alloc: Global, count: usize) -> Result<Vec<Incoming>, AllocError>
    ensures { IfOk result (λ lines. lines.items ≡ replicate count fresh_line) }
{
    let mut lines = Vec::new(alloc);
    for _ in 0..count {
        lines.push(Incoming::new(alloc)?)?;
    }
    Ok(lines)
}

impl Framer {
    ghost use Rattle.vr_stream.specs.Framers.{framing, Stands, TakesAt};
    ghost use Rattle.vr_stream.specs.Framing.{ended};

    /// Streams at so many ports.
    pub fn new(alloc: Global, count: usize) -> Result<Framer, AllocError>
        ensures lines { IfOk result (λ f. f.lines.items ≡ replicate count fresh_line) }
        ensures ready { IfOk result (λ f. f.ready ≡ None) }
    {
        Ok(Framer {
            lines: fresh_lines(alloc, count)?,
            ready: None,
        })
    }

    /// The connection at a port is over.
    pub fn end(&mut self, port: u32)
        ensures over { framing self.new ≡ ended port (framing self.old) }
        ensures ready { self.new.ready ≡ self.old.ready }
    {
        let at = port as usize;
        if at < self.lines.len() {
            self.lines[at].over = true;
        }
    }

    /// Takes bytes that came at a port; `false` where there is no such port, or no room.
    pub fn take(&mut self, port: u32, piece: &[u8]) -> bool
        requires piece { length piece.now ≤ STREAM_ROOM }
        requires ready { self.old.ready ≡ None }
        ensures { TakesAt port piece.now (framing self.old) (framing self.new) result }
    {
        let at = port as usize;
        if at >= self.lines.len() {
            return false;
        }
        if !self.lines[at].take(piece) {
            return false;
        }
        self.ready = Some(port);
        true
    }

    /// What stands ready; a message takes the place of what `to` holds.
    pub fn give(&mut self, to: &mut Vec<u8>) -> Given
        requires { 20480 ≤ vec_capacity to.old }
        ensures stands { Stands (framing self.old) (framing self.new) to.new.items result }
        ensures room { vec_capacity to.old ≤ vec_capacity to.new }
    {
        let Some(port) = self.ready else {
            return Given::Nothing;
        };
        let at = port as usize;
        if at >= self.lines.len() {
            self.ready = None;
            return Given::Nothing;
        }
        let line = &mut self.lines[at];
        let over = line.over;
        match line.deframer.next(to) {
            Next::Message => Given::Message(port),
            Next::More => {
                self.ready = None;
                Given::Nothing
            }
            Next::Broken(_) => {
                self.ready = None;
                if over {
                    Given::Nothing
                } else {
                    Given::Damage(port)
                }
            }
        }
    }
}
