//! An ask, turn by turn.
ghost use Rattle.std.specs.Prelude.{◌≡◌, ◌<◌, [], ◌∷◌, OnOk, MatchOption};
ghost use Rattle.vr_client.specs.Acts.{Asks, HearsOnce, MayAsk, Reaches, TakesTurn, Waits, Writes};
ghost use Rattle.vr_client.specs.Asking.{IsSilent, go_on_port, go_on_to, moved, moved_to};
ghost use Rattle.vr_client.specs.Heeding.{MovesWithin};
ghost use Rattle.vr_client.specs.declared.answer.Heed.TheVariants as did;
ghost use Rattle.vr_msg.specs.Asking.{IsRequest};
ghost use Rattle.vr_msg.specs.Spelling.{spelling};
ghost use Rattle.vr_msg.specs.declared.frame.Frame.TheVariants as frame;

use crate::answer::{Heed, heed_letter};
use crate::{Answer, AskFault, ClientCore};
use std::alloc::AllocError;
use vr_base::{Sum, sum_at};
use vr_codec::encode;
use vr_edge::Link;
use vr_header::Operation;
use vr_mail::{receive_letter, send_bytes};
use vr_msg::{Message, Request, RequestFields};

/// The turns without an answer after which a client goes on to the next member.
pub const PATIENCE: u64 = 50;

// When a client goes on, the contracts say by it.
const _: () = prove!(PATIENCE == 50);

/// Puts the bytes of a request in the place of what is there. After an `Err`, want of memory, nothing is said of them.
fn spell(fields: RequestFields, bytes: &mut Vec<u8>) -> Result<(), AllocError>
    requires { IsRequest fields }
    ensures { OnOk result (bytes.new.items ≡ spelling (frame.Request fields)) }
{
    bytes.clear();
    let message = Message::request(Request::new(fields));
    let spelled = encode(&message, bytes);
    drop(message);
    spelled
}

impl ClientCore {
    /// Makes the request of this operation with the client's number: its bytes are kept, and its name is returned. The number is
    /// one more afterwards, after an `Err` too; version, group, id and port stay in each case. After an `Err`, want of memory,
    /// nothing is said of the bytes. `MayAsk`: the number is below 2^32, the operation is one of the client's version, and it is a
    /// register exactly where the number is 0.
    fn write_request(&mut self, operation: &Operation) -> Result<Sum, AllocError>
        requires { MayAsk self.old operation.now }
        ensures { Writes operation.now self.old self.new result }
    {
        let number = self.number as u32;
        self.number += 1;
        let fields = RequestFields {
            version: self.version,
            cluster: self.cluster,
            client: self.id,
            request: number,
            operation: operation.try_clone(self.alloc)?,
        };
        spell(fields, &mut self.bytes)?;
        Ok(sum_at(self.bytes.as_slice(), 0))
    }

    /// Gives the link the bytes of the last request, as one datagram to this port, which is the client's from then on. Where the
    /// link fails to send it, it is lost, and nothing else. All else of the client stays, but for its room for what comes; and so
    /// do the link's receives, faults and attaches.
    #[tactic(auto, using(std::proofs::lemmas::Grind::common_steps, crate::proofs::Keeping::keeps_same, crate::proofs::Keeping::keeps_later, crate::proofs::Keeping::no_requests, vr_mail::proofs::Sent::sends_nil))]
    fn ask_at<L: Link>(&mut self, link: &mut L, port: u32)
        requires { port < self.old.n }
        ensures { Reaches L.Link (port ∷ []) port self.old self.new link.old link.new }
    {
        self.port = port;
        send_bytes(link, port, self.bytes.as_slice());
    }

    /// One receive, and what it makes of it: all but a reply to the request of this name is ignored. `Link`: the receive failed,
    /// and by that alone the link counts one fault more. `NoMemory`: there was none for a message of this version and group that
    /// came. Nothing is sent or attached, and the client keeps its port, its number and its request.
    #[tactic(auto, using(std::proofs::lemmas::Grind::common_steps, crate::proofs::Keeping::keeps_same, crate::proofs::Keeping::keeps_later, crate::proofs::Keeping::cause_heard, crate::proofs::Keeping::no_requests, vr_mail::proofs::Sent::sends_nil))]
    fn hear<L: Link>(&mut self, link: &mut L, name: &Sum) -> Result<Heed, AskFault>
        ensures { HearsOnce L.Link name.now self.old self.new link.old link.new result }
    {
        let letter = receive_letter(self.alloc, link, self.version, self.cluster, &mut self.to)?;
        Ok(heed_letter(self.n, name, letter))
    }

    /// `Answered` gives the answer, and all else `None`. Where it heard `Moved`, it sends the request to that port, once, and is
    /// there from then on; else nothing is sent, and the port stays. All else of the client stays. Nothing is received or
    /// attached, and no fault of the link is counted.
    #[tactic(auto, using(std::proofs::lemmas::Grind::common_steps, crate::proofs::Keeping::keeps_same, crate::proofs::Keeping::keeps_later, crate::proofs::Keeping::no_requests, vr_mail::proofs::Sent::sends_nil))]
    fn follow<L: Link>(&mut self, link: &mut L, heard: Heed) -> Option<Answer>
        requires { MovesWithin self.old.n heard }
        ensures reaches { Reaches L.Link (moved_to heard) (moved heard self.old.port) self.old self.new link.old link.new }
        ensures answer { MatchOption result (IsSilent heard) (λ answer. heard ≡ did.Answered answer) }
    {
        match heard {
            Heed::Ignored => None,
            Heed::Moved(port) => {
                self.ask_at(link, port);
                None
            }
            Heed::Answered(answer) => Some(answer),
        }
    }

    /// Where `done + 1` is a multiple of `PATIENCE` and below `turns`, it sends the request to the next port, modulo `n`, and is
    /// there from then on. Else nothing is sent, and the port stays. All else of the client stays. Nothing is received or
    /// attached, and no fault of the link is counted.
    #[tactic(auto, using(std::proofs::lemmas::Grind::common_steps, crate::proofs::Keeping::keeps_same, crate::proofs::Keeping::keeps_later, crate::proofs::Keeping::no_requests, vr_mail::proofs::Sent::sends_nil))]
    fn go_on<L: Link>(&mut self, link: &mut L, turns: u64, done: u64)
        requires { done < turns }
        ensures { Reaches L.Link (go_on_to self.old.n turns done self.old.port) (go_on_port self.old.n turns done self.old.port) self.old self.new link.old link.new }
    {
        if (done + 1) % PATIENCE == 0 && done + 1 < turns {
            self.ask_at(link, (self.port + 1) % u32::from(self.n));
        }
    }

    /// One receive, after `done` turns, of which all but a reply to the request of this name is ignored. The answer is returned,
    /// with nothing sent and the port as it was. Else the request is sent where a redirect says, and then, where `done + 1` is a
    /// multiple of `PATIENCE` below `turns`, to the next port; each becomes its port. After `Link` the receive failed, and by
    /// that alone the link counts one fault more; after `NoMemory` there was none for its message; nothing was sent then. All but
    /// the port of the client stays, and nothing is attached.
    #[tactic(auto, using(std::proofs::lemmas::Grind::common_steps, crate::proofs::Keeping::keeps_same, crate::proofs::Keeping::keeps_later, crate::proofs::Keeping::cause_later, crate::proofs::Turns::turned_none, crate::proofs::Turns::turned_answer))]
    fn turn<L: Link>(
        &mut self,
        link: &mut L,
        name: &Sum,
        turns: u64,
        done: u64,
    ) -> Result<Option<Answer>, AskFault>
        requires { done < turns }
        ensures { TakesTurn L.Link name.now turns done self.old self.new link.old link.new result }
    {
        let heard = self.hear(link, name)?;
        if let Some(answer) = self.follow(link, heard) {
            return Ok(Some(answer));
        }
        self.go_on(link, turns, done);
        Ok(None)
    }

    /// Sends the request to the client's port, and then takes turns, of one receive each, until one brings a reply to the request
    /// of this name that is its answer. A turn without it may move the client: where a redirect says, and after each `PATIENCE`
    /// turns, if turns are left, to the next port; the request goes to each. `NoAnswer`: all `turns` passed without it; `Link`
    /// and `NoMemory` end it at the last receive. By `Link` alone the link counts one fault more; the client keeps all but its
    /// port, and nothing is attached.
    #[tactic(auto, using(std::proofs::lemmas::Grind::common_steps, crate::proofs::Keeping::keeps_later, crate::proofs::Keeping::cause_later, crate::proofs::Waits::waited_all))]
    fn wait<L: Link>(&mut self, link: &mut L, name: &Sum, turns: u64) -> Result<Answer, AskFault>
        ensures { Waits L.Link name.now turns self.old self.new link.old link.new result }
    {
        self.ask_at(link, self.port);
        for done in 0..turns {
            if let Some(answer) = self.turn(link, name, turns, done)? {
                return Ok(answer);
            }
        }
        Err(AskFault::NoAnswer)
    }

    /// Asks for an operation of its version with the client's next number: `Register` with number 0, any other with a later one.
    /// It sends the request and waits for at most so many receives; only a reply to this request is its answer. `NoAnswer`: all
    /// passed without it; `Link`: the last receive failed, and by that alone the link counts one fault more. `NoMemory`: at the
    /// last receive, or for the request itself, and then nothing was sent or received. In each case the number is used up, and
    /// version, group and id stay.
    pub fn ask<L: Link>(
        &mut self,
        link: &mut L,
        operation: &Operation,
        turns: u64,
    ) -> Result<Answer, AskFault>
        requires { MayAsk self.old operation.now }
        ensures { Asks L.Link operation.now turns self.old self.new link.old link.new result }
    {
        let name = self.write_request(operation)?;
        self.wait(link, &name, turns)
    }
}
