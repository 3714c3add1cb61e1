//! Streams, and the messages of each.
ghost use Rattle.std.specs.Prelude.{◌≡◌, ◌≤◌, ◌<◌, ◌+◌, ◌⊎◌, [], ◌∷◌, Ok, None, false, IfOk, OnErr, OnOk, replicate, take, vec_capacity, vec_len};

use crate::framer::{Framer, Given};
use crate::speaker::speaker;
use std::alloc::{AllocError, Global};
use vr_edge::{LinkFailed, Polled, RECEIVE_ROOM, Received, STREAM_ROOM, Streams};

/// Streams whose datagrams are the messages of the stream at their port.
#[derive(Drop)]
pub struct Framed<T> {
    pub streams: T,
    pub framer: Framer,
    /// How many peers there may be.
    pub peers: usize,
    /// Whether more of them were refused once; from then on it tells no attach.
    pub is_over: bool,
    /// What a poll gives.
    room: [u8; STREAM_ROOM],
    pub faults: u64,
    pub send_faults: u64,
}

impl<T: Streams> Framed<T> {
    ghost use Rattle.vr_base.specs.Causes.{HasCause, Rose};
    ghost use Rattle.vr_edge.specs.Attaching.{texts_of};
    ghost use Rattle.vr_edge.specs.Datagrams.{sent_by};
    ghost use Rattle.vr_edge.specs.Told.{Grows};
    ghost use Rattle.vr_edge.specs.Streaming.{IsPolled, polled_by};
    ghost use Rattle.vr_edge.specs.declared.streams.StreamFailed.{StreamFailed};
    ghost use Rattle.vr_edge.specs.declared.streams.StreamCall.TheVariants.{Came, Closed};
    ghost use Rattle.vr_stream.specs.Attaching.{IsAttach};
    ghost use Rattle.vr_stream.specs.Framers.{framing};
    ghost use Rattle.vr_stream.specs.Framing.{ended};
    ghost use Rattle.vr_stream.specs.Lines.{fresh_line};
    ghost use Rattle.vr_stream.specs.Receiving.{IsGiven, IsHeard, IsReceived};
    ghost use Rattle.vr_stream.specs.Sending.{Sends, sent_told};

    /// A link to so many peers at most, over streams that aren't attached. It is attached as a link is.
    pub fn new(alloc: Global, peers: u8, streams: T) -> Result<Framed<T>, AllocError>
    where
        T: Drop,
        ensures streams { IfOk result (λ l. l.streams ≡ streams) }
        ensures peers { IfOk result (λ l. l.peers ≡ peers) }
        ensures lines { IfOk result (λ l. l.framer.lines.items ≡ replicate (peers + 64) fresh_line) }
        ensures over { IfOk result (λ l. l.is_over ≡ false) }
        ensures ready { IfOk result (λ l. l.framer.ready ≡ None) }
        ensures faults { IfOk result (λ l. (l.faults ≡ 0) × (l.send_faults ≡ 0)) }
    {
        let peers = peers as usize;
        Ok(Framed {
            streams,
            framer: Framer::new(alloc, peers + 64)?,
            peers,
            is_over: false,
            room: [0; STREAM_ROOM],
            faults: 0,
            send_faults: 0,
        })
    }

    /// Closes the stream at a port.
    fn shut(&mut self, port: u32)
        ensures framing { framing self.new.framer ≡ ended port (framing self.old.framer) }
        ensures calls { Grows (T.calls self.old.streams) (T.calls self.new.streams) (Closed port ∷ []) }
        ensures written { T.written self.new.streams ≡ T.written self.old.streams }
        ensures polled { T.polled self.new.streams ≡ T.polled self.old.streams }
        ensures attached { (T.attaches self.new.streams ≡ T.attaches self.old.streams) × (self.new.is_over ≡ self.old.is_over) }
        ensures most { self.new.peers ≡ self.old.peers }
        ensures faults { (self.new.faults ≡ self.old.faults) × (self.new.send_faults ≡ self.old.send_faults) }
    {
        let _ = self.streams.close(port);
        self.framer.end(port);
    }

    /// Gives a message that stands ready, and returns its port; where damage stands, its connection is closed.
    #[tactic(auto, using(crate::proofs::Giving::given_message, crate::proofs::Giving::given_nothing, crate::proofs::Giving::settled_ready, crate::proofs::Giving::given_damage))]
    fn give(&mut self, to: &mut Vec<u8>) -> Option<u32>
        requires { RECEIVE_ROOM ≤ vec_capacity to.old }
        ensures given { IsGiven (framing self.old.framer) (T.calls self.old.streams) (framing self.new.framer) (T.calls self.new.streams) to.new.items result }
        ensures ready { result ≡ None → self.new.framer.ready ≡ None }
        ensures written { T.written self.new.streams ≡ T.written self.old.streams }
        ensures polled { T.polled self.new.streams ≡ T.polled self.old.streams }
        ensures attached { (T.attaches self.new.streams ≡ T.attaches self.old.streams) × (self.new.is_over ≡ self.old.is_over) }
        ensures most { self.new.peers ≡ self.old.peers }
        ensures faults { (self.new.faults ≡ self.old.faults) × (self.new.send_faults ≡ self.old.send_faults) }
        ensures room { vec_capacity to.old ≤ vec_capacity to.new }
    {
        match self.framer.give(to) {
            Given::Message(port) => Some(port),
            Given::Nothing => None,
            Given::Damage(port) => {
                self.shut(port);
                None
            }
        }
    }

    /// Takes the bytes that a poll gave.
    #[tactic(auto, using(crate::proofs::Giving::heard_nowhere, crate::proofs::Giving::heard_message, crate::proofs::Giving::heard_part))]
    fn take(&mut self, port: u32, count: u32, to: &mut Vec<u8>) -> Received
        requires room { RECEIVE_ROOM ≤ vec_capacity to.old }
        requires count { count ≤ STREAM_ROOM }
        requires ready { self.old.framer.ready ≡ None }
        ensures heard { IsHeard (framing self.old.framer) (Came (record { port = port; bytes = take count self.old.room })) (T.calls self.old.streams) (framing self.new.framer) (T.calls self.new.streams) to.new.items result }
        ensures written { T.written self.new.streams ≡ T.written self.old.streams }
        ensures polled { T.polled self.new.streams ≡ T.polled self.old.streams }
        ensures attached { (T.attaches self.new.streams ≡ T.attaches self.old.streams) × (self.new.is_over ≡ self.old.is_over) }
        ensures most { self.new.peers ≡ self.old.peers }
        ensures faults { (self.new.faults ≡ self.old.faults) × (self.new.send_faults ≡ self.old.send_faults) }
        ensures room { vec_capacity to.old ≤ vec_capacity to.new }
    {
        if !self.framer.take(port, &self.room[..count as usize]) {
            self.shut(port);
            return Received::Part;
        }
        match self.give(to) {
            Some(port) => Received::Datagram(port),
            None => Received::Part,
        }
    }

    /// Takes what a poll gave.
    #[tactic(auto, using(crate::proofs::Giving::heard_end, crate::proofs::Giving::heard_quiet))]
    fn hear(&mut self, polled: Polled, to: &mut Vec<u8>) -> Received
        requires room { RECEIVE_ROOM ≤ vec_capacity to.old }
        requires polled { IsPolled (T.attached self.old.streams) polled }
        requires ready { self.old.framer.ready ≡ None }
        ensures heard { IsHeard (framing self.old.framer) (polled_by {E = StreamFailed} (Ok polled) self.old.room) (T.calls self.old.streams) (framing self.new.framer) (T.calls self.new.streams) to.new.items result }
        ensures written { T.written self.new.streams ≡ T.written self.old.streams }
        ensures polled { T.polled self.new.streams ≡ T.polled self.old.streams }
        ensures attached { (T.attaches self.new.streams ≡ T.attaches self.old.streams) × (self.new.is_over ≡ self.old.is_over) }
        ensures most { self.new.peers ≡ self.old.peers }
        ensures faults { (self.new.faults ≡ self.old.faults) × (self.new.send_faults ≡ self.old.send_faults) }
        ensures room { vec_capacity to.old ≤ vec_capacity to.new }
    {
        match polled {
            Polled::Bytes(port, count) => self.take(port, count, to),
            Polled::Ended(port) => {
                self.framer.end(port);
                Received::Part
            }
            Polled::Quiet => Received::Quiet,
        }
    }

    /// Attaches the streams; it fails with more peers than there may be.
    #[tactic(auto, using(std::proofs::lemmas::Grind::common_steps, crate::proofs::Attached::passed_on, crate::proofs::Attached::refused))]
    pub fn attach(&mut self, own: &str, peers: &Vec<String>) -> Result<(), LinkFailed>
        ensures cause { HasCause self.old.faults self.new.faults result }
        ensures asked { IsAttach self.old.peers (vec_len peers.now) own.now (texts_of peers.now.items) self.old.is_over self.new.is_over (T.attaches self.old.streams) (T.attaches self.new.streams) result }
        ensures written { T.written self.new.streams ≡ T.written self.old.streams }
        ensures most { self.new.peers ≡ self.old.peers }
        ensures others { self.new.send_faults ≡ self.old.send_faults }
        ensures few { OnOk result (vec_len peers.now ≤ self.old.peers) }
        ensures reached { OnOk result (T.attached self.new.streams ≡ vec_len peers.now) }
        ensures failed { OnErr result ((self.old.peers < vec_len peers.now) ⊎ Rose (T.faults self.old.streams) (T.faults self.new.streams)) }
        ensures framing { self.new.framer ≡ self.old.framer }
        ensures calls { T.calls self.new.streams ≡ T.calls self.old.streams }
        ensures polled { T.polled self.new.streams ≡ T.polled self.old.streams }
    {
        if peers.len() > self.peers {
            self.is_over = true;
            self.faults = self.faults.saturating_add(1);
            return Err(LinkFailed);
        }
        match self.streams.attach(own, peers) {
            Ok(()) => Ok(()),
            Err(_) => {
                self.faults = self.faults.saturating_add(1);
                Err(LinkFailed)
            }
        }
    }

    /// Gives the bytes to the stream at a port; one that takes less than the whole is closed.
    #[tactic(auto, using(std::proofs::lemmas::Grind::common_steps, crate::proofs::Sent::sent_whole, crate::proofs::Sent::sent_cut, crate::proofs::Sent::sent_not, crate::proofs::Sent::sends_whole, crate::proofs::Sent::sends_cut, crate::proofs::Sent::sends_not))]
    pub fn send(&mut self, to: u32, bytes: &[u8]) -> Result<(), LinkFailed>
        ensures cause { HasCause self.old.send_faults self.new.send_faults result }
        ensures sent { Grows (sent_told (T.written self.old.streams)) (sent_told (T.written self.new.streams)) (sent_by to bytes.now result ∷ []) }
        ensures sends { Sends to bytes.now (framing self.old.framer) (T.calls self.old.streams) (T.written self.old.streams) (framing self.new.framer) (T.calls self.new.streams) (T.written self.new.streams) }
        ensures polled { T.polled self.new.streams ≡ T.polled self.old.streams }
        ensures attached { (T.attaches self.new.streams ≡ T.attaches self.old.streams) × (self.new.is_over ≡ self.old.is_over) }
        ensures most { self.new.peers ≡ self.old.peers }
        ensures others { self.new.faults ≡ self.old.faults }
    {
        match self.streams.write(to, bytes) {
            Ok(count) if count == bytes.len() => return Ok(()),
            Ok(_) => self.shut(to),
            Err(_) => {}
        }
        self.send_faults = self.send_faults.saturating_add(1);
        Err(LinkFailed)
    }

    // A message that stands ready; else what one poll gives.
    #[tactic(auto, using(crate::proofs::Giving::received_ready, crate::proofs::Giving::received_failed, crate::proofs::Giving::received_heard))]
    fn take_in(&mut self, to: &mut Vec<u8>) -> Result<Received, LinkFailed>
        requires { RECEIVE_ROOM ≤ vec_capacity to.old }
        ensures cause { HasCause self.old.faults self.new.faults result }
        ensures written { T.written self.new.streams ≡ T.written self.old.streams }
        ensures room { RECEIVE_ROOM ≤ vec_capacity to.new }
        ensures attached { (T.attaches self.new.streams ≡ T.attaches self.old.streams) × (self.new.is_over ≡ self.old.is_over) }
        ensures most { self.new.peers ≡ self.old.peers }
        ensures others { self.new.send_faults ≡ self.old.send_faults }
        ensures heard { IsReceived (framing self.old.framer) (T.calls self.old.streams) (T.polled self.old.streams) (framing self.new.framer) (T.calls self.new.streams) (T.polled self.new.streams) to.new.items result }
    {
        if let Some(port) = self.give(to) {
            return Ok(Received::Datagram(port));
        }
        let Ok(polled) = self.streams.poll(&mut self.room) else {
            self.faults = self.faults.saturating_add(1);
            return Err(LinkFailed);
        };
        Ok(self.hear(polled, to))
    }

    // Tells the streams as whom the stream at a port speaks that brought this message.
    fn introduce(&mut self, port: u32, message: &[u8])
        ensures framing { self.new.framer ≡ self.old.framer }
        ensures calls { T.calls self.new.streams ≡ T.calls self.old.streams }
        ensures polled { T.polled self.new.streams ≡ T.polled self.old.streams }
        ensures written { T.written self.new.streams ≡ T.written self.old.streams }
        ensures attached { (T.attaches self.new.streams ≡ T.attaches self.old.streams) × (self.new.is_over ≡ self.old.is_over) }
        ensures most { self.new.peers ≡ self.old.peers }
        ensures faults { (self.new.faults ≡ self.old.faults) × (self.new.send_faults ≡ self.old.send_faults) }
    {
        if let Some(member) = speaker(message) {
            self.streams.speaks(port, member);
        }
    }
    /// A message that stands ready; else what one poll gives. Of a message the streams are told as whom the one speaks that brought it.
    pub fn receive(&mut self, to: &mut Vec<u8>) -> Result<Received, LinkFailed>
        requires { RECEIVE_ROOM ≤ vec_capacity to.old }
        ensures cause { HasCause self.old.faults self.new.faults result }
        ensures written { T.written self.new.streams ≡ T.written self.old.streams }
        ensures room { RECEIVE_ROOM ≤ vec_capacity to.new }
        ensures attached { (T.attaches self.new.streams ≡ T.attaches self.old.streams) × (self.new.is_over ≡ self.old.is_over) }
        ensures most { self.new.peers ≡ self.old.peers }
        ensures others { self.new.send_faults ≡ self.old.send_faults }
        ensures heard { IsReceived (framing self.old.framer) (T.calls self.old.streams) (T.polled self.old.streams) (framing self.new.framer) (T.calls self.new.streams) (T.polled self.new.streams) to.new.items result }
    {
        let received = self.take_in(to);
        if let Ok(Received::Datagram(port)) = received {
            self.introduce(port, to.as_slice());
        }
        received
    }
}
