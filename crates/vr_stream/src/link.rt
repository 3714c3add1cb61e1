//! A link over streams.
ghost use Rattle.std.specs.Prelude.{◌≡◌, ◌≤◌, ◌<◌, ◌+◌, ◌⊎◌, [], ◌∷◌, true, false, None, IfOk, OnErr, OnOk, replicate, vec_capacity, vec_len};
ghost use Rattle.vr_stream.specs.Framers.{framing};
ghost use Rattle.vr_stream.specs.Heard.{IsTold};

use crate::framed::Framed;
use std::alloc::{AllocError, Global};
use vr_edge::{Link, LinkFailed, RECEIVE_ROOM, Received, Streams};

/// A link over streams: each datagram is a message of the stream at its port.
#[derive(Drop)]
pub struct StreamLink<T: Streams> {
    framed: Framed<T>,
    /// Whether nothing was asked of the streams before; only then is what it has received told, by the calls of its streams, where these tell them.
    is_told: bool,
    ghost told: { is_told ≡ true → IsTold (framing framed.framer) (T.calls framed.streams) (T.polled framed.streams) },
}

impl<T: Streams> StreamLink<T> {
    ghost use Rattle.vr_stream.specs.Heard.{IsUnasked};
    ghost use Rattle.vr_stream.specs.Lines.{fresh_line};

    /// What it is a link over.
    pub fn streams(&self) -> &T
        ensures { result.now ≡ self.now.framed.streams }
    {
        &self.framed.streams
    }

    /// A link to so many peers at most, over streams that aren't attached. It is attached as a link is.
    #[tactic(auto, using(crate::proofs::Told::not_told))]
    pub fn new(alloc: Global, peers: u8, streams: T) -> Result<StreamLink<T>, AllocError>
    where
        T: Drop,
        ensures streams { IfOk result (λ l. l.framed.streams ≡ streams) }
        ensures peers { IfOk result (λ l. l.framed.peers ≡ peers) }
        ensures lines { IfOk result (λ l. l.framed.framer.lines.items ≡ replicate (peers + 64) fresh_line) }
        ensures over { IfOk result (λ l. l.framed.is_over ≡ false) }
        ensures ready { IfOk result (λ l. l.framed.framer.ready ≡ None) }
        ensures faults { IfOk result (λ l. (l.framed.faults ≡ 0) × (l.framed.send_faults ≡ 0)) }
    {
        Ok(StreamLink {
            framed: Framed::new(alloc, peers, streams)?,
            is_told: false,
        })
    }

    /// A link over streams of which nothing was asked: it tells its receives.
    #[tactic(auto, using(crate::proofs::Told::made_told))]
    pub fn over_new(alloc: Global, peers: u8, streams: T) -> Result<StreamLink<T>, AllocError>
    where
        T: Drop,
        requires unasked { IsUnasked (T.calls streams) (T.polled streams) }
        ensures streams { IfOk result (λ l. l.framed.streams ≡ streams) }
        ensures peers { IfOk result (λ l. l.framed.peers ≡ peers) }
        ensures lines { IfOk result (λ l. l.framed.framer.lines.items ≡ replicate (peers + 64) fresh_line) }
        ensures over { IfOk result (λ l. l.framed.is_over ≡ false) }
        ensures ready { IfOk result (λ l. l.framed.framer.ready ≡ None) }
        ensures faults { IfOk result (λ l. (l.framed.faults ≡ 0) × (l.framed.send_faults ≡ 0)) }
        ensures told { IfOk result (λ l. l.is_told ≡ true) }
    {
        Ok(StreamLink {
            framed: Framed::new(alloc, peers, streams)?,
            is_told: true,
        })
    }
}

impl<T: Streams> Link for StreamLink<T> {
    ghost use Rattle.vr_base.specs.Causes.{HasCause, Rose};
    ghost use Rattle.vr_edge.specs.Attaching.{attached_by, texts_of};
    ghost use Rattle.vr_edge.specs.Datagrams.{sent_by, received_by};
    ghost use Rattle.vr_edge.specs.Told.{Grows, IsNothing};
    ghost use Rattle.vr_stream.specs.Attaching.{IsAttach, attached_told};
    ghost use Rattle.vr_stream.specs.Heard.{told_if};
    ghost use Rattle.vr_stream.specs.Receiving.{IsReceived};
    ghost use Rattle.vr_stream.specs.Sending.{Sends, sent_told};

    ghost attached = { λ l. attached_told l.framed.is_over (T.attaches l.framed.streams) };

    ghost sent = { λ l. sent_told (T.written l.framed.streams) };

    ghost received = { λ l. told_if l.is_told (framing l.framed.framer) (T.polled l.framed.streams) };

    ghost waiting = { λ l. None };

    ghost faults = { λ l. l.framed.faults };

    ghost send_faults = { λ l. l.framed.send_faults };

    #[tactic(auto, using(crate::proofs::Told::told_still, crate::proofs::Told::received_still, crate::proofs::Attached::attached_more))]
    fn attach(&mut self, own: &str, peers: &Vec<String>) -> Result<(), LinkFailed>
        ensures cause { HasCause self.old.framed.faults self.new.framed.faults result }
        ensures attached { Grows (⟦<StreamLink<T> as Link>⟧.attached self.old) (⟦<StreamLink<T> as Link>⟧.attached self.new) (attached_by own.now (texts_of peers.now.items) result ∷ []) }
        ensures sent { ⟦<StreamLink<T> as Link>⟧.sent self.new ≡ ⟦<StreamLink<T> as Link>⟧.sent self.old }
        ensures received { ⟦<StreamLink<T> as Link>⟧.received self.new ≡ ⟦<StreamLink<T> as Link>⟧.received self.old }
        ensures others { self.new.framed.send_faults ≡ self.old.framed.send_faults }
        ensures made { (self.new.framed.peers ≡ self.old.framed.peers) × (self.new.is_told ≡ self.old.is_told) }
        ensures asked { IsAttach self.old.framed.peers (vec_len peers.now) own.now (texts_of peers.now.items) self.old.framed.is_over self.new.framed.is_over (T.attaches self.old.framed.streams) (T.attaches self.new.framed.streams) result }
        ensures few { OnOk result (vec_len peers.now ≤ self.old.framed.peers) }
        ensures reached { OnOk result (T.attached self.new.framed.streams ≡ vec_len peers.now) }
        ensures failed { OnErr result ((self.old.framed.peers < vec_len peers.now) ⊎ Rose (T.faults self.old.framed.streams) (T.faults self.new.framed.streams)) }
        ensures framing { self.new.framed.framer ≡ self.old.framed.framer }
        ensures calls { T.calls self.new.framed.streams ≡ T.calls self.old.framed.streams }
        ensures polled { T.polled self.new.framed.streams ≡ T.polled self.old.framed.streams }
    {
        self.framed.attach(own, peers)
    }

    fn send(&mut self, to: u32, bytes: &[u8]) -> Result<(), LinkFailed>
        ensures cause { HasCause self.old.framed.send_faults self.new.framed.send_faults result }
        ensures attached { ⟦<StreamLink<T> as Link>⟧.attached self.new ≡ ⟦<StreamLink<T> as Link>⟧.attached self.old }
        ensures sent { Grows (⟦<StreamLink<T> as Link>⟧.sent self.old) (⟦<StreamLink<T> as Link>⟧.sent self.new) (sent_by to bytes.now result ∷ []) }
        ensures received { ⟦<StreamLink<T> as Link>⟧.received self.new ≡ ⟦<StreamLink<T> as Link>⟧.received self.old }
        ensures others { self.new.framed.faults ≡ self.old.framed.faults }
        ensures made { (self.new.framed.peers ≡ self.old.framed.peers) × (self.new.is_told ≡ self.old.is_told) }
        ensures sends { Sends to bytes.now (framing self.old.framed.framer) (T.calls self.old.framed.streams) (T.written self.old.framed.streams) (framing self.new.framed.framer) (T.calls self.new.framed.streams) (T.written self.new.framed.streams) }
        ensures polled { T.polled self.new.framed.streams ≡ T.polled self.old.framed.streams }
    {
        self.framed.send(to, bytes)
    }

    fn receive(&mut self, to: &mut Vec<u8>) -> Result<Received, LinkFailed>
        requires { RECEIVE_ROOM ≤ vec_capacity to.old }
        ensures cause { HasCause self.old.framed.faults self.new.framed.faults result }
        ensures attached { ⟦<StreamLink<T> as Link>⟧.attached self.new ≡ ⟦<StreamLink<T> as Link>⟧.attached self.old }
        ensures quiet { IfOk result (λ r. r ≡ Received.Quiet → IsNothing (⟦<StreamLink<T> as Link>⟧.waiting self.old)) }
        ensures sent { ⟦<StreamLink<T> as Link>⟧.sent self.new ≡ ⟦<StreamLink<T> as Link>⟧.sent self.old }
        ensures received { Grows (⟦<StreamLink<T> as Link>⟧.received self.old) (⟦<StreamLink<T> as Link>⟧.received self.new) (received_by result to.new.items ∷ []) }
        ensures room { RECEIVE_ROOM ≤ vec_capacity to.new }
        ensures others { self.new.framed.send_faults ≡ self.old.framed.send_faults }
        // one that told its receives tells them still, where its streams do
        ensures told { self.new.is_told ≡ self.old.is_told }
        ensures most { self.new.framed.peers ≡ self.old.framed.peers }
        ensures heard { IsReceived (framing self.old.framed.framer) (T.calls self.old.framed.streams) (T.polled self.old.framed.streams) (framing self.new.framed.framer) (T.calls self.new.framed.streams) (T.polled self.new.framed.streams) to.new.items result }
    {
        self.framed.receive(to)
    }
}
