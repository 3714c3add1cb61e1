//! What the loop keeps of a run, and how it puts outputs out.
ghost use Rattle.std.specs.Prelude.{◌≡◌, ◌≤◌, [], IfOk, vec_capacity};
ghost use Rattle.vr_edge.specs.declared.link.TheConstants.{RECEIVE_ROOM};

use crate::Stop;
use crate::clients::Client;
use crate::output::{put_text, send_outputs};
use std::alloc::{AllocError, Global};
use vr_base::{ByteList, Seq};
use vr_edge::{Link, RECEIVE_ROOM, Sink, write_whole};
use vr_msg::Outbox;

/// What the loop keeps of a run, and its rooms.
#[derive(Drop)]
pub struct Post {
    /// The number of the next message.
    pub number: u64,
    /// The clients heard last, the latest first.
    pub clients: Vec<Client>,
    text: ByteList,
    bytes: Vec<u8>,
    /// Room for what comes.
    pub to: Vec<u8>,
    ghost room: { RECEIVE_ROOM ≤ vec_capacity to },
}

impl Post {
    ghost use Rattle.vr_serve.specs.Sending.{PutsOut};

    /// The next message has number 0, and no client was heard.
    pub fn new(alloc: Global) -> Result<Post, AllocError>
        ensures number { IfOk result (λ p. p.number ≡ 0) }
        ensures clients { IfOk result (λ p. p.clients.items ≡ []) }
    {
        Ok(Post {
            number: 0,
            clients: Vec::new(alloc),
            text: Seq::new(alloc),
            bytes: Vec::new(alloc),
            to: Vec::with_capacity(alloc, RECEIVE_ROOM)?,
        })
    }

    /// Writes the text of the outputs whole, and then sends their datagrams in order, replies to the clients heard; the number
    /// goes on after the messages. After an `Err` a front of that went out, no datagram before the whole text. It is `Write`,
    /// where the sink counts one fault more, or `NoMemory`, and never `Disk` or `Link`. The clients stay, and so do the link's
    /// receives, attaches and faults.
    #[tactic(auto, using(std::proofs::lemmas::Grind::common_steps, crate::proofs::Outputs::puts_none, crate::proofs::Outputs::puts_text, crate::proofs::Outputs::puts_sent))]
    pub fn put_out<K: Sink, L: Link>(
        &mut self,
        sink: &mut K,
        link: &mut L,
        outputs: Outbox,
    ) -> Result<(), Stop>
        ensures { PutsOut K.Sink L.Link self.old self.new sink.old sink.new link.old link.new outputs result }
    {
        self.text.clear();
        put_text(&mut self.number, outputs.as_slice(), &mut self.text)?;
        write_whole(sink, self.text.as_slice())?;
        send_outputs(link, &self.clients, outputs, &mut self.bytes)?;
        Ok(())
    }
}
