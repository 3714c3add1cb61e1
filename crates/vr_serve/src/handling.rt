//! One event.
ghost use Rattle.std.specs.Prelude.{◌≡◌, [], ◌∷◌, true};
ghost use Rattle.vr_serve.specs.Events.{event_of};
ghost use Rattle.vr_serve.specs.Serving.{Handles};

use crate::clients::hear;
use crate::objects::Objects;
use crate::post::Post;
use crate::{Member, Stop};
use std::alloc::Global;
use vr_base::Seq;
use vr_disk::SectorDisk;
use vr_edge::{Link, Sink};
use vr_msg::{Event, Frame, Message};

/// A request is the event `Request`; any other message, a reply too, is delivered as it is.
pub fn event_of(message: Message) -> Event
    ensures { result ≡ event_of message }
{
    match message.into_frame() {
        Frame::Request(request) => Event::Request(request),
        frame => Event::Deliver(Message::new(frame)),
    }
}

/// One event from a port, in this order: a request's client is put in front of those heard, one step is done, its text written
/// whole, its datagrams sent. An `Err` before the step is `NoMemory`, and disk, sink and link are as they were. One out of the
/// step leaves the disk as that halt does, with nothing put out; one after it put a front out, no datagram before the whole
/// text. Nothing is received or attached, so it is never `Link`; disk or sink count one fault more where the `Err` names them,
/// and else none.
#[tactic(auto, using(std::proofs::lemmas::Grind::common_steps, crate::proofs::Running::passed_one, crate::proofs::Ending::causes_put, crate::proofs::Ending::causes_halted))]
pub fn handle<M: Member, D: SectorDisk, K: Sink, L: Link>(
    alloc: Global,
    objects: &mut Objects<M, D, K, L>,
    post: &mut Post,
    port: u32,
    event: &Event,
) -> Result<(), Stop>
    requires { M.runs objects.old.member.now ≡ true }
    ensures { Handles M.Member D.SectorDisk K.Sink L.Link objects.old objects.new post.old post.new (record { port = port; event = event.now } ∷ []) result }
{
    hear(&mut post.clients, port, event)?;
    let mut outputs = Seq::new(alloc);
    objects
        .member
        .step(alloc, objects.disk, event, &mut outputs)?;
    post.put_out(objects.sink, objects.link, outputs)
}
