//! A link over datagrams or over streams, by its addresses: the program's is over UDP or over TCP.
ghost use Rattle.std.specs.Prelude.{◌≡◌, ◌≤◌, None, if◌then◌else◌, vec_capacity};
ghost use Rattle.vr_io_policy.specs.Origins.{is_taken};

use crate::tcp_streams::{PREFIX, TcpStreams};
use crate::udp_link::UdpLink;
use std::alloc::{AllocError, Global};
use std::net::Net;
use std::time::Clock;
use vr_edge::{Link, LinkFailed, RECEIVE_ROOM, Received, Streams};
use vr_io_policy::{Origin, counted, is_taken};
use vr_stream::StreamLink;

/// The most peers.
const PEERS: u8 = 6;

/// Which of the two a link is over.
#[derive(Clone, Copy, Debug, PartialEq, Eq)]
enum Over {
    Datagrams,
    Streams,
}

/// Who knows where what comes at a port comes from.
pub trait Origins {
    /// Where what comes at a port comes from.
    fn origin(&self, port: u32) -> Origin;
}

impl<R: Drop> Origins for TcpStreams<R> {
    fn origin(&self, port: u32) -> Origin {
        self.origin_of_port(port)
    }
}

impl<T: Streams + Origins> Origins for StreamLink<T> {
    fn origin(&self, port: u32) -> Origin {
        self.streams().origin(port)
    }
}

// A message that came at a port, where it is taken; else it is as if a part of one had come.
fn sifted(port: u32, origin: Origin, bytes: &[u8]) -> Received
    ensures { result ≡ (if is_taken origin bytes.now then Received.Datagram port else Received.Part) }
{
    if is_taken(origin, bytes) {
        Received::Datagram(port)
    } else {
        Received::Part
    }
}

// A receive over streams: a message that isn't taken of its sender is lost.
fn receive_taken<S: Link + Origins>(
    streams: &mut S,
    to: &mut Vec<u8>,
) -> Result<Received, LinkFailed>
    requires { RECEIVE_ROOM ≤ vec_capacity to.old }
    ensures { RECEIVE_ROOM ≤ vec_capacity to.new }
{
    match streams.receive(to) {
        Ok(Received::Datagram(port)) => Ok(sifted(port, streams.origin(port), to.as_slice())),
        received => received,
    }
}

/// The link over streams where all addresses begin with `tcp:`, that over datagrams where none does; otherwise it can't be
/// attached. Of what comes members' messages are taken from addresses of the list alone, and at an address for clients requests alone. It tells nothing.
pub struct RealLink<D, S> {
    datagrams: D,
    streams: S,
    over: Over,
    /// Counted here too: an attach may change which of the two is used, and each of them has counts of its own.
    faults: u64,
    send_faults: u64,
}

// By hand, so that a function that lets one go calls this, in place of spelling out each field.
impl<D: Drop, S: Drop> Drop for RealLink<D, S> {
    fn drop(self) {
        let RealLink {
            datagrams: _,
            streams: _,
            over: _,
            faults: _,
            send_faults: _,
        } = self;
    }
}

/// A link over UDP or over TCP.
pub type SocketLink<R> = RealLink<UdpLink<R>, StreamLink<TcpStreams<R>>>;

/// What these addresses ask for, `None` where they differ in it.
fn asked(own: &str, peers: &Vec<String>) -> Option<Over> {
    let streams = peers
        .iter()
        .filter(|peer| peer.as_str().starts_with(PREFIX))
        .count();
    let own_streams = own.starts_with(PREFIX);
    if streams == peers.len() && streams > 0 && (own.is_empty() || own_streams) {
        return Some(Over::Streams);
    }
    if streams == 0 && !own_streams {
        return Some(Over::Datagrams);
    }
    None
}

impl<R: Net + Drop + Copy> SocketLink<R>
where
    TcpStreams<R>: Streams,
{
    /// A link that isn't attached; `attach` opens it through `net`.
    pub fn new(alloc: Global, net: R) -> Result<SocketLink<R>, AllocError> {
        let streams = StreamLink::new(alloc, PEERS, TcpStreams::new(alloc, net)?)?;
        Ok(RealLink {
            datagrams: UdpLink::new(alloc, net)?,
            streams,
            over: Over::Datagrams,
            faults: 0,
            send_faults: 0,
        })
    }
}

impl<D: Link, S: Link + Origins> Link for RealLink<D, S> {
    ghost attached = { λ _. None };

    ghost sent = { λ _. None };

    ghost received = { λ _. None };

    ghost waiting = { λ _. None };

    ghost faults = { λ l. l.faults };

    ghost send_faults = { λ l. l.send_faults };

    fn attach(&mut self, own: &str, peers: &Vec<String>) -> Result<(), LinkFailed> {
        let attached = match asked(own, peers) {
            Some(Over::Datagrams) => {
                self.over = Over::Datagrams;
                self.datagrams.attach(own, peers)
            }
            Some(Over::Streams) => {
                self.over = Over::Streams;
                self.streams.attach(own, peers)
            }
            None => Err(LinkFailed),
        };
        counted(attached, &mut self.faults, LinkFailed)
    }

    fn send(&mut self, to: u32, bytes: &[u8]) -> Result<(), LinkFailed> {
        let sent = match self.over {
            Over::Datagrams => self.datagrams.send(to, bytes),
            Over::Streams => self.streams.send(to, bytes),
        };
        counted(sent, &mut self.send_faults, LinkFailed)
    }

    fn receive(&mut self, to: &mut Vec<u8>) -> Result<Received, LinkFailed> {
        let received = match self.over {
            Over::Datagrams => self.datagrams.receive(to),
            Over::Streams => receive_taken(&mut self.streams, to),
        };
        counted(received, &mut self.faults, LinkFailed)
    }
}
