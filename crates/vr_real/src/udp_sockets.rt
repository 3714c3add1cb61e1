//! The sockets of a link over datagrams: one, or one for members and one for clients alone.
ghost use Rattle.std.specs.Prelude.{IfOk};
ghost use Rattle.std.specs.Counts.{IsPrefixLen};

use mio::{Events, Interest, Poll, Token};
use std::alloc::Global;
use std::io;
use std::io::ErrorKind;
use std::net::{Net, SocketAddr, UdpSocket};
use std::time::Duration;
use vr_io_policy::Door;

/// How long a receive is to wait for a datagram. The system may round it up to one of its own ticks, and one more:
/// 4 become 8 where it has 250 of them a second, which is at most the 10 that a receive may take.
const WAIT_MILLIS: u64 = 4;

/// An address, and the door at which it is heard and answered.
#[derive(Clone, Copy, PartialEq, Eq)]
pub struct Way {
    pub address: SocketAddr,
    pub door: Door,
}

/// A socket at each door, and a wait for both. No receive of them waits by itself.
#[derive(Drop)]
pub struct Pair {
    poll: Poll,
    events: Events,
    own: mio::net::UdpSocket,
    clients: mio::net::UdpSocket,
    /// At which door is looked first: not at that of the last datagram.
    first: Door,
}

/// The sockets that are open.
#[derive(Drop)]
pub enum Sockets {
    /// One at the own door, whose receives wait a little.
    One(UdpSocket),
    /// One at each.
    Two(Pair),
}

// The other door.
fn other(door: Door) -> Door {
    match door {
        Door::Own => Door::Clients,
        Door::Clients => Door::Own,
    }
}

// Whether a receive that doesn't wait found nothing.
fn is_empty(error: &io::Error) -> bool {
    error.kind() == ErrorKind::WouldBlock
}

// A socket of which the poll tells by this number.
fn watched<R: Net>(
    net: &R,
    poll: &Poll,
    address: SocketAddr,
    number: usize,
) -> io::Result<mio::net::UdpSocket> {
    let mut socket = mio::net::UdpSocket::bind(net, address)?;
    poll.registry()
        .register(&mut socket, Token(number), Interest::READABLE)?;
    Ok(socket)
}

impl Pair {
    // Opens both.
    fn open<R: Net>(
        alloc: Global,
        net: &R,
        own: SocketAddr,
        clients: SocketAddr,
    ) -> io::Result<Pair> {
        let poll = Poll::new(net)?;
        let own = watched(net, &poll, own, 0)?;
        let clients = watched(net, &poll, clients, 1)?;
        Ok(Pair {
            poll,
            events: Events::with_capacity(alloc, 2)?,
            own,
            clients,
            first: Door::Own,
        })
    }

    // What waits at one door.
    fn look_at(&self, door: Door, room: &mut [u8]) -> io::Result<(usize, SocketAddr)>
        ensures { IfOk result (λ r. IsPrefixLen r.0 room.new) }
    {
        match door {
            Door::Own => self.own.recv_from(room),
            Door::Clients => self.clients.recv_from(room),
        }
    }

    // What waits at a door; then the other one is the first at which is looked.
    fn take_at(&mut self, door: Door, room: &mut [u8]) -> io::Result<(usize, Way)>
        ensures { IfOk result (λ r. IsPrefixLen r.0 room.new) }
    {
        let (count, address) = self.look_at(door, room)?;
        self.first = other(door);
        Ok((count, Way { address, door }))
    }

    // What waits at the first door, and where nothing does at the other one.
    fn look(&mut self, room: &mut [u8]) -> io::Result<(usize, Way)>
        ensures { IfOk result (λ r. IsPrefixLen r.0 room.new) }
    {
        let first = self.first;
        match self.take_at(first, room) {
            Err(error) if is_empty(&error) => self.take_at(other(first), room),
            taken => taken,
        }
    }

    // What waits at one of them, or comes within a little time.
    fn receive(&mut self, room: &mut [u8]) -> io::Result<(usize, Way)>
        ensures { IfOk result (λ r. IsPrefixLen r.0 room.new) }
    {
        match self.look(room) {
            Err(error) if is_empty(&error) => {
                let wait = Duration::from_millis(WAIT_MILLIS);
                self.poll.poll(&mut self.events, Some(wait))?;
                self.look(room)
            }
            looked => looked,
        }
    }

    // Sends from the socket at the way's door.
    fn send(&self, bytes: &[u8], way: Way) -> io::Result<usize> {
        match way.door {
            Door::Own => self.own.send_to(bytes, way.address),
            Door::Clients => self.clients.send_to(bytes, way.address),
        }
    }
}

// A socket at the own address, whose receives wait a little.
fn bind<R: Net>(net: &R, own: SocketAddr) -> io::Result<UdpSocket> {
    let socket = UdpSocket::bind(net, own)?;
    socket.set_read_timeout(Some(Duration::from_millis(WAIT_MILLIS)))?;
    Ok(socket)
}

impl Sockets {
    /// Opens one at the own address, and one at that for clients where there is one.
    pub fn open<R: Net>(
        alloc: Global,
        net: &R,
        own: SocketAddr,
        clients: Option<SocketAddr>,
    ) -> io::Result<Sockets> {
        match clients {
            Some(clients) => Ok(Sockets::Two(Pair::open(alloc, net, own, clients)?)),
            None => Ok(Sockets::One(bind(net, own)?)),
        }
    }

    /// The bytes of the next datagram, how many they are, and on which way it came.
    pub fn receive(&mut self, room: &mut [u8]) -> io::Result<(usize, Way)>
        ensures { IfOk result (λ r. IsPrefixLen r.0 room.new) }
    {
        match self {
            Sockets::One(socket) => {
                let (count, address) = socket.recv_from(room)?;
                let door = Door::Own;
                Ok((count, Way { address, door }))
            }
            Sockets::Two(pair) => pair.receive(room),
        }
    }

    /// Sends a datagram on a way, from the socket at its door.
    pub fn send(&self, bytes: &[u8], way: Way) -> io::Result<usize> {
        match self {
            Sockets::One(socket) => socket.send_to(bytes, way.address),
            Sockets::Two(pair) => pair.send(bytes, way),
        }
    }
}
