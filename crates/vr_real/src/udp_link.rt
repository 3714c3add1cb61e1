//! A link over a socket of datagrams.
ghost use Rattle.std.specs.Prelude.{◌≡◌, ◌≤◌, IfSome, IsOk, MatchOption, None, false, true, is_some, length, vec_capacity};
ghost use Rattle.std.specs.List.{position};
ghost use Rattle.std.specs.Net.Socket.{socket_ip};
ghost use Rattle.vr_io_policy.specs.Answers.{after, passes};
ghost use Rattle.vr_io_policy.specs.Origins.{is_taken, origin_of};
ghost use Rattle.vr_io_policy.specs.Receivers.{receiver_of};
ghost use Rattle.vr_io_policy.specs.Senders.{address_at};

use crate::addresses::{address_of, addresses_of, has_clients};
use crate::udp_sockets::{Sockets, Way};
use std::alloc::{AllocError, Global};
use std::io;
use std::io::ErrorKind;
use std::net::{IpAddr, Ipv4Addr, Ipv6Addr, Net, SocketAddr};
use std::time::Clock;
use vr_edge::{Link, LinkFailed, RECEIVE_ROOM, Received};
use vr_io_policy::{
    Answers, Door, NOBODY, Ports, Receiver, counted, is_answer, is_taken, millis_of,
};

/// The bytes of a header, and where the message's size stands in it.
const HEADER: usize = 128;

const SIZE_AT: usize = 104;

/// Datagrams over UDP. It tells nothing. A receive waits at most ten milliseconds; the ports of the peers are those of
/// their addresses, and the 64 other senders that were heard last have ports after them, of which a new one takes that of
/// the one that was heard longest ago. A sender that isn't heard, since what it sent can't be a message, has the port of nobody.
/// An answer that `vr_io_policy` holds back, since it went there just before, is lost, as any datagram may be. So is what isn't taken of its sender:
/// members' messages from addresses of the list alone. Where the own word names an address for clients too, requests alone are taken there, and
/// answers to them go out from there.
pub struct UdpLink<R> {
    alloc: Global,
    net: R,
    sockets: Option<Sockets>,
    ports: Ports<Way>,
    answers: Answers<IpAddr>,
    /// The milliseconds of the clock, as it was looked at last.
    now: u64,
    room: Vec<u8>,
    faults: u64,
    send_faults: u64,
}

// By hand, so that a function that lets one go calls this, in place of spelling out each field.
impl<R: Drop> Drop for UdpLink<R> {
    fn drop(self) {
        let UdpLink {
            alloc: _,
            net: _,
            sockets: _,
            ports: _,
            answers: _,
            now: _,
            room: _,
            faults: _,
            send_faults: _,
        } = self;
    }
}

/// The own address; without one, any of the kind that the peers have.
fn own_address<R: Net>(net: &R, own: &str, peers: &Vec<SocketAddr>) -> io::Result<SocketAddr> {
    if !own.is_empty() {
        return address_of(net, "", own, Door::Own);
    }
    match peers.first() {
        Some(SocketAddr::V6(_)) => Ok(SocketAddr::new(IpAddr::V6(Ipv6Addr::UNSPECIFIED), 0)),
        _ => Ok(SocketAddr::new(IpAddr::V4(Ipv4Addr::UNSPECIFIED), 0)),
    }
}

/// The address for clients alone, where the own word names one.
fn clients_address<R: Net>(net: &R, own: &str) -> io::Result<Option<SocketAddr>> {
    if !has_clients(own) {
        return Ok(None);
    }
    Ok(Some(address_of(net, "", own, Door::Clients)?))
}

/// The ways to the peers.
fn ways_of(alloc: Global, peers: &Vec<SocketAddr>) -> Result<Vec<Way>, AllocError> {
    let door = Door::Own;
    let mut ways = Vec::new(alloc);
    for address in peers.iter() {
        ways.push(Way {
            address: *address,
            door,
        })?;
    }
    Ok(ways)
}

/// Whether nothing was there to be received.
fn is_quiet(error: &io::Error) -> bool {
    matches!(
        error.kind(),
        ErrorKind::WouldBlock | ErrorKind::TimedOut | ErrorKind::Interrupted
    )
}

/// Whether a datagram may be a message, by its length alone: that of a header or more, and the size that stands in it.
fn may_be_message(bytes: &[u8]) -> bool {
    if bytes.len() < HEADER || bytes.len() >= RECEIVE_ROOM {
        return false;
    }
    match bytes.get(SIZE_AT..SIZE_AT + 4) {
        Some([a, b, c, d]) => u32::from_be_bytes([*a, *b, *c, *d]) as usize == bytes.len(),
        _ => false,
    }
}

/// The port of the sender of a datagram that came at a door; `None` where it isn't taken.
fn port_of<A: Copy + PartialEq>(
    ports: &mut Ports<A>,
    door: Door,
    address: A,
    bytes: &[u8],
) -> Option<u32>
    ensures { IfSome result (λ _. is_taken (origin_of door (is_some (position (λ p. A.eq p address) ports.old.peers.items))) bytes.now ≡ true) }
{
    if !is_taken(ports.origin(door, address), bytes) {
        return None;
    }
    match ports.peer(address) {
        Some(port) => Some(port),
        None if may_be_message(bytes) => Some(ports.other(address)),
        None => Some(NOBODY),
    }
}

impl<R: Drop> UdpLink<R> {
    /// A link without its sockets, which `attach` opens through `net`.
    pub fn new(alloc: Global, net: R) -> Result<UdpLink<R>, AllocError> {
        let ports = Ports::new(alloc, Vec::new(alloc))?;
        Ok(UdpLink {
            alloc,
            net,
            sockets: None,
            ports,
            answers: Answers::new(alloc)?,
            now: 0,
            room: Vec::from_elem(alloc, 0, RECEIVE_ROOM)?,
            faults: 0,
            send_faults: 0,
        })
    }

    /// Receives into its own room, and copies what came. It returns the sender's port, none where it isn't taken.
    fn receive_from(&mut self, to: &mut Vec<u8>) -> io::Result<Option<u32>>
        requires { RECEIVE_ROOM ≤ vec_capacity to.old }
        ensures room { RECEIVE_ROOM ≤ vec_capacity to.new }
        ensures faults { self.new.faults ≡ self.old.faults }
        ensures others { self.new.send_faults ≡ self.old.send_faults }
    {
        to.clear();
        let Some(sockets) = &mut self.sockets else {
            return Err(io::Error::from(ErrorKind::NotConnected));
        };
        let (count, way) = sockets.receive(&mut self.room)?;
        let bytes = &self.room[..count.min(RECEIVE_ROOM)];
        to.extend_from_slice(bytes).unwrap();
        Ok(port_of(&mut self.ports, way.door, way, bytes))
    }
}

impl<R: Clock + Drop> UdpLink<R> {
    /// Whether a message to this port, of this address, is to be sent: no answer that went there just before, by the time that was read.
    fn lets(&mut self, to: u32, address: SocketAddr, bytes: &[u8]) -> bool
        ensures result { result ≡ passes ⟦<IpAddr as PartialEq>⟧.eq bytes.now (receiver_of (length self.old.ports.peers.items) to (socket_ip address)) self.new.now self.old.answers }
        ensures answers { self.new.answers ≡ after ⟦<IpAddr as PartialEq>⟧.eq bytes.now (receiver_of (length self.old.ports.peers.items) to (socket_ip address)) self.new.now self.old.answers }
        ensures faults { self.new.faults ≡ self.old.faults }
        ensures others { self.new.send_faults ≡ self.old.send_faults }
    {
        if is_answer(bytes) {
            self.now = millis_of(self.net.monotonic(), self.now);
        }
        let to = Receiver::of(to, self.ports.peers.len(), address.ip());
        self.answers.lets(bytes, to, self.now)
    }

    /// Sends to the address of a port, unless it is an answer that is held back.
    fn send_to(&mut self, to: u32, bytes: &[u8]) -> io::Result<()>
        ensures answers { MatchOption (address_at self.old.ports.peers.items self.old.ports.others.items to) (self.new.answers ≡ self.old.answers)
            (λ way. self.new.answers ≡ after ⟦<IpAddr as PartialEq>⟧.eq bytes.now (receiver_of (length self.old.ports.peers.items) to (socket_ip way.address)) self.new.now self.old.answers) }
        ensures held { IfSome (address_at self.old.ports.peers.items self.old.ports.others.items to) (λ way.
            passes ⟦<IpAddr as PartialEq>⟧.eq bytes.now (receiver_of (length self.old.ports.peers.items) to (socket_ip way.address)) self.new.now self.old.answers ≡ false → IsOk result) }
        ensures faults { self.new.faults ≡ self.old.faults }
        ensures others { self.new.send_faults ≡ self.old.send_faults }
    {
        let Some(way) = self.ports.address(to) else {
            return Err(io::Error::from(ErrorKind::NotConnected));
        };
        if !self.lets(to, way.address, bytes) {
            return Ok(());
        }
        let Some(sockets) = &self.sockets else {
            return Err(io::Error::from(ErrorKind::NotConnected));
        };
        sockets.send(bytes, way)?;
        Ok(())
    }
}

impl<R: Net + Drop> UdpLink<R> {
    /// Opens the sockets, and takes the peers.
    fn open(&mut self, own: &str, peers: &Vec<String>) -> io::Result<()>
        ensures faults { self.new.faults ≡ self.old.faults }
        ensures others { self.new.send_faults ≡ self.old.send_faults }
    {
        let peers = addresses_of(self.alloc, &self.net, "", own, peers)?;
        let address = own_address(&self.net, own, &peers)?;
        let clients = clients_address(&self.net, own)?;
        let ports = Ports::new(self.alloc, ways_of(self.alloc, &peers)?)?;
        self.sockets = Some(Sockets::open(self.alloc, &self.net, address, clients)?);
        self.ports = ports;
        Ok(())
    }
}

impl<R: Net + Clock + Drop> Link for UdpLink<R> {
    ghost attached = { λ _. None };

    ghost sent = { λ _. None };

    ghost received = { λ _. None };

    ghost waiting = { λ _. None };

    ghost faults = { λ l. l.faults };

    ghost send_faults = { λ l. l.send_faults };

    fn attach(&mut self, own: &str, peers: &Vec<String>) -> Result<(), LinkFailed> {
        let opened = self.open(own, peers);
        counted(opened, &mut self.faults, LinkFailed)
    }

    fn send(&mut self, to: u32, bytes: &[u8]) -> Result<(), LinkFailed> {
        let sent = self.send_to(to, bytes);
        counted(sent, &mut self.send_faults, LinkFailed)
    }

    fn receive(&mut self, to: &mut Vec<u8>) -> Result<Received, LinkFailed> {
        match self.receive_from(to) {
            Ok(Some(port)) => Ok(Received::Datagram(port)),
            Ok(None) => Ok(Received::Part),
            Err(error) if is_quiet(&error) => Ok(Received::Quiet),
            Err(error) => counted(Err(error), &mut self.faults, LinkFailed),
        }
    }
}
