//! The streams at their ports: which of them may have something. Which gives its place up to another one `vr_io_policy` decides.
ghost use Rattle.std.specs.Prelude.{◌≡◌, ◌≤◌, ◌+◌, ℕ, IfOk, IfSome, length, vec_len};
ghost use Rattle.vr_edge.specs.Streaming.{IsPolled, IsPort};

use crate::stream_options::watch;
use mio::net::{TcpListener, TcpStream};
use mio::{Events, Interest, Poll, Token};
use std::alloc::{AllocError, Global};
use std::io;
use std::io::{ErrorKind, Read, Write};
use std::net::{IpAddr, SocketAddr};
use vr_edge::{Polled, STREAM_ROOM};
use vr_io_policy::{Door, Origin, Places, number};

/// The number by which the system tells that streams wait to be taken in at the own address; at that for clients the next one.
pub const ENTRANCE: usize = 1_000_000;

/// How much later than the last one a stream to a peer is begun.
const AGAIN_MILLIS: u64 = 1000;

/// The stream at a port, at first none.
#[derive(Drop)]
pub struct Slot {
    stream: Option<TcpStream>,
    /// Where it comes from.
    origin: Origin,
    /// Whether something may be there to be read.
    ready: bool,
    /// Whether it has taken bytes: one that is being made takes none.
    stands: bool,
    /// Whether the stream before it was ended here, which no poll has told yet.
    over: bool,
    /// The milliseconds of the clock when a stream to the peer of this port was begun last; `None` where one may be begun at once.
    begun: Option<u64>,
}

/// So many ports without a stream.
pub fn empty_slots(alloc: Global, count: usize) -> Result<Vec<Slot>, AllocError>
    ensures { IfOk result (λ slots. vec_len slots ≡ count) }
{
    let mut slots = Vec::new(alloc);
    for _ in 0..count {
        slots.push(Slot::new())?;
    }
    Ok(slots)
}

impl Slot {
    /// One without a stream.
    fn new() -> Slot {
        Slot {
            stream: None,
            origin: Origin::Stranger,
            ready: false,
            stands: false,
            over: false,
            begun: None,
        }
    }

    /// The stream is there no more, and no poll has to tell so.
    pub fn leave(&mut self) {
        self.stream = None;
        self.ready = false;
        self.over = false;
    }

    /// Takes a stream in the place of what it had.
    fn put(&mut self, stream: TcpStream, origin: Origin) {
        self.over = self.over || self.stream.is_some();
        self.stream = Some(stream);
        self.origin = origin;
        self.ready = false;
        self.stands = false;
    }

    /// Whether its stream is made.
    fn stands(&self) -> bool {
        match &self.stream {
            Some(stream) => self.stands || stream.peer_addr().is_ok(),
            None => false,
        }
    }

    /// Whether a stream to the peer of this port is to be begun. Then that counts as begun now.
    fn begins(&mut self, now: u64) -> bool {
        if let Some(begun) = self.begun {
            if now.saturating_sub(begun) < AGAIN_MILLIS {
                return false;
            }
        }
        if self.stands() {
            return false;
        }
        self.begun = Some(now);
        true
    }

    /// Gives its stream bytes. Where that fails, the next poll looks whether it has ended.
    fn write(&mut self, bytes: &[u8]) -> io::Result<usize>
        ensures { IfOk result (λ count. count ≤ length bytes.now) }
    {
        let Some(stream) = &mut self.stream else {
            return Err(io::Error::from(ErrorKind::NotConnected));
        };
        let written = stream.write(bytes);
        match &written {
            Ok(_) => self.stands = true,
            Err(_) => self.ready = true,
        }
        written
    }

    /// What its stream has; `None` where nothing is there.
    fn read(&mut self, port: u32, to: &mut [u8]) -> Option<Polled>
        requires { length to.old ≡ STREAM_ROOM }
        ensures { (peers : ℕ) → IsPort peers port → IfSome result (IsPolled peers) }
    {
        if self.over {
            self.over = false;
            return Some(Polled::Ended(port));
        }
        if !self.ready {
            return None;
        }
        let Some(stream) = &mut self.stream else {
            self.ready = false;
            return None;
        };
        match stream.read(to) {
            Ok(0) => {
                self.leave();
                Some(Polled::Ended(port))
            }
            Ok(count) => Some(Polled::Bytes(port, count as u32)),
            Err(error) if error.kind() == ErrorKind::WouldBlock => {
                self.ready = false;
                None
            }
            Err(error) if error.kind() == ErrorKind::Interrupted => None,
            Err(_) => {
                self.leave();
                Some(Polled::Ended(port))
            }
        }
    }
}

/// What one of the streams has, the first one from a place on.
pub fn read_ready(slots: &mut Vec<Slot>, next: &mut usize, to: &mut [u8]) -> Option<Polled>
    requires { length to.old ≡ STREAM_ROOM }
    ensures bound { (peers : ℕ) → vec_len slots.old ≤ peers + 64 → IfSome result (IsPolled peers) }
    ensures same { vec_len slots.new ≡ vec_len slots.old }
{
    let count = slots.len();
    for _ in 0..count {
        let at = if *next < count { *next } else { 0 };
        *next = at.saturating_add(1);
        if let Some(slot) = slots.get_mut(at) {
            if let Some(polled) = slot.read(number(at), to) {
                return Some(polled);
            }
        }
    }
    None
}

/// Notes at which ports something may be there, and says whether streams wait to be taken in.
pub fn note(events: &Events, slots: &mut Vec<Slot>) -> bool
    ensures { vec_len slots.new ≡ vec_len slots.old }
{
    let mut waiting = false;
    for event in events.iter() {
        let Token(at) = event.token();
        waiting = waiting || at >= ENTRANCE;
        if let Some(slot) = slots.get_mut(at) {
            slot.ready = true;
        }
    }
    waiting
}

/// Puts a stream at a port. Something may be there already.
pub fn put_stream(slots: &mut Vec<Slot>, at: usize, stream: TcpStream, origin: Origin)
    ensures { vec_len slots.new ≡ vec_len slots.old }
{
    if let Some(slot) = slots.get_mut(at) {
        slot.put(stream, origin);
        slot.ready = true;
    }
}

/// Gives the stream at a port bytes.
pub fn write_at(slots: &mut Vec<Slot>, at: usize, bytes: &[u8]) -> io::Result<usize>
    ensures bound { IfOk result (λ count. count ≤ length bytes.now) }
    ensures same { vec_len slots.new ≡ vec_len slots.old }
{
    match slots.get_mut(at) {
        Some(slot) => slot.write(bytes),
        None => Err(io::Error::from(ErrorKind::NotConnected)),
    }
}

/// Whether the stream at a port is known to be made.
pub fn stands_at(slots: &Vec<Slot>, at: usize) -> bool {
    slots
        .get(at)
        .is_some_and(|slot| slot.stands && slot.stream.is_some())
}

/// Whether a stream to the peer of a port is to be begun. Then that counts as begun now.
pub fn begins_at(slots: &mut Vec<Slot>, at: usize, now: u64) -> bool
    ensures { vec_len slots.new ≡ vec_len slots.old }
{
    match slots.get_mut(at) {
        Some(slot) => slot.begins(now),
        None => false,
    }
}

/// Whether no stream is at a port.
pub fn is_free(slots: &Vec<Slot>, at: usize) -> bool {
    slots.get(at).is_some_and(|slot| slot.stream.is_none())
}

/// Where what comes at a port comes from.
pub fn origin_at(slots: &Vec<Slot>, at: usize) -> Origin {
    match slots.get(at) {
        Some(slot) => slot.origin,
        None => Origin::Stranger,
    }
}

// Whether one of these addresses is on this machine.
fn is_listed(peers: &Vec<SocketAddr>, from: IpAddr) -> bool {
    peers.iter().any(|peer| peer.ip() == from)
}

// Whether no stream speaks for the member at this place of the list of peers.
fn is_silent(places: &Places, at: usize) -> bool {
    match u8::try_from(at) {
        Ok(member) => !places.is_heard(member),
        Err(_) => false,
    }
}

/// Whether a stream from an address may be that of a member other than the own one: of one on that machine for whom none speaks yet. Where a
/// peer is on it, that machine is there, and streams to peers on it may be begun at once.
fn meet(
    slots: &mut Vec<Slot>,
    peers: &Vec<SocketAddr>,
    places: &Places,
    own: Option<SocketAddr>,
    from: IpAddr,
) -> bool
    ensures { vec_len slots.new ≡ vec_len slots.old }
{
    let mut near = false;
    for at in 0..peers.len() {
        if let (Some(peer), Some(slot)) = (peers.get(at), slots.get_mut(at)) {
            if peer.ip() == from {
                slot.begun = None;
                near = near || (own != Some(*peer) && is_silent(places, at));
            }
        }
    }
    near
}

/// What is known of a stream that comes.
#[derive(Clone, Copy)]
struct Comer {
    /// Whether it may be that of a member.
    near: bool,
    origin: Origin,
}

/// What is known of a stream from an address that comes at a door. One from the machine of an address of the list may be a member's.
fn meet_at(
    slots: &mut Vec<Slot>,
    peers: &Vec<SocketAddr>,
    places: &Places,
    listener: &TcpListener,
    door: Door,
    from: IpAddr,
) -> Comer
    ensures { vec_len slots.new ≡ vec_len slots.old }
{
    let origin = door.origin(is_listed(peers, from));
    let near = match origin {
        Origin::Member => meet(slots, peers, places, listener.local_addr().ok(), from),
        _ => false,
    };
    Comer { near, origin }
}

/// Takes a stream in where there is a place for it, and lets it go where there is none.
fn seat(
    poll: &Poll,
    slots: &mut Vec<Slot>,
    places: &mut Places,
    peers: &Vec<SocketAddr>,
    mut stream: TcpStream,
    comer: Comer,
    now: u64,
)
    ensures { vec_len slots.new ≡ vec_len slots.old }
{
    let Some(place) = places.place_for(comer.near, now) else {
        return;
    };
    let at = peers.len().saturating_add(place);
    let registered = poll
        .registry()
        .register(&mut stream, Token(at), Interest::READABLE);
    if registered.is_ok() {
        let _ = stream.set_nodelay(true);
        watch(&stream);
        places.come(place, comer.near, now);
        put_stream(slots, at, stream, comer.origin);
    }
}

/// Takes in streams that wait at a door, at most so many, and says whether more may wait.
pub fn take_in(
    poll: &Poll,
    listener: &TcpListener,
    door: Door,
    most: usize,
    slots: &mut Vec<Slot>,
    places: &mut Places,
    peers: &Vec<SocketAddr>,
    now: u64,
) -> bool
    ensures { vec_len slots.new ≡ vec_len slots.old }
{
    for _ in 0..most {
        match listener.accept() {
            Ok((stream, from)) => {
                let comer = meet_at(slots, peers, places, listener, door, from.ip());
                seat(poll, slots, places, peers, stream, comer, now);
            }
            Err(error) => return error.kind() != ErrorKind::WouldBlock,
        }
    }
    true
}
