//! Streams over TCP.
ghost use Rattle.std.specs.Prelude.{◌≡◌, ◌≤◌, ◌+◌, IfOk, IfSome, OnOk, OnErr, None, length, vec_len};
ghost use Rattle.vr_edge.specs.Streaming.{IsPolled};

use crate::addresses::{address_of, addresses_of, has_clients};
use crate::descriptors::has_descriptors;
use crate::slots::{
    ENTRANCE, Slot, begins_at, empty_slots, is_free, note, origin_at, put_stream, read_ready,
    stands_at, take_in, write_at,
};
use crate::stream_options::watch;
use mio::net::{TcpListener, TcpStream};
use mio::{Events, Interest, Poll, Token};
use std::alloc::{AllocError, Global};
use std::io;
use std::io::ErrorKind;
use std::net::{Net, SocketAddr};
use std::time::{Clock, Duration};
use vr_edge::{Polled, STREAM_ROOM, StreamFailed, Streams};
use vr_io_policy::{Door, Origin, PLACES, Places, counted, descriptors_wanted, millis_of};

/// How long a poll waits where nothing is there. The system may round it up to one of its own ticks, and one more.
const WAIT_MILLIS: u64 = 4;

/// How many pieces more are read, until the system is asked again what there is.
const ROUND: u32 = 4;

/// How many streams are taken in at once, at one door or at both: no more than are read until the next ones are.
const TAKEN: usize = 4;

/// What the address of a stream begins with.
pub const PREFIX: &str = "tcp:";

/// Streams over TCP. They tell nothing. A poll waits at most ten milliseconds. The stream to a peer is begun at an attach with an address
/// of one's own, and at each write to its port while it doesn't stand, but at most once a second as long as no stream comes from the peer's
/// machine; what is written before it stands is lost. One of which bytes aren't acknowledged for two seconds ends. Where 64 others are
/// there and one more comes, it takes the place that `vr_io_policy` gives it, or none. No stream is read for ever while others wait. An
/// attach with an address of one's own fails where the descriptors for all of them can't be had. A member's place is had by streams alone that come
/// from the machine of an address of the list; where the own word names an address for clients too, none of those that come there has one.
pub struct TcpStreams<R> {
    alloc: Global,
    net: R,
    poll: Option<Poll>,
    events: Events,
    listener: Option<TcpListener>,
    /// Where clients alone come, if there is such an address.
    clients: Option<TcpListener>,
    peers: Vec<SocketAddr>,
    slots: Vec<Slot>,
    /// Who has the places after the peers' slots.
    places: Places,
    /// Where the next search begins.
    next: usize,
    /// How many pieces were read since the system was asked what there is.
    pieces: u32,
    /// Whether streams may wait to be taken in.
    knocks: bool,
    /// The milliseconds of the clock, as it was looked at last.
    now: u64,
    faults: u64,
    call_faults: u64,
    ghost few: { vec_len slots ≤ vec_len peers + 64 },
}

// By hand, so that a function that lets one go calls this, in place of spelling out each field.
impl<R: Drop> Drop for TcpStreams<R> {
    fn drop(self) {
        let TcpStreams {
            alloc: _,
            net: _,
            poll: _,
            events: _,
            listener: _,
            clients: _,
            peers: _,
            slots: _,
            places: _,
            next: _,
            pieces: _,
            knocks: _,
            now: _,
            faults: _,
            call_faults: _,
        } = self;
    }
}

/// What an attach makes for so many ports.
#[derive(Drop)]
struct Rooms {
    slots: Vec<Slot>,
    places: Places,
}

impl Rooms {
    /// Ports without streams, as many as these peers and all others have.
    fn new(alloc: Global, peers: usize) -> Result<Rooms, AllocError>
        ensures { IfOk result (λ r. vec_len r.slots ≤ peers + 64) }
    {
        Ok(Rooms {
            slots: empty_slots(alloc, peers.saturating_add(PLACES))?,
            places: Places::new(alloc)?,
        })
    }
}

/// The address at a door in the own word, opened to others; the poll tells by this number when they come.
fn entrance<R: Net>(
    net: &R,
    poll: &Poll,
    own: &str,
    door: Door,
    number: usize,
) -> io::Result<TcpListener> {
    let mut listener = TcpListener::bind(net, address_of(net, PREFIX, own, door)?)?;
    poll.registry()
        .register(&mut listener, Token(number), Interest::READABLE)?;
    Ok(listener)
}

/// The own address, opened to others where there is one.
fn own_entrance<R: Net>(net: &R, poll: &Poll, own: &str) -> io::Result<Option<TcpListener>> {
    if own.is_empty() {
        return Ok(None);
    }
    Ok(Some(entrance(net, poll, own, Door::Own, ENTRANCE)?))
}

/// The address for clients alone, opened to them where there is one.
fn clients_entrance<R: Net>(net: &R, poll: &Poll, own: &str) -> io::Result<Option<TcpListener>> {
    if !has_clients(own) {
        return Ok(None);
    }
    Ok(Some(entrance(net, poll, own, Door::Clients, ENTRANCE + 1)?))
}

/// Notes what is there, once something is or so long was waited; says whether the wait went to its end, and no signal came.
fn await_events(poll: &mut Poll, events: &mut Events, millis: u64) -> io::Result<bool> {
    match poll.poll(events, Some(Duration::from_millis(millis))) {
        Ok(()) => Ok(true),
        Err(error) if error.kind() == ErrorKind::Interrupted => Ok(false),
        Err(error) => Err(error),
    }
}

/// A stream to a peer, of which the poll tells by this number.
fn begin<R: Net>(net: &R, poll: &Poll, address: SocketAddr, at: usize) -> io::Result<TcpStream> {
    let mut stream = TcpStream::connect(net, address)?;
    stream.set_nodelay(true)?;
    watch(&stream);
    poll.registry()
        .register(&mut stream, Token(at), Interest::READABLE)?;
    Ok(stream)
}

/// Fails where the descriptors for the streams of so many peers can't be had.
fn want_descriptors(alloc: Global, peers: usize, is_member: bool) -> io::Result<()> {
    if has_descriptors(alloc, descriptors_wanted(peers, is_member))? {
        return Ok(());
    }
    Err(io::Error::from(ErrorKind::OutOfMemory))
}

/// What an attach opens.
#[derive(Drop)]
struct Opened {
    poll: Poll,
    listener: Option<TcpListener>,
    clients: Option<TcpListener>,
}

impl Opened {
    /// The own addresses are open to others, and there are descriptors for them and so many peers.
    fn new<R: Net>(alloc: Global, net: &R, own: &str, peers: usize) -> io::Result<Opened> {
        let poll = Poll::new(net)?;
        let listener = own_entrance(net, &poll, own)?;
        let clients = clients_entrance(net, &poll, own)?;
        want_descriptors(alloc, peers, !own.is_empty())?;
        Ok(Opened {
            poll,
            listener,
            clients,
        })
    }
}

/// The address at which streams of others are taken in.
fn own_address(listener: &Option<TcpListener>) -> Option<SocketAddr> {
    listener.as_ref()?.local_addr().ok()
}

/// What takes streams in at a door.
fn listener_at<'x>(
    own: &'x Option<TcpListener>,
    clients: &'x Option<TcpListener>,
    door: Door,
) -> &'x Option<TcpListener> {
    match door {
        Door::Own => own,
        Door::Clients => clients,
    }
}

impl<R: Drop> TcpStreams<R> {
    /// Streams that aren't attached, which `attach` opens through `net`.
    pub fn new(alloc: Global, net: R) -> Result<TcpStreams<R>, AllocError> {
        let events = Events::with_capacity(alloc, 128)?;
        let places = Places::new(alloc)?;
        Ok(TcpStreams {
            alloc,
            net,
            poll: None,
            events,
            listener: None,
            clients: None,
            peers: Vec::new(alloc),
            slots: Vec::new(alloc),
            places,
            next: 0,
            pieces: 0,
            knocks: false,
            now: 0,
            faults: 0,
            call_faults: 0,
        })
    }

    /// Waits so long until something is there; a signal that comes ends the wait.
    fn wait(&mut self, millis: u64) -> io::Result<()>
        ensures attached { vec_len self.new.peers ≡ vec_len self.old.peers }
        ensures faults { self.new.faults ≡ self.old.faults }
        ensures others { self.new.call_faults ≡ self.old.call_faults }
    {
        let Some(poll) = &mut self.poll else {
            return Err(io::Error::from(ErrorKind::NotConnected));
        };
        self.pieces = 0;
        if await_events(poll, &mut self.events, millis)? {
            let knock = note(&self.events, &mut self.slots);
            self.answer(knock || self.knocks);
        }
        Ok(())
    }

    /// Takes in streams that wait, where there may be some.
    fn answer(&mut self, knocks: bool)
        ensures attached { vec_len self.new.peers ≡ vec_len self.old.peers }
        ensures faults { self.new.faults ≡ self.old.faults }
        ensures others { self.new.call_faults ≡ self.old.call_faults }
    {
        if knocks {
            let members = self.let_in(Door::Own);
            let clients = self.let_in(Door::Clients);
            self.knocks = members || clients;
        }
    }

    /// Takes in streams that wait at a door, and says whether more may wait there.
    fn let_in(&mut self, door: Door) -> bool
        ensures attached { vec_len self.new.peers ≡ vec_len self.old.peers }
        ensures faults { self.new.faults ≡ self.old.faults }
        ensures others { self.new.call_faults ≡ self.old.call_faults }
    {
        let listener = listener_at(&self.listener, &self.clients, door);
        let (Some(poll), Some(listener)) = (&self.poll, listener) else {
            return false;
        };
        let most = if self.clients.is_some() {
            TAKEN / 2
        } else {
            TAKEN
        };
        take_in(
            poll,
            listener,
            door,
            most,
            &mut self.slots,
            &mut self.places,
            &self.peers,
            self.now,
        )
    }

    /// What the first stream has that has something, from the next one on; who has its place is told of it.
    fn read(&mut self, to: &mut [u8]) -> Option<Polled>
        requires { length to.old ≡ STREAM_ROOM }
        ensures bound { IfSome result (IsPolled (vec_len self.old.peers)) }
        ensures attached { vec_len self.new.peers ≡ vec_len self.old.peers }
        ensures faults { self.new.faults ≡ self.old.faults }
        ensures others { self.new.call_faults ≡ self.old.call_faults }
    {
        let polled = read_ready(&mut self.slots, &mut self.next, to)?;
        match polled {
            Polled::Bytes(port, count) => self.hear(port, count),
            Polled::Ended(port) => self.free(port),
            Polled::Quiet => {}
        }
        Some(polled)
    }

    /// So many bytes came at a port.
    fn hear(&mut self, port: u32, count: u32)
        ensures attached { vec_len self.new.peers ≡ vec_len self.old.peers }
        ensures faults { self.new.faults ≡ self.old.faults }
        ensures others { self.new.call_faults ≡ self.old.call_faults }
    {
        if let Some(place) = self.place(port) {
            self.places.hear(place, count as usize, self.now);
        }
    }

    /// The place of a port is free, where no stream is there.
    fn free(&mut self, port: u32)
        ensures attached { vec_len self.new.peers ≡ vec_len self.old.peers }
        ensures faults { self.new.faults ≡ self.old.faults }
        ensures others { self.new.call_faults ≡ self.old.call_faults }
    {
        if let (true, Some(place)) = (is_free(&self.slots, port as usize), self.place(port)) {
            self.places.leave(place);
        }
    }

    /// The place of a port after those of the peers.
    fn place(&self, port: u32) -> Option<usize> {
        (port as usize).checked_sub(self.peers.len())
    }

    /// Where what comes at a port comes from. A stream that was begun here leads to a member.
    pub fn origin_of_port(&self, port: u32) -> Origin {
        origin_at(&self.slots, port as usize)
    }

    /// What comes next.
    fn find(&mut self, to: &mut [u8]) -> io::Result<Polled>
        requires { length to.old ≡ STREAM_ROOM }
        ensures bound { IfOk result (IsPolled (vec_len self.old.peers)) }
        ensures attached { vec_len self.new.peers ≡ vec_len self.old.peers }
        ensures faults { self.new.faults ≡ self.old.faults }
        ensures others { self.new.call_faults ≡ self.old.call_faults }
    {
        if self.pieces >= ROUND {
            return self.find_anew(0, to);
        }
        if let Some(polled) = self.read(to) {
            self.pieces = self.pieces.saturating_add(1);
            return Ok(polled);
        }
        self.find_anew(WAIT_MILLIS, to)
    }

    /// What comes next, once the system was asked what there is and so long was waited for it.
    fn find_anew(&mut self, millis: u64, to: &mut [u8]) -> io::Result<Polled>
        requires { length to.old ≡ STREAM_ROOM }
        ensures bound { IfOk result (IsPolled (vec_len self.old.peers)) }
        ensures attached { vec_len self.new.peers ≡ vec_len self.old.peers }
        ensures faults { self.new.faults ≡ self.old.faults }
        ensures others { self.new.call_faults ≡ self.old.call_faults }
    {
        self.wait(millis)?;
        Ok(self.read(to).unwrap_or(Polled::Quiet))
    }
}

impl<R: Net + Clock + Drop> TcpStreams<R> {
    /// Takes the peers, with the ports for them and what was opened, in the place of what it had.
    fn take(&mut self, peers: Vec<SocketAddr>, rooms: Rooms, opened: Opened)
        requires { vec_len rooms.slots ≤ vec_len peers + 64 }
        ensures attached { vec_len self.new.peers ≡ vec_len peers }
        ensures faults { self.new.faults ≡ self.old.faults }
        ensures others { self.new.call_faults ≡ self.old.call_faults }
    {
        self.slots = rooms.slots;
        self.places = rooms.places;
        self.peers = peers;
        self.poll = Some(opened.poll);
        self.listener = opened.listener;
        self.clients = opened.clients;
    }

    /// Takes the peers, and opens the own address to others.
    fn open(&mut self, own: &str, peers: &Vec<String>) -> io::Result<()>
        ensures attached { OnOk result (vec_len self.new.peers ≡ vec_len peers.now) }
        ensures kept { OnErr result (vec_len self.new.peers ≡ vec_len self.old.peers) }
        ensures faults { self.new.faults ≡ self.old.faults }
        ensures others { self.new.call_faults ≡ self.old.call_faults }
    {
        let peers = addresses_of(self.alloc, &self.net, PREFIX, own, peers)?;
        let rooms = Rooms::new(self.alloc, peers.len())?;
        let opened = Opened::new(self.alloc, &self.net, own, peers.len())?;
        self.take(peers, rooms, opened);
        Ok(())
    }

    /// Whether the stream to a peer is to be begun, where there is none or the one that was begun doesn't stand. Then that counts as begun now.
    fn begins(&mut self, at: usize) -> bool
        ensures attached { vec_len self.new.peers ≡ vec_len self.old.peers }
        ensures faults { self.new.faults ≡ self.old.faults }
        ensures others { self.new.call_faults ≡ self.old.call_faults }
    {
        if at >= self.peers.len() || stands_at(&self.slots, at) {
            return false;
        }
        self.now = millis_of(self.net.monotonic(), self.now);
        begins_at(&mut self.slots, at, self.now)
    }

    /// Begins the stream to a peer, where it is to be begun.
    fn connect(&mut self, at: usize) -> io::Result<()>
        ensures attached { vec_len self.new.peers ≡ vec_len self.old.peers }
        ensures faults { self.new.faults ≡ self.old.faults }
        ensures others { self.new.call_faults ≡ self.old.call_faults }
    {
        if !self.begins(at) {
            return Ok(());
        }
        let (Some(address), Some(poll)) = (self.peers.get(at), &self.poll) else {
            return Ok(());
        };
        let stream = begin(&self.net, poll, *address, at)?;
        put_stream(&mut self.slots, at, stream, Origin::Member);
        Ok(())
    }

    /// Begins the streams to the other members, where this one has an address of its own, so that they hear that it is there.
    fn greet(&mut self)
        ensures attached { vec_len self.new.peers ≡ vec_len self.old.peers }
        ensures faults { self.new.faults ≡ self.old.faults }
        ensures others { self.new.call_faults ≡ self.old.call_faults }
    {
        let Some(own) = own_address(&self.listener) else {
            return;
        };
        for at in 0..self.peers.len() {
            if self.peers.get(at) != Some(&own) {
                let _ = self.connect(at);
            }
        }
    }

    /// Writes to the stream at a port. Where it fails for good the next poll finds its end.
    fn put(&mut self, port: u32, bytes: &[u8]) -> io::Result<usize>
        ensures bound { IfOk result (λ count. count ≤ length bytes.now) }
        ensures attached { vec_len self.new.peers ≡ vec_len self.old.peers }
        ensures faults { self.new.faults ≡ self.old.faults }
        ensures others { self.new.call_faults ≡ self.old.call_faults }
    {
        let at = port as usize;
        self.connect(at)?;
        let count = write_at(&mut self.slots, at, bytes)?;
        if let Some(place) = self.place(port) {
            self.places.answer(place, self.now);
        }
        Ok(count)
    }
}

impl<R: Net + Clock + Drop> Streams for TcpStreams<R> {
    ghost attaches = { λ _. None };

    ghost calls = { λ _. None };

    ghost polled = { λ _. None };

    ghost written = { λ _. None };

    ghost waiting = { λ _. None };

    ghost attached = { λ s. vec_len s.peers };

    ghost faults = { λ s. s.faults };

    ghost call_faults = { λ s. s.call_faults };

    fn attach(&mut self, own: &str, peers: &Vec<String>) -> Result<(), StreamFailed> {
        let opened = self.open(own, peers);
        if opened.is_ok() {
            self.greet();
        }
        counted(opened, &mut self.faults, StreamFailed)
    }

    fn poll(&mut self, to: &mut [u8]) -> Result<Polled, StreamFailed> {
        self.now = millis_of(self.net.monotonic(), self.now);
        let found = self.find(to);
        counted(found, &mut self.faults, StreamFailed)
    }

    fn write(&mut self, port: u32, bytes: &[u8]) -> Result<usize, StreamFailed> {
        let written = self.put(port, bytes);
        counted(written, &mut self.call_faults, StreamFailed)
    }

    fn close(&mut self, port: u32) -> Result<(), StreamFailed> {
        if let Some(slot) = self.slots.get_mut(port as usize) {
            slot.leave();
        }
        self.free(port);
        Ok(())
    }

    fn speaks(&mut self, port: u32, member: u8) {
        if let (Origin::Member, Some(place)) = (self.origin_of_port(port), self.place(port)) {
            self.places.speak(place, member);
        }
    }
}
