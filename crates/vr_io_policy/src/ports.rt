//! Which port stands for which address.
ghost use Rattle.std.specs.Prelude.{◌≡◌, ◌<◌, ◌+◌, ◌^◌, ◌-◌, [], None, IfOk, is_some, length, min, option_map, replicate};
ghost use Rattle.std.specs.List.{position};
ghost use Rattle.vr_io_policy.specs.Origins.{origin_of};
ghost use Rattle.vr_io_policy.specs.Senders.{IsHeard, IsOldest, IsSenderPlace, address_at, at_address, never};

use crate::origin::{Door, Origin};
use std::alloc::{AllocError, Global};

/// The number of senders beside the peers that have a port at a time.
const OTHERS: usize = 64;

/// The port of a sender that has none: nothing can be sent there.
pub const NOBODY: u32 = u32::MAX;

/// A sender beside the peers.
#[derive(Clone, Copy, Debug)]
pub struct Sender<A> {
    /// `None` where nobody has this port yet.
    pub address: Option<A>,
    /// The number of the datagram by which it was heard last, 0 where none was.
    pub heard: u64,
}

/// Addresses by their ports: the peers, and after them the senders beside them that were heard last.
#[derive(Drop)]
pub struct Ports<A> {
    pub peers: Vec<A>,
    pub others: Vec<Sender<A>>,
    /// How many datagrams of others were heard.
    pub count: u64,
}

/// The number of a port.
pub fn number(place: usize) -> u32
    ensures { result ≡ min place (2 ^ 32 - 1) }
{
    u32::try_from(place).unwrap_or(u32::MAX)
}

// Whether a sender has this address.
fn has_address<A: PartialEq>(sender: &Sender<A>, address: &A) -> bool
    ensures { result ≡ at_address A.eq address.now sender.now }
{
    match &sender.address {
        Some(own) => own == address,
        None => false,
    }
}

// The place of the sender that has this address.
fn place_of<A: PartialEq>(others: &[Sender<A>], address: &A) -> Option<usize>
    ensures { result ≡ position (at_address A.eq address.now) others.now }
{
    others.iter().position(|other| has_address(other, address))
}

// The place of the peer that has this address.
fn peer_of<A: PartialEq>(peers: &[A], address: &A) -> Option<usize>
    ensures { result ≡ position (λ p. A.eq p address.now) peers.now }
{
    peers.iter().position(|peer| peer == address)
}

// The place of the sender that was heard longest ago.
fn oldest<A>(others: &[Sender<A>]) -> usize
    requires { 0 < length others.now }
    ensures { IsOldest others.now (length others.now) result }
{
    let mut oldest = 0;
    for at in 1..others.len() {
        if others[at].heard < others[oldest].heard {
            oldest = at;
        }
    }
    oldest
}

impl<A: Copy + PartialEq> Ports<A> {
    /// Those of these peers, and of no others yet.
    pub fn new(alloc: Global, peers: Vec<A>) -> Result<Ports<A>, AllocError>
        ensures peers { IfOk result (λ p. p.peers ≡ peers) }
        ensures others { IfOk result (λ p. p.others.items ≡ replicate OTHERS never) }
    {
        let mut others = Vec::new(alloc);
        for _ in 0..OTHERS {
            others.push(Sender {
                address: None,
                heard: 0,
            })?;
        }
        Ok(Ports {
            peers,
            others,
            count: 0,
        })
    }

    /// The address of a port.
    pub fn address(&self, port: u32) -> Option<A>
        ensures { result ≡ address_at self.now.peers.items self.now.others.items port }
    {
        let at = port as usize;
        if at < self.peers.len() {
            return Some(self.peers[at]);
        }
        match self.others.get(at - self.peers.len()) {
            Some(other) => other.address,
            None => None,
        }
    }

    /// The port of a peer, `None` where the address is no peer's.
    pub fn peer(&self, address: A) -> Option<u32>
        ensures { result ≡ option_map (λ k. min k (2 ^ 32 - 1)) (position (λ p. A.eq p address) self.now.peers.items) }
    {
        match peer_of(&self.peers, &address) {
            Some(place) => Some(number(place)),
            None => None,
        }
    }

    /// Where what comes from an address at a door comes from: the peers are those of the group's list.
    pub fn origin(&self, door: Door, address: A) -> Origin
        ensures { result ≡ origin_of door (is_some (position (λ p. A.eq p address) self.now.peers.items)) }
    {
        door.origin(peer_of(&self.peers, &address).is_some())
    }

    // The place of a sender: its own; else that of the one that was heard longest ago.
    fn place_for(&self, address: A) -> usize
        requires { 0 < length self.now.others.items }
        ensures { IsSenderPlace A.eq self.now.others.items address result }
    {
        match place_of(&self.others, &address) {
            Some(place) => place,
            None => oldest(&self.others),
        }
    }

    /// The port of a sender beside the peers, which is heard now: where it has none, it takes that of the one that was heard longest ago.
    pub fn other(&mut self, address: A) -> u32
        ensures others { IsHeard A.eq self.old.others.items self.new.others.items address self.new.count (length self.old.peers.items) result }
        ensures count { self.new.count ≡ min (self.old.count + 1) (2 ^ 64 - 1) }
        ensures peers { self.new.peers ≡ self.old.peers }
    {
        self.count = self.count.saturating_add(1);
        if self.others.is_empty() {
            return NOBODY;
        }
        let place = self.place_for(address);
        self.others[place] = Sender {
            address: Some(address),
            heard: self.count,
        };
        number(self.peers.len().saturating_add(place))
    }
}
