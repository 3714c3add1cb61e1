//! Addresses as words name them: `ADDR`, or `ADDR/CLIENTS`, a member's own address and the one at which clients alone ask.
ghost use Rattle.std.specs.Prelude.{◌≡◌, IfOk, vec_len};

use std::alloc::Global;
use std::io;
use std::io::ErrorKind;
use std::net::{Net, SocketAddr, ToSocketAddrs};
use vr_io_policy::Door;

/// Whether a word names an address for clients alone.
pub fn has_clients(text: &str) -> bool {
    text.contains('/')
}

/// Of the addresses in a word the one at this door. Where it names one alone, that is both.
fn at_door(text: &str, door: Door) -> &str {
    match (text.split_once('/'), door) {
        (Some((own, _)), Door::Own) => own,
        (Some((_, clients)), Door::Clients) => clients,
        (None, _) => text,
    }
}

/// The first address that a word names after this prefix, at a door.
pub fn address_of<R: Net>(net: &R, prefix: &str, text: &str, door: Door) -> io::Result<SocketAddr> {
    let found = match text.strip_prefix(prefix) {
        Some(rest) => at_door(rest, door).to_socket_addrs(net)?.next(),
        None => None,
    };
    found.ok_or(io::Error::from(ErrorKind::InvalidInput))
}

/// The addresses at which others are met, by one with this own word: members are by each other, and by clients, whose own word is empty, where these ask.
pub fn addresses_of<R: Net>(
    alloc: Global,
    net: &R,
    prefix: &str,
    own: &str,
    texts: &Vec<String>,
) -> io::Result<Vec<SocketAddr>>
    ensures { IfOk result (λ addresses. vec_len addresses ≡ vec_len texts.now) }
{
    let door = if own.is_empty() {
        Door::Clients
    } else {
        Door::Own
    };
    let mut addresses = Vec::new(alloc);
    for text in texts.iter() {
        addresses.push(address_of(net, prefix, text.as_str(), door)?)?;
    }
    Ok(addresses)
}
