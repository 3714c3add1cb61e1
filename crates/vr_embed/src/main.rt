//! Three replicas in one process, over a disk, a link and a clock of its own: what whoever runs a replica in a program of his own has to do, and
//! what he may say then. docs/HOSTING.md is the page to it.
#![tactic(auto)]

mod clock;
mod group;
mod link;
mod member;
mod members;
mod power;
mod sectors;
mod shelf;
mod story;

use std::io;
use std::io::Write;

fn main(rt: HostRuntime) -> io::Result<()> {
    match story::tell(rt.alloc()) {
        Ok(text) => io::writer(&rt).write_all(text.as_slice()),
        Err(_) => println!(rt; "no memory"),
    }
}
