//! The whole run of a member.
ghost use Rattle.std.specs.Prelude.{◌≡◌, ◌<◌, ◌≤◌, IfSome, true, vec_len};
ghost use Rattle.vr_base.specs.Groups.{is_size};
ghost use Rattle.vr_node.specs.Ending.{Ends, InGroup, OnDisk, RunsNode};
ghost use Rattle.vr_node.specs.Running.{ServeEnds};
ghost use Rattle.vr_node.specs.Stops.{status_of};

use crate::opening::open_member;
use crate::{Node, Role, serve};
use std::alloc::Global;
use vr_base::{Seq, Status};
use vr_disk::SectorDisk;
use vr_edge::{Clock, Link, Sink};
use vr_msg::Outbox;
use vr_serve::Stop;

/// A loop that ended for its disk, link or sink ends as `DiskFault`, `LinkFault` or `WriteFault`, and for want of memory as `NoMemory`.
fn status_of(stop: Stop) -> Status
    ensures { result ≡ status_of stop }
{
    match stop {
        Stop::Disk => Status::DiskFault,
        Stop::Link => Status::LinkFault,
        Stop::Write => Status::WriteFault,
        Stop::NoMemory => Status::NoMemory,
    }
}

/// Puts out `first`, with messages numbered from 0, and then does so many turns over a link that is attached, in frames of its file's version and
/// group. Each turn is a receive with its event, then one number of the clock, and a tick where one is due; each event is one step of the rules.
/// `Done`: all of them happened whole. `DiskFault`, `LinkFault` (the last receive failed), `WriteFault` and `NoMemory`: a front of the run happened,
/// no datagram before the whole text of its event. The object that the status names counts one fault more, and no other does; nothing is attached.
#[tactic(auto, using(crate::proofs::Ends::served, crate::proofs::Ends::cut_off))]
fn serve_turns<D: SectorDisk, L: Link, C: Clock, K: Sink>(
    alloc: Global,
    node: &mut Node,
    first: Outbox,
    disk: &mut D,
    link: &mut L,
    clock: &mut C,
    sink: &mut K,
    turns: u64,
) -> Status
    requires { node.old.replica.running ≡ true }
    ensures ends { Ends D.SectorDisk L.Link C.Clock K.Sink (ServeEnds turns first node.old) disk.old disk.new link.old link.new clock.old clock.new sink.old sink.new result }
    ensures attached { L.attached link.new ≡ L.attached link.old }
{
    match serve(alloc, node, first, disk, link, clock, sink, turns) {
        Ok(()) => Status::Done,
        Err(stop) => status_of(stop),
    }
}

/// Attaches the link once, by the member's own address and with all addresses of its role as peers; then puts out `first` and serves the role's
/// turns. Where the attach fails the end is `LinkFault`, and nothing else was done. Else it is `Done` with all turns whole, or an early end: a front
/// of the run happened, no datagram before the whole text of its event. The object that the status names counts one fault more, and no other does.
#[tactic(auto, using(crate::proofs::Ends::linked, crate::proofs::Ends::own_address, crate::proofs::Ends::unlinked))]
fn serve_group<D: SectorDisk, L: Link, C: Clock, K: Sink>(
    alloc: Global,
    role: &Role,
    node: &mut Node,
    first: Outbox,
    disk: &mut D,
    link: &mut L,
    clock: &mut C,
    sink: &mut K,
) -> Status
    requires running { node.old.replica.running ≡ true }
    requires member { role.now.config.replica < vec_len role.now.peers }
    ensures { Ends D.SectorDisk L.Link C.Clock K.Sink (InGroup role.now first node.old) disk.old disk.new link.old link.new clock.old clock.new sink.old sink.new result }
{
    let own = role.peers[usize::from(role.config.replica)].as_str();
    match link.attach(own, &role.peers) {
        Ok(()) => serve_turns(alloc, node, first, disk, link, clock, sink, role.turns),
        Err(_) => Status::LinkFault,
    }
}

/// On a disk that is attached: the member is made or found again as its role says, its link attached, what the opening gave put out, the turns
/// served. Where there is no member the status says why, and link, clock and sink stay as they were. Where the attach fails the end is `LinkFault`,
/// and nothing comes after it; in the turns a front of the run happened. The object that the status names counts one fault more, and no other does.
#[tactic(auto, using(crate::proofs::Ends::opened, crate::proofs::Ends::unopened))]
fn open_and_serve<D: SectorDisk, L: Link, C: Clock, K: Sink>(
    alloc: Global,
    role: &Role,
    disk: &mut D,
    link: &mut L,
    clock: &mut C,
    sink: &mut K,
) -> Status
    requires size { IfSome role.now.fresh (λ kind. is_size kind.version role.now.config.n ≡ true) }
    requires member { role.now.config.replica < role.now.config.n }
    requires peers { role.now.config.n ≤ vec_len role.now.peers }
    ensures { Ends D.SectorDisk L.Link C.Clock K.Sink (OnDisk role.now) disk.old disk.new link.old link.new clock.old clock.new sink.old sink.new result }
{
    let mut first = Seq::new(alloc);
    match open_member(alloc, disk, &role.config, role.fresh, &mut first) {
        Ok(replica) => serve_group(
            alloc,
            role,
            &mut Node::new(replica),
            first,
            disk,
            link,
            clock,
            sink,
        ),
        Err(status) => status,
    }
}

/// In this order: its disk is attached by its file's name, the member made or found again as its role says, its link attached, its turns served.
/// Where one of these fails, the status says why, and the next ones aren't begun: their objects stay as they were. `DiskFault` may come of the
/// attach, the opening or a step; `LinkFault` of the attach or the last receive. The opening's outputs go out before the first turn. Each event is
/// one step of the rules; of the last one at most a front was put out, no datagram before its whole text.
#[tactic(auto, using(crate::proofs::Ends::attached, crate::proofs::Ends::unattached))]
pub fn run_node<D: SectorDisk, L: Link, C: Clock, K: Sink>(
    alloc: Global,
    role: &Role,
    disk: &mut D,
    link: &mut L,
    clock: &mut C,
    sink: &mut K,
) -> Status
    requires size { IfSome role.now.fresh (λ kind. is_size kind.version role.now.config.n ≡ true) }
    requires member { role.now.config.replica < role.now.config.n }
    requires peers { role.now.config.n ≤ vec_len role.now.peers }
    // Its disk is attached by the name of its role's file. A fault of the disk, of the sink or of the link is told, and no other answer leaves one.
    ensures { RunsNode D.SectorDisk L.Link C.Clock K.Sink role.now disk.old disk.new link.old link.new clock.old clock.new sink.old sink.new result }
{
    match disk.attach(role.file.as_str()) {
        Ok(()) => open_and_serve(alloc, role, disk, link, clock, sink),
        Err(_) => Status::DiskFault,
    }
}
