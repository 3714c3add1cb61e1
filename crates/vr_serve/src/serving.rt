//! The loop.
ghost use Rattle.std.specs.Prelude.{◌≡◌, [], IfOk, true};
ghost use Rattle.vr_serve.specs.Events.{due, last_after};
ghost use Rattle.vr_serve.specs.Serving.{Arrives, Handles, Serves, TakesTurn, TakesTurns};

use crate::handling::{event_of, handle};
use crate::objects::Objects;
use crate::post::Post;
use crate::stop::received_stop;
use crate::{Member, Stop};
use std::alloc::Global;
use vr_base::Version;
use vr_disk::SectorDisk;
use vr_edge::{Clock, Link, Sink};
use vr_mail::receive_letter;
use vr_msg::{Event, Outbox};

/// The milliseconds from one tick to the next.
pub const TICK: u64 = 100;

// When a tick is due, the contracts say by it.
const _: () = prove!(TICK == 100);

/// One receive. A message of this version and group that came is one event from its sender's port: the client heard, a step, its
/// text, its datagrams; all else is as nothing. An `Err` cuts it off: at the receive, with nothing else done (`Link` only where
/// it failed), or in the event, of whose outputs at most a front went out. After `Ok` the member runs. Disk, sink and link count
/// one fault more where the `Err` names them, and else none; nothing is attached.
#[tactic(auto, using(crate::proofs::Ending::causes_none, crate::proofs::Ending::causes_later, crate::proofs::Ending::causes_received))]
fn arrive<M: Member, D: SectorDisk, K: Sink, L: Link>(
    alloc: Global,
    version: Version,
    cluster: u64,
    objects: &mut Objects<M, D, K, L>,
    post: &mut Post,
) -> Result<(), Stop>
    requires { M.runs objects.old.member.now ≡ true }
    ensures { Arrives M.Member D.SectorDisk K.Sink L.Link version cluster objects.old objects.new post.old post.new result }
{
    match receive_letter(alloc, objects.link, version, cluster, &mut post.to) {
        Ok(Some(letter)) => {
            let event = event_of(letter.message);
            let handled = handle(alloc, objects, post, letter.port, &event);
            drop(event);
            handled
        }
        Ok(None) => Ok(()),
        Err(fault) => Err(received_stop(fault)),
    }
}

/// A look at the clock: where `now` is at least `TICK` above `last`, a tick is one event: a step, its text, its datagrams. It
/// returns the last tick after that: `now` where it ticked or where `now` is below `last`, and else `last`. An `Err` cuts the
/// tick off, and of its outputs at most a front went out. Nothing is received or attached, so it is never `Link`.
#[tactic(auto, using(crate::proofs::Ending::causes_none, crate::proofs::Ending::causes_later, crate::proofs::Ending::causes_received))]
fn beat<M: Member, D: SectorDisk, K: Sink, L: Link>(
    alloc: Global,
    objects: &mut Objects<M, D, K, L>,
    post: &mut Post,
    last: u64,
    now: u64,
) -> Result<u64, Stop>
    requires { M.runs objects.old.member.now ≡ true }
    ensures last { IfOk result (λ after. after ≡ last_after last now) }
    ensures handles { Handles M.Member D.SectorDisk K.Sink L.Link objects.old objects.new post.old post.new (due last now) result }
{
    if now < last {
        return Ok(now);
    }
    if now - last < TICK {
        return Ok(last);
    }
    handle(alloc, objects, post, 0, &Event::Tick)?;
    Ok(now)
}

/// One receive with its event, then one number of the clock, and a tick where that is at least `TICK` above `last`. It returns
/// the last tick after it: the number where it ticked or is below `last`, and else `last`. An `Err` cuts it off at the receive or
/// its event, where the clock wasn't asked, or at the tick, after an event that happened whole. It is `Link` only where the
/// receive failed. Disk, sink and link count one fault more where the `Err` names them, and else none; nothing is attached.
#[tactic(auto, using(crate::proofs::Ending::causes_none, crate::proofs::Ending::causes_later, crate::proofs::Ending::causes_received))]
fn turn<M: Member, D: SectorDisk, K: Sink, L: Link, C: Clock>(
    alloc: Global,
    version: Version,
    cluster: u64,
    objects: &mut Objects<M, D, K, L>,
    post: &mut Post,
    clock: &mut C,
    last: u64,
) -> Result<u64, Stop>
    requires { M.runs objects.old.member.now ≡ true }
    ensures { TakesTurn M.Member D.SectorDisk K.Sink L.Link C.Clock version cluster last objects.old objects.new post.old post.new clock.old clock.new result }
{
    arrive(alloc, version, cluster, objects, post)?;
    let now = clock.now();
    beat(alloc, objects, post, last, now)
}

/// So many turns one after another: in each a receive with its event, then one number of the clock, and a tick where one is due.
/// After `Ok` the member runs, and the answer is the last tick, or the clock's number where that went back. An `Err` cuts off one
/// turn, at its receive (`Link`, only where that failed) or in one event, with no datagram of it before its whole text. All events
/// before happened whole, and no later turn was begun. Disk, sink and link count one fault more where the `Err` names them, and
/// else none; nothing is attached.
#[tactic(auto, using(crate::proofs::Ending::causes_none, crate::proofs::Ending::causes_later, crate::proofs::Ending::causes_received))]
fn take_turns<M: Member, D: SectorDisk, K: Sink, L: Link, C: Clock>(
    alloc: Global,
    version: Version,
    cluster: u64,
    objects: &mut Objects<M, D, K, L>,
    post: &mut Post,
    clock: &mut C,
    last: u64,
    count: u64,
) -> Result<u64, Stop>
    requires { M.runs objects.old.member.now ≡ true }
    ensures { TakesTurns M.Member D.SectorDisk K.Sink L.Link C.Clock version cluster count last objects.old objects.new post.old post.new clock.old clock.new result }
{
    let mut after = last;
    for _ in 0..count {
        after = turn(alloc, version, cluster, objects, post, clock, after)?;
    }
    Ok(after)
}

/// The same as `serve`, with what the loop keeps made: the next message has number 0, and no client was heard.
#[tactic(auto, using(crate::proofs::Ending::causes_none, crate::proofs::Ending::causes_later, crate::proofs::Ending::causes_received))]
fn serve_with<M: Member, D: SectorDisk, K: Sink, L: Link, C: Clock>(
    alloc: Global,
    version: Version,
    cluster: u64,
    member: &mut M,
    post: &mut Post,
    first: Outbox,
    disk: &mut D,
    link: &mut L,
    clock: &mut C,
    sink: &mut K,
    turns: u64,
) -> Result<(), Stop>
    requires running { M.runs member.old ≡ true }
    requires number { post.old.number ≡ 0 }
    requires clients { post.old.clients.items ≡ [] }
    ensures { Serves M.Member D.SectorDisk K.Sink L.Link C.Clock version cluster turns first member.old member.new disk.old disk.new link.old link.new clock.old clock.new sink.old sink.new result }
{
    post.put_out(sink, link, first)?;
    let last = clock.now();
    let mut objects = Objects {
        member,
        disk,
        sink,
        link,
    };
    take_turns(
        alloc,
        version,
        cluster,
        &mut objects,
        post,
        clock,
        last,
        turns,
    )?;
    Ok(())
}

/// Puts out `first`, its messages numbered from 0, with no client heard; takes the clock's number as the last tick; does so many
/// turns; after `Ok` the member runs. An `Err` cuts it off before the clock was asked, with a front of `first` put out, or in a
/// turn, after all events before. Of the event at which it was cut off, a step that stopped has put out nothing, one that was done
/// a front. `Link`: the last receive failed; disk, sink and link count one fault more where the `Err` names them, else none;
/// nothing is attached.
#[tactic(auto, using(crate::proofs::Ending::causes_none, crate::proofs::Ending::causes_later, crate::proofs::Ending::causes_received))]
pub fn serve<M: Member, D: SectorDisk, K: Sink, L: Link, C: Clock>(
    alloc: Global,
    version: Version,
    cluster: u64,
    member: &mut M,
    first: Outbox,
    disk: &mut D,
    link: &mut L,
    clock: &mut C,
    sink: &mut K,
    turns: u64,
) -> Result<(), Stop>
    requires { M.runs member.old ≡ true }
    ensures { Serves M.Member D.SectorDisk K.Sink L.Link C.Clock version cluster turns first member.old member.new disk.old disk.new link.old link.new clock.old clock.new sink.old sink.new result }
{
    match Post::new(alloc) {
        Ok(mut post) => {
            let served = serve_with(
                alloc, version, cluster, member, &mut post, first, disk, link, clock, sink, turns,
            );
            drop(post);
            served
        }
        Err(_) => {
            drop(first);
            Err(Stop::NoMemory)
        }
    }
}
