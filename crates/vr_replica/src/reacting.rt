//! The step of a replica: the rule of each event.
ghost use Rattle.std.specs.Prelude.{◌≡◌};
ghost use Rattle.vr_volatile.specs.Ready.{IsReady};
ghost use Rattle.vr_actions.specs.Waits.{EndsAtOnce};
ghost use Rattle.vr_replica.specs.AtOnce.{IsAtOnce, IsLeft};
ghost use Rattle.vr_rules.specs.Replica.{is_frozen};
ghost use Rattle.vr_rules.specs.Rules.{on_event, on_message, react};
ghost use Rattle.vr_actions.specs.Acts.{Acts, MaySend};

use crate::ticking::handle_tick;
use std::alloc::Global;
use vr_actions::{Halt, LAST_VIEW, Replica};
use vr_disk::SectorDisk;
use vr_msg::{Event, Frame, Message, Outbox};
use vr_normal::{handle_commit, handle_prepare, handle_prepare_ok, handle_request};
use vr_repair::{handle_get_block, handle_get_prepare, handle_give_block, handle_give_prepare};
use vr_view::{
    handle_do_view_change, handle_get_sync, handle_get_view, handle_start_view,
    handle_start_view_change, handle_sync_view,
};

// Does what the rules of this kind of message say, on replica, disk and outputs (`on_message`); a reply does nothing. On these it answers
// `Ok` and leaves the very same disk: a prepare of rule `Ignored`, `PreparedBefore` or `Other`; a start_view_change of `Ignored` or
// `ChangeBefore`. So on a prepare_ok that isn't counted, or after which the next op has no quorum and nothing can be applied. After an
// `Err` the disk has had its calls up to the stop; of replica and outputs nothing is said.
#[tactic(auto, using(crate::proofs::Forms::forms, vr_rules::proofs::Stepping::does_quiet))]
fn handle_message<D: SectorDisk>(
    replica: &mut Replica,
    alloc: Global,
    disk: &mut D,
    message: &Message,
    out: &mut Outbox,
) -> Result<(), Halt>
    requires { MaySend 66 replica.old }
    ensures at_once { IsLeft replica.old message.now → EndsAtOnce disk.old disk.new result }
    ensures acts { Acts D.SectorDisk (on_message message.now) replica.old replica.new disk.old disk.new out.old out.new result }
{
    match message.frame() {
        Frame::Request(request) => handle_request(replica, alloc, disk, request, out),
        Frame::Reply(_) => Ok(()),
        Frame::Prepare(prepare) => handle_prepare(replica, alloc, disk, prepare, out),
        Frame::PrepareOk(ack) => handle_prepare_ok(replica, alloc, disk, ack, out),
        Frame::Commit(commit) => handle_commit(replica, alloc, disk, commit, out),
        Frame::StartViewChange(change) => {
            handle_start_view_change(replica, alloc, disk, change, out)
        }
        Frame::DoViewChange(change) => handle_do_view_change(replica, alloc, disk, change, out),
        Frame::StartView(start) => handle_start_view(replica, alloc, disk, start, out),
        Frame::GetView(get) => handle_get_view(replica, alloc, disk, get, out),
        Frame::GetPrepare(get) => handle_get_prepare(replica, alloc, disk, get, out),
        Frame::GivePrepare(give) => handle_give_prepare(replica, alloc, disk, give, out),
        Frame::GetBlock(get) => handle_get_block(replica, alloc, disk, get, out),
        Frame::GiveBlock(give) => handle_give_block(replica, alloc, disk, give, out),
        Frame::GetSync(get) => handle_get_sync(replica, alloc, disk, get, out),
        Frame::SyncView(sync) => handle_sync_view(replica, alloc, disk, sync, out),
    }
}

// Does what the rules of this kind of event say (`on_event`): of a request, of the message that arrives, or of a tick. On these it answers
// `Ok` and leaves the very same disk: a prepare of rule `Ignored`, `PreparedBefore` or `Other`; a start_view_change of `Ignored` or
// `ChangeBefore`. So on a prepare_ok that isn't counted, or after which the next op has no quorum and nothing can be applied. After an
// `Err` the disk has had its calls up to the stop; of replica and outputs nothing is said.
fn handle<D: SectorDisk>(
    replica: &mut Replica,
    alloc: Global,
    disk: &mut D,
    event: &Event,
    out: &mut Outbox,
) -> Result<(), Halt>
    requires { MaySend 66 replica.old }
    ensures at_once { IsAtOnce replica.old event.now → EndsAtOnce disk.old disk.new result }
    ensures acts { Acts D.SectorDisk (on_event event.now) replica.old replica.new disk.old disk.new out.old out.new result }
{
    match event {
        Event::Request(request) => handle_request(replica, alloc, disk, request, out),
        Event::Deliver(message) => handle_message(replica, alloc, disk, message, out),
        Event::Tick => handle_tick(replica, alloc, disk, out),
    }
}

// Whether its view is above 2^32 - 2, or the sequence number of its saved value above 2^64 - 256.
fn is_frozen(replica: &Replica) -> bool
    ensures { result ≡ is_frozen replica.now }
{
    LAST_VIEW < replica.view() || replica.is_spent()
}

/// The step of an event, by its rule. In a view above 2^32 - 2, or with a saved sequence number above 2^64 - 256, every event is ignored:
/// nothing is done. On these it answers `Ok` and leaves the very same disk: a prepare of rule `Ignored`, `PreparedBefore` or `Other`; a
/// start_view_change of `Ignored` or `ChangeBefore`. So on a prepare_ok that isn't counted, or after which the next op has no quorum and
/// nothing can be applied. After an `Err` the disk has had its calls up to the stop; of replica and outputs nothing is said.
#[tactic(auto, using(crate::proofs::Reacts::frozen, crate::proofs::Reacts::goes, crate::proofs::Reacts::view_room, crate::proofs::Reacts::save_room))]
pub fn react<D: SectorDisk>(
    replica: &mut Replica,
    alloc: Global,
    disk: &mut D,
    event: &Event,
    out: &mut Outbox,
) -> Result<(), Halt>
    requires ready { IsReady replica.old }
    ensures at_once { IsAtOnce replica.old event.now → EndsAtOnce disk.old disk.new result }
    ensures acts { Acts D.SectorDisk (react event.now) replica.old replica.new disk.old disk.new out.old out.new result }
{
    if is_frozen(replica) {
        Ok(())
    } else {
        handle(replica, alloc, disk, event, out)
    }
}
