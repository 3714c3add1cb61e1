//! A member serves its group.
ghost use Rattle.std.specs.Prelude.{◌≡◌, true};
ghost use Rattle.vr_node.specs.Ending.{ServesGroup};

use crate::Node;
use std::alloc::Global;
use vr_disk::SectorDisk;
use vr_edge::{Clock, Link, Sink};
use vr_msg::Outbox;
use vr_serve::Stop;

/// Puts out what its opening gave, with messages numbered from 0, and then does so many turns in frames of its file's version and group. Each turn is
/// a receive with its event, then one number of the clock, and a tick where one is due; each event is one step of the rules. After `Ok` all happened
/// whole, and the member runs; after an `Err` a front of that did, no datagram before the whole text of its event. It is `Link` only where the last
/// receive failed. The object that the `Err` names counts one fault more, and no other does; nothing is attached.
pub fn serve<D: SectorDisk, L: Link, C: Clock, K: Sink>(
    alloc: Global,
    node: &mut Node,
    first: Outbox,
    disk: &mut D,
    link: &mut L,
    clock: &mut C,
    sink: &mut K,
    turns: u64,
) -> Result<(), Stop>
    requires { node.old.replica.running ≡ true }
    ensures { ServesGroup D.SectorDisk L.Link C.Clock K.Sink turns first node.old node.new disk.old disk.new link.old link.new clock.old clock.new sink.old sink.new result }
{
    let version = node.version();
    let cluster = node.cluster();
    vr_serve::serve(
        alloc, version, cluster, node, first, disk, link, clock, sink, turns,
    )
}
