//! Entries that are prepared again.
ghost use Rattle.std.specs.Prelude.{◌≤◌};
ghost use Rattle.vr_rules.specs.Replica.{last_view};
ghost use Rattle.vr_rules.specs.Words.{prepare_again};
ghost use Rattle.vr_volatile.specs.Ready.{IsReady};
ghost use Rattle.vr_actions.specs.Acts.{Acts, Keeps};

use crate::reading::read_entry;
use std::alloc::Global;
use vr_disk::{Halt, SectorDisk};
use vr_msg::Outbox;
use vr_volatile::Replica;

/// Where the Part of this op is `Here` and its entry reads, one prepare of it goes to each other replica, ascending. Where it is `Here` and
/// doesn't read, it becomes `Lost`; where it isn't `Here`, nothing is done. The disk is left as it is; after an `Err` nothing is said of
/// replica and outputs.
#[tactic(auto, using(crate::proofs::Readings::prepared_again, crate::proofs::Readings::not_prepared, vr_rules::proofs::Stepping::wants))]
pub fn prepare_again<D: SectorDisk>(
    replica: &mut Replica,
    alloc: Global,
    disk: &mut D,
    op: u64,
    out: &mut Outbox,
) -> Result<(), Halt>
    requires ready { IsReady replica.old }
    requires view { replica.old.view ≤ last_view }
    ensures keeps { Keeps replica.old replica.new result }
    ensures acts { Acts D.SectorDisk (prepare_again op) replica.old replica.new disk.old disk.new out.old out.new result }
{
    match read_entry(replica, alloc, disk, op)? {
        Some(entry) => replica.send_prepare(alloc, &entry, out)?,
        None => {}
    }
    Ok(())
}
