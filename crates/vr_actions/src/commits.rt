//! Commit numbers rise.
ghost use Rattle.std.specs.Prelude.{◌≡◌, ◌<◌, ◌+◌};
ghost use Rattle.vr_actions.specs.Waits.{EndsAtOnce, Waits, applies_next};
ghost use Rattle.vr_volatile.specs.Ready.{IsReady};
ghost use Rattle.vr_rules.specs.Words.{advance};
ghost use Rattle.vr_actions.specs.Acts.{Acts, MayAct};

use crate::applying::apply;
use std::alloc::Global;
use vr_disk::{Halt, SectorDisk};
use vr_msg::Outbox;
use vr_volatile::{Replica, is_here};

// Whether no block is missing, applied is below the commit number, and the Part of the op after applied is `Here`. Whether it reads isn't
// looked at.
#[tactic(auto, using(vr_volatile::proofs::Memory::next_fits))]
fn applies_next(replica: &Replica) -> bool
    requires { IsReady replica.now }
    ensures { result ≡ applies_next replica.now }
{
    replica.is_loaded()
        && replica.applied() < replica.commit()
        && is_here(&replica.part_at(replica.applied() + 1))
}

/// The commit number rises, up to the head, as long as a replication quorum has acknowledged the next op, the replica itself counted where
/// its Part is `Here`. Then ops are applied up to it, ascending, as long as no block is missing and the next one is `Here` and reads. `Waits`
/// says: the next op has no such quorum; and a block is missing, all committed ops are applied, or the next one to apply isn't `Here`. Then
/// it answers `Ok` and leaves the very same disk. After an `Err` the disk has had its calls up to the stop; of replica and outputs nothing is
/// said.
#[tactic(auto, using(vr_rules::proofs::Stepping::steps, vr_rules::proofs::Versions::advanced_stays, vr_volatile::proofs::Memory::window_of, vr_volatile::proofs::Repairs::ready_advanced, crate::proofs::Advancing::none_applied, crate::proofs::Advancing::none_next), unfolding(vr_rules::specs::Words::advance))]
pub fn advance<D: SectorDisk>(
    replica: &mut Replica,
    alloc: Global,
    disk: &mut D,
    out: &mut Outbox,
) -> Result<(), Halt>
    requires { MayAct 64 replica.old }
    ensures at_once { Waits replica.old → EndsAtOnce disk.old disk.new result }
    ensures acts { Acts D.SectorDisk advance replica.old replica.new disk.old disk.new out.old out.new result }
{
    replica.advance_commit();
    if applies_next(replica) {
        apply(replica, alloc, disk, out)
    } else {
        Ok(())
    }
}
