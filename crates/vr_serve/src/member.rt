//! What the loop goes around.
ghost use Rattle.std.specs.Prelude.{◌≡◌, [], List, Bool, Option, IfErr, OnOk, true};
ghost use Rattle.vr_disk.specs.Counts.{Caused};
ghost use Rattle.vr_disk.specs.DiskState.{Disk};
ghost use Rattle.vr_disk.specs.declared.fault.Halt.{Halt};
ghost use Rattle.vr_msg.specs.declared.event.Event.{Event};
ghost use Rattle.vr_msg.specs.declared.output.Output.{Output};

use std::alloc::Global;
use vr_disk::{Halt, SectorDisk};
use vr_msg::{Event, Outbox};

/// A replica as the loop sees it.
pub trait Member {
    /// What a step does: the replica before, what its disk tells, the event, the outputs, the replica after, and what
    /// its disk tells then.
    ghost does: { Self → Option Disk → Event → List Output → Self → Option Disk → Type 0 };

    /// What a step that stops leaves: the replica before, what its disk tells, the event, why it stopped, the replica after,
    /// and what its disk tells then.
    ghost halts: { Self → Option Disk → Event → Halt → Self → Option Disk → Type 0 };

    /// Whether it runs; it doesn't after a halt.
    ghost runs: { Self → Bool };

    /// Handles one event whole, and puts its outputs into `out`, which is empty before. After `Ok` member, outputs and disk are
    /// as `does` says, and it runs on. After an `Err` member and disk are as `halts` says of that cause, and of `out` nothing is
    /// said. At `Disk`, and only there, the disk counts one fault more.
    fn step<D: SectorDisk>(
        &mut self,
        alloc: Global,
        disk: &mut D,
        event: &Event,
        out: &mut Outbox,
    ) -> Result<(), Halt>
        requires running { runs self.old ≡ true }
        requires empty { out.old ≡ [] }
        ensures done { OnOk result (does self.old (D.told disk.old) event.now out.new self.new (D.told disk.new)) }
        ensures halted { IfErr result (λ halt. halts self.old (D.told disk.old) event.now halt self.new (D.told disk.new)) }
        ensures running { OnOk result (runs self.new ≡ true) }
        ensures cause { Caused (D.faults disk.old) (D.faults disk.new) result };
}
