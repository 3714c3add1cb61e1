//! A replica as the loop of turns takes it.
ghost use Rattle.std.specs.Prelude.{◌≡◌};
ghost use Rattle.vr_rules.specs.Replica.{version};

use std::alloc::Global;
use vr_base::Version;
use vr_disk::{Halt, SectorDisk};
use vr_msg::{Event, Outbox};
use vr_replica::Replica;
use vr_serve::Member;

/// A replica that runs.
#[derive(Drop)]
pub struct Node {
    replica: Replica,
}

impl Node {
    /// The member of this replica.
    pub fn new(replica: Replica) -> Node
        ensures { result.replica ≡ replica }
    {
        Node { replica }
    }

    /// The version of its file, which its messages have.
    pub fn version(&self) -> Version
        ensures { result ≡ version self.now.replica.memory }
    {
        self.replica.version()
    }

    /// The number of its group.
    pub fn cluster(&self) -> u64
        ensures { result ≡ self.now.replica.memory.cluster }
    {
        self.replica.config().cluster
    }
}

impl Member for Node {
    ghost use Rattle.vr_node.specs.Steps.{steps, stops};

    ghost does = { steps };

    ghost halts = { stops };

    ghost runs = { λ node. node.replica.running };

    // One step of the rules for this event, whole: replica, disk and outputs are then what `react` says, on a file of the replica's version, 1 or 2.
    // After a halt the disk got the step's calls up to the one that failed, or for want of memory a front of them. Of replica and outputs nothing is
    // said then.
    #[tactic(auto, using(crate::proofs::Halts::went, crate::proofs::Halts::runs_on, crate::proofs::Halts::stopped))]
    fn step<D: SectorDisk>(
        &mut self,
        alloc: Global,
        disk: &mut D,
        event: &Event,
        out: &mut Outbox,
    ) -> Result<(), Halt> {
        self.replica.step(alloc, disk, event, out)
    }
}
