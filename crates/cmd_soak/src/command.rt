//! The command `soak`.
ghost use Rattle.std.specs.Prelude.{◌≡◌, IfOk};
ghost use Rattle.cmd_soak.specs.Headline.{SoakHasOneLog};
ghost use Rattle.cmd_soak.specs.Ends.{SoakEnds};
ghost use Rattle.cmd_soak.specs.Summing.{soak_text};

use crate::Soaking;
use std::alloc::Global;
use vr_base::{ByteList, NoMemory, Status};
use vr_edge::{Sink, write_whole};

/// The text of the summary.
fn text_for(alloc: Global, seed: u64, count: u32) -> Result<ByteList, NoMemory>
    ensures { IfOk result (λ t. t ≡ soak_text seed count) }
{
    let soaking = Soaking::run(alloc, seed, count)?;
    let summary = soaking.summary(count);
    Ok(summary.text(alloc)?)
}

/// Runs the schedule that a seed makes, of so many lines after the one that makes the group, and writes the summary of what it comes to.
#[tactic(auto, using(crate::proofs::Headline::headline))]
pub fn soak<K: Sink>(alloc: Global, seed: u64, count: u32, sink: &mut K) -> Status
    // The whole summary, a front of it where a write failed, or nothing; no other answer is given.
    ensures ends { SoakEnds (K.faults sink.old) (K.faults sink.new) (K.taken sink.old) (K.taken sink.new) (soak_text seed count) result }

    // Whatever the number, its schedule's outputs have one log.
    ensures headline { SoakHasOneLog seed count }
{
    let Ok(text) = text_for(alloc, seed, count) else {
        return Status::NoMemory;
    };
    if let Err(_) = write_whole(sink, text.as_slice()) {
        return Status::WriteFault;
    }
    Status::Done
}
