//! A replay over the source and the sink that are handed in.
ghost use Rattle.std.specs.Prelude.{◌≡◌, ◌⊎◌, ℕ, IfSome, List};
ghost use Rattle.vr_base.specs.Causes.{Rose};
ghost use Rattle.cmd_replay.specs.Headline.{ScheduleHasOneLog};
ghost use Rattle.cmd_replay.specs.Schedule.{schedule_of};
ghost use Rattle.cmd_replay.specs.Run.{IsDone, IsRefused, IsCutShort, IsPartial, Ends, refused_in, status_for};
ghost use Rattle.vr_base.specs.Counts.{reads_after, writes_after};

use crate::Replay;
use std::alloc::Global;
use vr_base::Status;
use vr_edge::{Sink, Source};

/// Reads a schedule, and writes its outputs piece by piece.
fn read_schedule<S: Source, K: Sink>(alloc: Global, source: &mut S, sink: &mut K) -> Status
    ensures { Ends (S.faults source.old) (S.faults source.new) (K.faults sink.old) (K.faults sink.new) (S.left source.old) (S.left source.new) (K.taken sink.old) (K.taken sink.new) result }
{
    let mut replay = Replay::new(alloc);
    for _ in 0..u64::MAX {
        let Ok(count) = replay.lines.fill(source) else {
            return Status::ReadFault;
        };
        if count == 0 {
            if let Err(stop) = replay.finish(alloc, sink) {
                return stop.status();
            }
            return Status::Done;
        }
        if let Err(stop) = replay.take_lines(alloc, sink) {
            return stop.status();
        }
    }
    Status::NoMemory
}

/// Replays the schedule of a source, and writes the lines of its outputs to the sink.
#[tactic(auto, using(crate::proofs::Headline::schedule_has_one_log))]
pub fn replay<S: Source, K: Sink>(alloc: Global, source: &mut S, sink: &mut K) -> Status
    // How it ends, and what was read and written; no other answer is given.
    ensures ends { Ends (S.faults source.old) (S.faults source.new) (K.faults sink.old) (K.faults sink.new) (S.left source.old) (S.left source.new) (K.taken sink.old) (K.taken sink.new) result }

    ensures done { result ≡ Status.Done → IsDone (S.left source.old) (S.left source.new) (K.taken sink.old) (K.taken sink.new) }
    ensures refused { (line : ℕ) → result ≡ Status.Refused line → IsRefused line (S.left source.old) (S.left source.new) (K.taken sink.old) (K.taken sink.new) }
    ensures read_text { result ≡ Status.ReadFault → IsCutShort (S.left source.old) (S.left source.new) (K.taken sink.old) (K.taken sink.new) }
    ensures write_text { result ≡ Status.WriteFault → IsPartial (S.left source.old) (S.left source.new) (K.taken sink.old) (K.taken sink.new) }
    ensures memory_text { result ≡ Status.NoMemory → IsPartial (S.left source.old) (S.left source.new) (K.taken sink.old) (K.taken sink.new) }

    // A fault has its cause in the object that was handed in, and a read or a write that failed is told: no other answer leaves one.
    ensures read { S.faults source.new ≡ reads_after result (S.faults source.old) }
    ensures write { K.faults sink.new ≡ writes_after result (K.faults sink.old) }

    // Where no fault comes, the answer is that of the source's bytes, or want of memory.
    ensures complete { ¬ Rose (S.faults source.old) (S.faults source.new) → ¬ Rose (K.faults sink.old) (K.faults sink.new) → IfSome (S.left source.old) (λ bytes. (result ≡ status_for (refused_in bytes)) ⊎ (result ≡ Status.NoMemory)) }

    // Whatever the schedule, its outputs have one log.
    ensures headline { (bytes : List ℕ) → ScheduleHasOneLog (schedule_of bytes) }
{
    read_schedule(alloc, source, sink)
}
