//! What a replica acknowledges of a log that it took over.
ghost use Rattle.std.specs.Prelude.{◌≡◌, ◌<◌, ◌≤◌, ◌++◌, ◌^◌, OnOk};
ghost use Rattle.vr_base.specs.Bytes.{name_of};
ghost use Rattle.vr_actions.specs.Acks.{stored_ack};
ghost use Rattle.vr_actions.specs.Telling.{Tells, each_to};
ghost use Rattle.vr_volatile.specs.Ready.{IsReady};
ghost use Rattle.vr_rules.specs.Replica.{last_view};
ghost use Rattle.vr_rules.specs.Rules.{acknowledge_stored};

use std::alloc::AllocError;
use vr_header::Part;
use vr_msg::Outbox;
use vr_volatile::Replica;

// Where the Part of this op is `Here`, one prepare_ok of it to the view's primary is put out, else nothing. Whether its entry reads isn't
// looked at. After an `Err`, want of memory, nothing is said of outputs.
#[tactic(auto, using(crate::proofs::Acks::here_entry))]
fn acknowledge_stored(replica: &Replica, op: u64, out: &mut Outbox) -> Result<(), AllocError>
    requires ready { IsReady replica.now }
    requires view { replica.now.view ≤ last_view }
    ensures { OnOk result (out.new ≡ out.old ++ stored_ack op replica.now) }
{
    match replica.part_at(op) {
        Part::Here(header) => replica.acknowledge(&header, out),
        _ => Ok(()),
    }
}

/// For each op above the commit number up to this one, ascending, whose Part is `Here`: one prepare_ok to the view's primary. Nothing else
/// is put out, and no entry is read. `Tells`: these outputs are the word's, which leaves replica and disk as they are. After an `Err`, want
/// of memory, nothing is said of outputs.
#[tactic(auto, using(crate::proofs::Acks::acks))]
pub fn acknowledge_all(replica: &Replica, head: u64, out: &mut Outbox) -> Result<(), AllocError>
    requires ready { IsReady replica.now }
    requires view { replica.now.view ≤ last_view }
    requires number { head < 2 ^ 63 }
    ensures { OnOk result (Tells (each_to (acknowledge_stored name_of) head) replica.now out.old out.new) }
{
    let commit = replica.commit();
    for i in 0..head.saturating_sub(commit) {
        acknowledge_stored(replica, commit + 1 + i, out)?;
    }
    Ok(())
}
