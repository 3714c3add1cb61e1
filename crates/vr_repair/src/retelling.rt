//! Entries that are told of again.
ghost use Rattle.std.specs.Prelude.{◌≡◌, ◌≤◌, ◌++◌, ◌&&◌, nat_lt, OnOk, if◌then◌else◌};
ghost use Rattle.vr_base.specs.Bytes.{name_of};
ghost use Rattle.vr_rules.specs.Outputs.{prepare, prepare_ok, send_to_all, to_primary};
ghost use Rattle.vr_rules.specs.Replica.{is_primary, is_started, last_view, version};
ghost use Rattle.vr_rules.specs.Words.{resend};
ghost use Rattle.vr_volatile.specs.Ready.{IsReady};
ghost use Rattle.vr_actions.specs.Acts.{Acts};

use std::alloc::{AllocError, Global};
use vr_actions::{Halt, Replica};
use vr_disk::SectorDisk;
use vr_header::Entry;
use vr_msg::Outbox;

// Whether the view is started, and the entry's op is above the commit number.
fn is_open(replica: &Replica, entry: &Entry) -> bool
    ensures { result ≡ (is_started replica.now && nat_lt replica.now.commit entry.now.header.op) }
{
    replica.is_started() && replica.commit() < entry.header().op
}

// The view's primary sends a prepare of the entry to each other replica, ascending; another replica sends one prepare_ok of it to the
// primary. After an `Err`, want of memory, nothing is said of outputs.
#[tactic(auto, using(vr_volatile::proofs::Memory::some_member))]
fn tell(replica: &Replica, alloc: Global, entry: &Entry, out: &mut Outbox) -> Result<(), AllocError>
    requires ready { IsReady replica.now }
    requires view { replica.now.view ≤ last_view }
    requires taken { entry.now.header.version ≤ version replica.now }
    requires made { entry.now.header.view ≤ replica.now.view }
    ensures { OnOk result (out.new ≡ out.old ++ (if is_primary replica.now then send_to_all (prepare entry.now) replica.now else to_primary (prepare_ok name_of entry.now.header) replica.now)) }
{
    if replica.is_primary() {
        replica.send_prepare(alloc, entry, out)
    } else {
        replica.acknowledge(&entry.header(), out)
    }
}

/// Where the view isn't started, or the entry's op is at most the commit number, nothing is put out. Else its primary sends a prepare of
/// the entry to each other replica, ascending, a backup one prepare_ok to the primary. Replica and disk are left as they are; after an
/// `Err` nothing is said of outputs.
#[tactic(auto, using(crate::proofs::Words::resent, crate::proofs::Words::not_resent, vr_rules::proofs::Stepping::wants))]
pub fn resend<D: SectorDisk>(
    replica: &Replica,
    alloc: Global,
    _disk: &mut D,
    entry: &Entry,
    out: &mut Outbox,
) -> Result<(), Halt>
    requires ready { IsReady replica.now }
    requires view { replica.now.view ≤ last_view }
    requires taken { entry.now.header.version ≤ version replica.now }
    requires made { entry.now.header.view ≤ replica.now.view }
    ensures { Acts D.SectorDisk (resend entry.now) replica.now replica.now _disk.old _disk.new out.old out.new result }
{
    if is_open(replica, entry) {
        tell(replica, alloc, entry, out)?;
    }
    Ok(())
}
