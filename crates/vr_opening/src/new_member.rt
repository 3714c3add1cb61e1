//! The replica of a member of a new group.
ghost use Rattle.std.specs.Prelude.{◌≡◌, ◌<◌, IfOk, IfSome, is_ok, is_some, true};
ghost use Rattle.vr_base.specs.Groups.{is_size};
ghost use Rattle.vr_base.specs.Causes.{HasCause};
ghost use Rattle.vr_disk.specs.Counts.{CountsFault};
ghost use Rattle.vr_disk.specs.DiskState.{Runs};
ghost use Rattle.vr_volatile.specs.Ready.{IsReady};
ghost use Rattle.vr_rules.specs.Formatting.{format_calls};
ghost use Rattle.vr_rules.specs.Opening.{fresh};
ghost use Rattle.vr_super.specs.Opens.{file_kind, good_copies, opened};
ghost use Rattle.vr_opening.specs.Making.{Made};
ghost use Rattle.vr_opening.specs.declared.new_member.FreshFault.TheVariants as FreshFault;
ghost use Rattle.vr_disk.specs.Untouched.{Untouched};

use crate::formatting::format;
use crate::new_value::first_value;
use std::alloc::Global;
use vr_actions::Replica;
use vr_base::{Config, Kind, NoMemory};
use vr_disk::{DiskFault, SectorDisk};
use vr_super::opens;

/// Why a disk gives no new member.
#[derive(Clone, Copy, Debug, PartialEq, Eq)]
pub enum FreshFault {
    /// Two good copies of a superblock agree: the disk is a member's.
    Occupied,
    /// A write or a sync of the disk failed.
    DiskFault,
    /// There was no memory; nothing was written.
    NoMemory,
}

// `true` exactly where two good copies of a superblock agree. The disk is at most read.
#[tactic(auto, using(crate::proofs::Makes::found_opened))]
fn is_occupied<D: SectorDisk>(disk: &mut D) -> bool
    ensures untouched { Untouched D.SectorDisk disk.old disk.new }
    ensures value { IfSome (D.told disk.old) (λ d. result ≡ is_some (opened (good_copies d.face))) }
{
    opens(disk).is_some()
}

// The replica of a member of a new group, for a file of this kind, before its disk is formatted. It has its first value, knows `Nothing` of every op,
// and is ready.
#[tactic(auto, using(crate::proofs::Makes::fresh_ready))]
fn make_member(alloc: Global, config: Config, kind: Kind) -> Result<Replica, NoMemory>
    requires size { is_size kind.version config.n ≡ true }
    requires member { config.replica < config.n }
    ensures made { IfOk result (λ r. r ≡ fresh kind config.cluster config.n config.replica) }
    ensures ready { IfOk result IsReady }
{
    let value = first_value(alloc, &config, kind)?;
    Replica::blank(alloc, value)
}

// Formats the disk of this new member: zeros to the prepares, then to each slot the reserved header of its number, then one sync. After that come the
// four copies of its first value, each with a sync after it. An `Err` is a call that failed: those before it were made, and none after it. It adds
// one to the disk's faults; an `Ok` leaves them.
#[tactic(auto, using(crate::proofs::Makes::fresh_value))]
fn write_format<D: SectorDisk>(
    disk: &mut D,
    config: &Config,
    replica: &Replica,
) -> Result<(), DiskFault>
    requires { replica.now ≡ fresh (file_kind replica.now.saved.fields) config.now.cluster config.now.n config.now.replica }
    ensures runs { Runs (format_calls (file_kind replica.now.saved.fields) config.now.cluster config.now.n config.now.replica) (D.told disk.old) (D.told disk.new) (is_ok result) }
    ensures cause { HasCause (D.faults disk.old) (D.faults disk.new) result }
{
    format(disk, config, replica.saved())
}

/// Formats the disk for a file of this kind, and makes the replica of a member of a new group, which is ready. `Occupied` exactly where two good
/// copies of a superblock agree, and then nothing is written. `NoMemory`: nothing was written, either. `DiskFault`: the calls of the format were made
/// up to the one that failed, and it alone adds one to the disk's faults.
pub fn fresh<D: SectorDisk>(
    alloc: Global,
    disk: &mut D,
    config: &Config,
    kind: Kind,
) -> Result<Replica, FreshFault>
    requires size { is_size kind.version config.now.n ≡ true }
    requires member { config.now.replica < config.now.n }
    ensures ready { IfOk result IsReady }
    ensures cause { CountsFault FreshFault.DiskFault (D.faults disk.old) (D.faults disk.new) result }
    ensures made { Made kind config.now (D.told disk.old) (D.told disk.new) result }
{
    if is_occupied(disk) {
        return Err(FreshFault::Occupied);
    }
    match make_member(alloc, *config, kind) {
        Err(_) => Err(FreshFault::NoMemory),
        Ok(replica) => match write_format(disk, config, &replica) {
            Ok(()) => Ok(replica),
            Err(_) => {
                drop(replica);
                Err(FreshFault::DiskFault)
            }
        },
    }
}
