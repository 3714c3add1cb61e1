//! A member is made, or found again, on its disk.
ghost use Rattle.std.specs.Prelude.{◌≡◌, ◌<◌, [], IfSome, None, Some, true};
ghost use Rattle.vr_base.specs.Groups.{is_size};
ghost use Rattle.vr_node.specs.Opening.{OpensMember};

use std::alloc::Global;
use vr_base::{Config, Kind, Status};
use vr_disk::SectorDisk;
use vr_msg::Outbox;
use vr_replica::{FreshFault, Halt, Refusal, Replica};

/// Formats the disk for a file of this kind, and makes the replica of a new member, which runs. `Occupied`: two good copies of a superblock agree,
/// and nothing was written; `NoMemory`: they don't, and nothing was written. `DiskFault`: the calls of the format were made up to the one that
/// failed, and it alone adds one to the disk's faults.
fn make_member<D: SectorDisk>(
    alloc: Global,
    disk: &mut D,
    config: &Config,
    kind: Kind,
) -> Result<Replica, Status>
    requires size { is_size kind.version config.now.n ≡ true }
    requires member { config.now.replica < config.now.n }
    ensures { OpensMember D.SectorDisk (Some kind) config.now disk.old disk.new [] result }
{
    match Replica::fresh(alloc, disk, config, kind) {
        Ok(replica) => Ok(replica),
        Err(FreshFault::Occupied) => Err(Status::Occupied),
        Err(FreshFault::DiskFault) => Err(Status::DiskFault),
        Err(FreshFault::NoMemory) => Err(Status::NoMemory),
    }
}

/// Finds a member again on its disk, which runs: its superblock is mended and its Parts found. Then, unless sequence numbers are at their end, it
/// leaves a view that it led, loads, applies, and tells the others; `first` has what that puts out. `SuperLost`: no value opens, and no call was
/// made; `OtherMember`: that member's superblock was mended, and nothing else. `DiskFault` adds one to the disk's faults, and no other end does: the
/// calls were made up to the one that failed. `NoMemory`: a front of them was.
#[tactic(auto, using(crate::proofs::Opened::found_lost, crate::proofs::Opened::found_other, crate::proofs::Opened::found_halted, crate::proofs::Opened::found_wanting))]
fn find_member<D: SectorDisk>(
    alloc: Global,
    disk: &mut D,
    config: &Config,
    first: &mut Outbox,
) -> Result<Replica, Status>
    ensures { OpensMember D.SectorDisk None config.now disk.old disk.new first.new result }
{
    match Replica::recover(alloc, disk, config, first) {
        Ok(replica) => Ok(replica),
        Err(Refusal::Lost(_)) => Err(Status::SuperLost),
        Err(Refusal::OtherMember(found)) => Err(Status::OtherMember(found, *config)),
        Err(Refusal::Halted(Halt::DiskFault)) => Err(Status::DiskFault),
        Err(Refusal::Halted(Halt::NoMemory)) => Err(Status::NoMemory),
    }
}

/// With a kind, formats the disk as such a file and makes a new member; `first` stays empty. Without one, finds the disk's member again; `first` has
/// what its opening puts out. After `Ok` it runs. A new member is refused as `Occupied`, with nothing written; one found as `SuperLost`, with no call
/// made, or `OtherMember`, with that one's superblock mended. `DiskFault`: the calls were made up to the one that failed, and it alone adds one to
/// the disk's faults; `NoMemory`: a front of them was made.
#[tactic(auto, using(crate::proofs::Opened::made_out))]
pub fn open_member<D: SectorDisk>(
    alloc: Global,
    disk: &mut D,
    config: &Config,
    fresh: Option<Kind>,
    first: &mut Outbox,
) -> Result<Replica, Status>
    requires size { IfSome fresh (λ kind. is_size kind.version config.now.n ≡ true) }
    requires member { config.now.replica < config.now.n }
    requires empty { first.old ≡ [] }
    ensures { OpensMember D.SectorDisk fresh config.now disk.old disk.new first.new result }
{
    match fresh {
        Some(kind) => make_member(alloc, disk, config, kind),
        None => find_member(alloc, disk, config, first),
    }
}
