//! The file of a member becomes one of version 2.
ghost use Rattle.std.specs.Prelude.{◌≡◌};
ghost use Rattle.vr_disk.specs.Counts.{CountsFault};
ghost use Rattle.vr_node.specs.Moving.{MigrationEnds, MovesFile};
ghost use Rattle.vr_node.specs.Stops.{disk_after};

use std::alloc::Global;
use vr_base::{Config, Status};
use vr_disk::SectorDisk;
use vr_replica::{Halt, Refusal, Replica};

/// Migrates the file on a disk that is attached. `Done`: its superblock was mended, and in a file of version 1 each prepare written at its new place,
/// then the value saved as one of version 2. `SuperLost`: no value opens, and no call was made; `OtherMember`: that member's superblock was mended,
/// and nothing else. `DiskFault`: the calls were made up to the one that failed, and it alone adds one to the disk's faults. `NoMemory`: none was
/// made, or the mending alone.
fn move_file<D: SectorDisk>(alloc: Global, disk: &mut D, config: &Config) -> Status
    ensures ends { MovesFile config.now (D.told disk.old) (D.told disk.new) result }
    ensures disk { D.faults disk.new ≡ disk_after result (D.faults disk.old) }
{
    match Replica::migrate(alloc, disk, config) {
        Ok(()) => Status::Done,
        Err(Refusal::Lost(_)) => Status::SuperLost,
        Err(Refusal::OtherMember(found)) => Status::OtherMember(found, *config),
        Err(Refusal::Halted(Halt::DiskFault)) => Status::DiskFault,
        Err(Refusal::Halted(Halt::NoMemory)) => Status::NoMemory,
    }
}

/// Attaches the disk by this name, and then migrates its file, if it is that of the member that is asked for. `Done`: the superblock was mended, and
/// in a file of version 1 each prepare written at its new place, then the value saved as one of version 2. `SuperLost` wrote nothing; `OtherMember`
/// mended the superblock alone. `DiskFault`: the attach failed and nothing was written, or the calls were made up to the one that failed. `NoMemory`:
/// nothing was written, or the mending alone was done.
pub fn run_migration<D: SectorDisk>(
    alloc: Global,
    config: &Config,
    file: &str,
    disk: &mut D,
) -> Status
    // Its disk is attached by that name.
    ensures ends { MigrationEnds config.now file.now (D.told disk.old) (D.told disk.new) result }
    // A fault of the disk is told, and no other answer leaves one.
    ensures disk { D.faults disk.new ≡ disk_after result (D.faults disk.old) }
{
    match disk.attach(file) {
        Ok(()) => move_file(alloc, disk, config),
        Err(_) => Status::DiskFault,
    }
}
