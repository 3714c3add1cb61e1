//! The calls that format a disk.
ghost use Rattle.std.specs.Prelude.{◌≡◌, ◌<◌, ◌≤◌, ◌∷◌, [], is_ok};
ghost use Rattle.vr_base.specs.Bytes.{name_of};
ghost use Rattle.vr_base.specs.Causes.{HasCause};
ghost use Rattle.vr_disk.specs.DiskState.{Runs, Write};
ghost use Rattle.vr_disk.specs.Regions.{header_place, prepare_place};
ghost use Rattle.vr_rings.specs.Slots.{sector_of};
ghost use Rattle.vr_rules.specs.Formatting.{format_calls, reserved_header, reserved_headers, zero_prepares};
ghost use Rattle.vr_rules.specs.Opening.{first_value};
ghost use Rattle.vr_super.specs.Opens.{file_kind};
ghost use Rattle.vr_opening.specs.Calls.{prepares_end, reserved_call};

use vr_base::{Config, Sum, Version, checksum};
use vr_disk::{
    DiskFailed, DiskFault, SECTORS, SLOTS, SectorDisk, ZEROS, header_place, prepare_place,
    prepare_sectors,
};
use vr_header::{Command, Header, Size};
use vr_rings::sector_of;
use vr_super::Super;

// The first sector of the prepares of a file of this version; it is at most `SECTORS`.
fn prepares_begin(version: Version) -> u32
    ensures place { result ≡ prepare_place version 0 }
    ensures within { result ≤ SECTORS }
{
    prepare_place(0, version)
}

// The sector after the prepares of a file of this version; it is at most `SECTORS`.
#[tactic(auto, using(crate::proofs::Calls::prepares_within))]
fn prepares_end(version: Version) -> u32
    ensures place { result ≡ prepares_end version }
    ensures within { result ≤ SECTORS }
{
    prepares_begin(version) + SLOTS * prepare_sectors(version)
}

// Writes zeros to each sector of the prepares of a file of this version, ascending, and makes no sync. An `Err` is a write that failed: those before
// it were made, and none after it. It adds one to the disk's faults; an `Ok` leaves them.
#[tactic(auto, using(crate::proofs::Calls::zeros_begin, crate::proofs::Calls::zeros_go, crate::proofs::Calls::zeros_stop, crate::proofs::Calls::zeros_end))]
fn zero_prepares<D: SectorDisk>(disk: &mut D, version: Version) -> Result<(), DiskFailed>
    ensures runs { Runs (zero_prepares version) (D.told disk.old) (D.told disk.new) (is_ok result) }
    ensures cause { HasCause (D.faults disk.old) (D.faults disk.new) result }
{
    for i in prepares_begin(version)..prepares_end(version) {
        disk.write(i, &ZEROS)?;
    }
    Ok(())
}

// The header of a slot that has no entry yet, in a file of this version and group: its command is `Reserved`, its op the slot, its size 128. Its body
// is the name of no bytes, and all else is 0.
fn reserved_header(version: Version, cluster: u64, slot: u32, body: Sum) -> Header
    requires { body.0 ≡ name_of [] }
    ensures { result ≡ reserved_header version cluster slot }
{
    let none = Sum([0; 16]);
    Header {
        body,
        parent: none,
        request_name: none,
        cluster,
        client: 0,
        request: 0,
        view: 0,
        op: slot as u64,
        commit: 0,
        size: Size::new(128),
        command: Command::Reserved,
        replica: 0,
        version,
        kind: 0,
        aux: 0,
    }
}

// Writes to the header sector of this slot the header that says that it has no entry yet; it makes no sync. An `Err` is that write failing, which
// adds one to the disk's faults; an `Ok` leaves them.
fn reserve<D: SectorDisk>(
    disk: &mut D,
    version: Version,
    cluster: u64,
    slot: u32,
    body: Sum,
) -> Result<(), DiskFailed>
    requires slot { slot < SLOTS }
    requires body { body.0 ≡ name_of [] }
    ensures runs { Runs (reserved_call version cluster slot ∷ []) (D.told disk.old) (D.told disk.new) (is_ok result) }
    ensures cause { HasCause (D.faults disk.old) (D.faults disk.new) result }
{
    let sector = sector_of(&reserved_header(version, cluster, slot, body));
    disk.write(header_place(slot), &sector)
}

// Writes to the header sector of each of the 64 slots, from slot 0 on, the header that says that it has no entry yet; it makes no sync. An `Err` is a
// write that failed: those before it were made, and none after it. It adds one to the disk's faults; an `Ok` leaves them.
#[tactic(auto, using(crate::proofs::Calls::headers_begin, crate::proofs::Calls::headers_go, crate::proofs::Calls::headers_stop, crate::proofs::Calls::headers_end))]
fn reserve_all<D: SectorDisk>(
    disk: &mut D,
    version: Version,
    cluster: u64,
) -> Result<(), DiskFailed>
    ensures runs { Runs (reserved_headers version cluster) (D.told disk.old) (D.told disk.new) (is_ok result) }
    ensures cause { HasCause (D.faults disk.old) (D.faults disk.new) result }
{
    let none = checksum(&[]);
    for slot in 0..SLOTS {
        reserve(disk, version, cluster, slot, none)?;
    }
    Ok(())
}

/// Formats the disk of a member of a new group, whose first value this is, for a file of the value's version. In this order: zeros to the prepares, a
/// header to each slot that says that it has no entry, one sync, and the four copies of the value, each synced. An `Err` is a call that failed: those
/// before it were made, and none after it. It adds one to the disk's faults; an `Ok` leaves them.
#[tactic(auto, using(vr_disk::proofs::Running::Runs_then, vr_disk::proofs::Running::Runs_stopped))]
pub fn format<D: SectorDisk>(disk: &mut D, config: &Config, value: &Super) -> Result<(), DiskFault>
    requires { value.now ≡ first_value (file_kind value.now.fields) config.now.cluster config.now.n config.now.replica }
    ensures runs { Runs (format_calls (file_kind value.now.fields) config.now.cluster config.now.n config.now.replica) (D.told disk.old) (D.told disk.new) (is_ok result) }
    ensures cause { HasCause (D.faults disk.old) (D.faults disk.new) result }
{
    let version = value.fields().version;
    zero_prepares(disk, version)?;
    reserve_all(disk, version, config.cluster)?;
    disk.sync()?;
    vr_super::write_copies(disk, value)
}
