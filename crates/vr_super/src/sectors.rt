//! Sectors one after the other of which the last are zeros.
ghost use Rattle.std.specs.Prelude.{◌≡◌, ◌≤◌, ◌+◌, ◌-◌, ◌*◌, ◌++◌, ◌∷◌, [], drop, length, replicate, IfSome, is_ok};
ghost use Rattle.vr_base.specs.Causes.{HasCause};
ghost use Rattle.vr_disk.specs.DiskState.{Runs, Sync};
ghost use Rattle.vr_disk.specs.Sectors.{has, together, writes};
ghost use Rattle.vr_disk.specs.Untouched.{Untouched};

use vr_disk::{
    DiskFailed, SECTOR_SIZE, SECTORS, SectorDisk, are_zeros, sectors_read_as, write_sectors,
    write_zeros,
};

// Writes these bytes to so many sectors: those that are filled, and zeros after them.
#[tactic(auto, using(crate::proofs::Behind::filled_then, crate::proofs::Behind::filled_stopped))]
fn write_filled<D: SectorDisk>(
    disk: &mut D,
    at: u32,
    count: u32,
    filled: u32,
    bytes: &[u8],
) -> Result<(), DiskFailed>
    requires within { at + count ≤ SECTORS }
    requires size { length bytes.now ≡ 512 * count }
    requires filled { filled ≤ count }
    requires zeros { drop (512 * filled) bytes.now ≡ replicate (512 * (count - filled)) 0 }
    ensures runs { Runs (writes at count bytes.now) (D.told disk.old) (D.told disk.new) (is_ok result) }
    ensures cause { HasCause (D.faults disk.old) (D.faults disk.new) result }
    ensures others { D.read_faults disk.new ≡ D.read_faults disk.old }
{
    write_sectors(disk, at, filled, bytes)?;
    write_zeros(disk, at + filled, count - filled)?;
    Ok(())
}

/// Writes these bytes to so many sectors, of which the first are filled, and syncs them.
#[tactic(auto, using(vr_disk::proofs::Running::Runs_then, vr_disk::proofs::Running::Runs_stopped))]
pub fn write_synced<D: SectorDisk>(
    disk: &mut D,
    at: u32,
    count: u32,
    filled: u32,
    bytes: &[u8],
) -> Result<(), DiskFailed>
    requires within { at + count ≤ SECTORS }
    requires size { length bytes.now ≡ 512 * count }
    requires filled { filled ≤ count }
    requires zeros { drop (512 * filled) bytes.now ≡ replicate (512 * (count - filled)) 0 }
    ensures runs { Runs (writes at count bytes.now ++ Sync ∷ []) (D.told disk.old) (D.told disk.new) (is_ok result) }
    ensures cause { HasCause (D.faults disk.old) (D.faults disk.new) result }
    ensures others { D.read_faults disk.new ≡ D.read_faults disk.old }
{
    write_filled(disk, at, count, filled, bytes)?;
    disk.sync()?;
    Ok(())
}

/// Whether so many sectors read as these bytes, of which the first are filled.
pub fn read_filled<D: SectorDisk>(
    disk: &mut D,
    at: u32,
    count: u32,
    filled: u32,
    bytes: &[u8],
) -> bool
    requires within { at + count ≤ SECTORS }
    requires size { length bytes.now ≡ 512 * count }
    requires filled { filled ≤ count }
    requires zeros { drop (512 * filled) bytes.now ≡ replicate (512 * (count - filled)) 0 }
    ensures untouched { Untouched D.SectorDisk disk.old disk.new }
    ensures value { IfSome (D.told disk.old) (λ d. result ≡ has bytes.now (together at count d.face)) }
    ensures reads { D.read_faults disk.old ≤ D.read_faults disk.new }
{
    let (front, _) = bytes.split_at(SECTOR_SIZE * filled as usize);
    if !sectors_read_as(disk, at, filled, front) {
        return false;
    }
    are_zeros(disk, at + filled, count - filled)
}
