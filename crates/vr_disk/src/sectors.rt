//! Sectors one after the other, written and read together.
ghost use Rattle.std.specs.Prelude.{◌≡◌, ◌≤◌, ◌<◌, ◌+◌, ◌*◌, Some, None, if◌then◌else◌, length, replicate, IfSome, is_ok};
ghost use Rattle.vr_base.specs.Bytes.{piece};
ghost use Rattle.vr_base.specs.Causes.{HasCause, one_more};
ghost use Rattle.vr_disk.specs.DiskState.{Runs, reads};
ghost use Rattle.vr_disk.specs.Sectors.{has, together, writes};
ghost use Rattle.vr_disk.specs.Untouched.{Untouched};

use crate::{DiskFailed, SECTORS, Sector, SectorDisk, ZEROS};
use vr_base::put;

/// The 512 bytes from a place on.
#[tactic(auto, unfolding(vr_base::specs::Bytes::piece))]
pub fn sector_at(bytes: &[u8], at: usize) -> Sector
    requires { at + 512 ≤ length bytes.now }
    ensures { result.bytes ≡ piece at 512 bytes.now }
{
    let mut sector = Sector { bytes: [0; 512] };
    sector.bytes.copy_from_slice(&bytes[at..at + 512]);
    sector
}

/// Writes these bytes to so many sectors from one on.
pub fn write_sectors<D: SectorDisk>(
    disk: &mut D,
    at: u32,
    count: u32,
    bytes: &[u8],
) -> Result<(), DiskFailed>
    requires within { at + count ≤ SECTORS }
    requires size { 512 * count ≤ length bytes.now }
    ensures runs { Runs (writes at count bytes.now) (D.told disk.old) (D.told disk.new) (is_ok result) }
    ensures cause { HasCause (D.faults disk.old) (D.faults disk.new) result }
    ensures others { D.read_faults disk.new ≡ D.read_faults disk.old }
{
    for k in 0..count {
        disk.write(at + k, &sector_at(bytes, 512 * k as usize))?;
    }
    Ok(())
}

/// Writes zeros to so many sectors from one on. It copies nothing.
pub fn write_zeros<D: SectorDisk>(disk: &mut D, at: u32, count: u32) -> Result<(), DiskFailed>
    requires { at + count ≤ SECTORS }
    ensures runs { Runs (writes at count (replicate (512 * count) 0)) (D.told disk.old) (D.told disk.new) (is_ok result) }
    ensures cause { HasCause (D.faults disk.old) (D.faults disk.new) result }
    ensures others { D.read_faults disk.new ≡ D.read_faults disk.old }
{
    for k in 0..count {
        disk.write(at + k, &ZEROS)?;
    }
    Ok(())
}

/// Reads so many sectors from one on; false where one of them can't be read, and then the bytes of `to` are open.
pub fn read_sectors<D: SectorDisk>(disk: &mut D, at: u32, count: u32, to: &mut [u8]) -> bool
    requires within { at + count ≤ SECTORS }
    requires size { length to.old ≡ 512 * count }
    ensures untouched { Untouched D.SectorDisk disk.old disk.new }
    ensures value { IfSome (D.told disk.old) (λ d. together at count d.face ≡ (if result then Some to.new else None)) }
    ensures reads { D.read_faults disk.old ≤ D.read_faults disk.new }
    ensures cause { D.read_faults disk.new ≡ (if result then D.read_faults disk.old else one_more (D.read_faults disk.old)) }
{
    let mut sector = Sector { bytes: [0; 512] };
    for k in 0..count {
        if !disk.read(at + k, &mut sector).is_ok() {
            return false;
        }
        put(to, 512 * k as usize, &sector.bytes);
    }
    true
}

// Whether a sector reads as the 512 bytes from a place on.
#[tactic(auto, unfolding(vr_base::specs::Bytes::piece))]
fn sector_reads_as<D: SectorDisk>(disk: &mut D, i: u32, bytes: &[u8], at: usize) -> bool
    requires i { i < SECTORS }
    requires size { at + 512 ≤ length bytes.now }
    ensures untouched { Untouched D.SectorDisk disk.old disk.new }
    ensures value { IfSome (D.told disk.old) (λ d. result ≡ has (piece at 512 bytes.now) (reads d.face i)) }
    ensures reads { D.read_faults disk.old ≤ D.read_faults disk.new }
{
    disk.reads_as(i, &bytes[at..at + 512])
}

/// Whether so many sectors from one on read as these bytes.
pub fn sectors_read_as<D: SectorDisk>(disk: &mut D, at: u32, count: u32, bytes: &[u8]) -> bool
    requires within { at + count ≤ SECTORS }
    requires size { length bytes.now ≡ 512 * count }
    ensures untouched { Untouched D.SectorDisk disk.old disk.new }
    ensures value { IfSome (D.told disk.old) (λ d. result ≡ has bytes.now (together at count d.face)) }
    ensures reads { D.read_faults disk.old ≤ D.read_faults disk.new }
{
    for k in 0..count {
        if !sector_reads_as(disk, at + k, bytes, 512 * k as usize) {
            return false;
        }
    }
    true
}

/// Whether so many sectors from one on read as zeros.
pub fn are_zeros<D: SectorDisk>(disk: &mut D, at: u32, count: u32) -> bool
    requires { at + count ≤ SECTORS }
    ensures untouched { Untouched D.SectorDisk disk.old disk.new }
    ensures value { IfSome (D.told disk.old) (λ d. result ≡ has (replicate (512 * count) 0) (together at count d.face)) }
    ensures reads { D.read_faults disk.old ≤ D.read_faults disk.new }
{
    for k in 0..count {
        if !disk.reads_zeros(at + k) {
            return false;
        }
    }
    true
}
