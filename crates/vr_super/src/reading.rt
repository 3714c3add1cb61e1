//! Copies as they are read, and the best of them.
ghost use Rattle.std.specs.Prelude.{◌≡◌, ◌≤◌, ◌<◌, ◌*◌, if◌then◌else◌, length, map, take, IfSome, Some, None, is_some};
ghost use Rattle.std.specs.List.{AllByRecursion};
ghost use Rattle.vr_super.specs.Opens.{alike, copy_reading, good_copies, good_copy};
ghost use Rattle.vr_super.specs.Copies.{value_of};
ghost use Rattle.vr_super.specs.Seen.{IsHonest, IsRead, seen};
ghost use Rattle.vr_disk.specs.Untouched.{Untouched};

use crate::check::is_good;
use crate::copies::reads_as;
use vr_disk::{COPY_SECTORS, COPY_SIZE, SectorDisk, read_sectors};

/// A copy that was read.
#[derive(Clone, Copy)]
pub struct Reading {
    pub bytes: [u8; COPY_SIZE],
    /// Every sector was read.
    pub whole: bool,
    /// Every sector was read, and the copy is good.
    pub good: bool,
}

// Reads a copy; false where one of its sectors can't be read.
#[tactic(auto, unfolding(crate::specs::Opens::copy_reading))]
fn fill<D: SectorDisk>(disk: &mut D, copy: u32, to: &mut [u8]) -> bool
    requires copy { copy < 4 }
    requires size { length to.old ≡ COPY_SIZE }
    ensures untouched { Untouched D.SectorDisk disk.old disk.new }
    ensures reads { D.read_faults disk.old ≤ D.read_faults disk.new }
    ensures value { IfSome (D.told disk.old) (λ d. copy_reading d.face copy ≡ (if result then Some to.new else None)) }
{
    read_sectors(disk, COPY_SECTORS * copy, COPY_SECTORS, to)
}

// Whether these bytes are good, where one of these has them.
fn known(earlier: &[Reading], bytes: &[u8; COPY_SIZE]) -> Option<bool>
    requires { AllByRecursion IsHonest earlier.now }
    ensures { IfSome result (λ good. good ≡ is_some (value_of bytes.now)) }
{
    for r in earlier {
        if r.whole && r.bytes == *bytes {
            return Some(r.good);
        }
    }
    None
}

// Whether these are the bytes of a good copy, judged anew only where no earlier one has them.
fn is_good_beside<D: SectorDisk>(disk: &mut D, bytes: &[u8; COPY_SIZE], earlier: &[Reading]) -> bool
    requires { AllByRecursion IsHonest earlier.now }
    ensures value { result ≡ is_some (value_of bytes.now) }
    ensures untouched { Untouched D.SectorDisk disk.old disk.new }
    ensures reads { D.read_faults disk.new ≡ D.read_faults disk.old }
{
    match known(earlier, bytes) {
        Some(good) => good,
        None => is_good(disk, bytes),
    }
}

// Reads a copy after these.
fn read_beside<D: SectorDisk>(disk: &mut D, copy: u32, earlier: &[Reading], to: &mut Reading)
    requires copy { copy < 4 }
    requires honest { AllByRecursion IsHonest earlier.now }
    ensures untouched { Untouched D.SectorDisk disk.old disk.new }
    ensures reads { D.read_faults disk.old ≤ D.read_faults disk.new }
    ensures honest { IsHonest to.new }
    ensures value { IfSome (D.told disk.old) (λ d. seen to.new ≡ good_copy d.face copy) }
{
    to.whole = fill(disk, copy, &mut to.bytes);
    to.good = to.whole && is_good_beside(disk, &to.bytes, earlier);
}

// Reads a copy in its place, where those before it were read.
fn read_copy<D: SectorDisk>(disk: &mut D, copy: u32, readings: &mut [Reading])
    requires copy { copy < 4 }
    requires size { length readings.old ≡ 4 }
    requires honest { AllByRecursion IsHonest (take copy readings.old) }
    ensures untouched { Untouched D.SectorDisk disk.old disk.new }
    ensures reads { D.read_faults disk.old ≤ D.read_faults disk.new }
    ensures read { IsRead copy (D.told disk.old) readings.old readings.new }
{
    let (earlier, rest) = readings.split_at_mut(copy as usize);
    read_beside(disk, copy, earlier, &mut rest[0]);
}

/// Four copies that weren't read.
pub fn unread() -> [Reading; 4] {
    [Reading {
        bytes: [0; COPY_SIZE],
        whole: false,
        good: false,
    }; 4]
}

/// Reads all four copies, each in its place: they are large, and aren't handed out.
pub fn read_all<D: SectorDisk>(disk: &mut D, readings: &mut [Reading])
    requires { length readings.old ≡ 4 }
    ensures untouched { Untouched D.SectorDisk disk.old disk.new }
    ensures reads { D.read_faults disk.old ≤ D.read_faults disk.new }
    ensures size { length readings.new ≡ 4 }
    ensures honest { AllByRecursion IsHonest readings.new }
    ensures value { IfSome (D.told disk.old) (λ d. map seen readings.new ≡ good_copies d.face) }
{
    read_copy(disk, 0, readings);
    read_copy(disk, 1, readings);
    read_copy(disk, 2, readings);
    read_copy(disk, 3, readings);
}

/// Reads copy 0, and tells whether all four copies read as it.
#[tactic(auto, unfolding(crate::specs::Opens::alike))]
pub fn read_alike<D: SectorDisk>(disk: &mut D, to: &mut [u8]) -> bool
    requires { length to.old ≡ COPY_SIZE }
    ensures untouched { Untouched D.SectorDisk disk.old disk.new }
    ensures reads { D.read_faults disk.old ≤ D.read_faults disk.new }
    ensures value { IfSome (D.told disk.old) (λ d. alike d.face ≡ (if result then Some to.new else None)) }
{
    fill(disk, 0, to) && reads_as(disk, 1, to) && reads_as(disk, 2, to) && reads_as(disk, 3, to)
}
