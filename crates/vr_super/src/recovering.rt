//! The value that opens, mended.
ghost use Rattle.std.specs.Prelude.{◌≡◌, ◌≤◌, [], Some, is_some, length, map, is_ok, true, IfOk, IfErr, IfSome};
ghost use Rattle.std.specs.List.{AllByRecursion};
ghost use Rattle.vr_base.specs.Causes.{HasCause};
ghost use Rattle.vr_disk.specs.Counts.{CountsFault};
ghost use Rattle.vr_disk.specs.DiskState.{RunsFrom};
ghost use Rattle.vr_super.specs.Calls.{mend_calls};
ghost use Rattle.vr_super.specs.Copies.{SuperValue, value_of, version_at};
ghost use Rattle.vr_super.specs.Laws.{MendKeeps, Mended};
ghost use Rattle.vr_super.specs.Opens.{four, good_copies, if_good, opens};
ghost use Rattle.vr_super.specs.Recovers.{Chosen, Finds, IsFound, RecoversFrom, copy_verdict};
ghost use Rattle.vr_super.specs.Seen.{IsHonest, seen};
ghost use Rattle.vr_disk.specs.Untouched.{Untouched};

use crate::Super;
use crate::check::{is_good, version_at};
use crate::opening::best_of;
use crate::reading::{Reading, read_alike, read_all, unread};
use crate::writing::mend_value;
use std::alloc::Global;
use vr_base::Version;
use vr_disk::{COPY_SIZE, SectorDisk};

/// Whether a copy is good.
#[derive(Clone, Copy, Debug, PartialEq, Eq)]
pub enum CopyVerdict {
    Good,
    Bad,
}

/// Why the superblock has no value, or a value wasn't written.
#[derive(Clone, Copy, Debug, PartialEq, Eq)]
pub enum SuperFault {
    /// No two good copies agree. The verdicts are those of copies 0 to 3.
    Lost([CopyVerdict; 4]),
    /// A write or a sync of the disk failed.
    DiskFault,
    /// There was no memory.
    NoMemory,
}

/// Why no value was found.
#[derive(Clone, Copy, Debug, PartialEq, Eq)]
pub enum FindFault {
    /// No two good copies agree. The verdicts are those of copies 0 to 3.
    Lost([CopyVerdict; 4]),
    /// There was no memory for the value. Its file is of this version.
    NoMemory(Version),
}

/// A value that a disk opens as.
#[derive(Drop)]
pub struct FoundValue {
    pub value: Super,
    /// All four copies were read as its bytes.
    pub alike: bool,
}

fn copy_verdict(r: &Reading) -> CopyVerdict
    ensures { result ≡ copy_verdict (seen r.now) }
{
    if r.good {
        CopyVerdict::Good
    } else {
        CopyVerdict::Bad
    }
}

fn copy_verdicts(readings: &[Reading; 4]) -> [CopyVerdict; 4]
    ensures { result ≡ map copy_verdict (map seen readings.now) }
{
    let [a, b, c, d] = readings;
    [
        copy_verdict(a),
        copy_verdict(b),
        copy_verdict(c),
        copy_verdict(d),
    ]
}

// The value of a good copy.
fn read_value(alloc: Global, bytes: &[u8]) -> Result<Super, FindFault>
    requires size { length bytes.now ≡ COPY_SIZE }
    requires good { is_some (value_of bytes.now) ≡ true }
    ensures value { IfOk result (λ v. value_of bytes.now ≡ Some v) }
    ensures fault { IfErr result (λ e. e ≡ FindFault.NoMemory (version_at bytes.now)) }
{
    match Super::read(alloc, bytes) {
        Ok(value) => Ok(value),
        Err(_) => Err(FindFault::NoMemory(version_at(bytes))),
    }
}

// The value that four copies open as that read as these bytes.
fn choose_alike<D: SectorDisk>(
    alloc: Global,
    disk: &mut D,
    bytes: &[u8],
) -> Result<Super, FindFault>
    requires { length bytes.now ≡ COPY_SIZE }
    ensures untouched { Untouched D.SectorDisk disk.old disk.new }
    ensures reads { D.read_faults disk.new ≡ D.read_faults disk.old }
    ensures value { Chosen (four (if_good (Some bytes.now))) result }
{
    if is_good(disk, bytes) {
        read_value(alloc, bytes)
    } else {
        Err(FindFault::Lost([CopyVerdict::Bad; 4]))
    }
}

// The value that these copies open as.
fn choose(alloc: Global, readings: &[Reading; 4]) -> Result<Super, FindFault>
    requires { AllByRecursion IsHonest readings.now }
    ensures { Chosen (map seen readings.now) result }
{
    match best_of(readings) {
        None => Err(FindFault::Lost(copy_verdicts(readings))),
        Some(best) => read_value(alloc, &best.bytes),
    }
}

// The value that the disk opens as, where its copies may differ.
fn choose_apart<D: SectorDisk>(alloc: Global, disk: &mut D) -> Result<Super, FindFault>
    ensures untouched { Untouched D.SectorDisk disk.old disk.new }
    ensures reads { D.read_faults disk.old ≤ D.read_faults disk.new }
    ensures value { IfSome (D.told disk.old) (λ d. Chosen (good_copies d.face) result) }
{
    let mut readings = unread();
    read_all(disk, &mut readings);
    choose(alloc, &readings)
}

/// The value that the disk opens as. It writes nothing.
pub fn find<D: SectorDisk>(alloc: Global, disk: &mut D) -> Result<FoundValue, FindFault>
    ensures untouched { Untouched D.SectorDisk disk.old disk.new }
    ensures reads { D.read_faults disk.old ≤ D.read_faults disk.new }
    ensures value { IfSome (D.told disk.old) (λ d. Finds d.face result) }
{
    let mut first = [0; COPY_SIZE];
    if read_alike(disk, &mut first) {
        match choose_alike(alloc, disk, &first) {
            Ok(value) => Ok(FoundValue { value, alike: true }),
            Err(fault) => Err(fault),
        }
    } else {
        match choose_apart(alloc, disk) {
            Ok(value) => Ok(FoundValue {
                value,
                alike: false,
            }),
            Err(fault) => Err(fault),
        }
    }
}

/// The value that was found, with its copies mended. Where all four were read as its bytes the disk is left alone, and they aren't read again.
pub fn mend_found<D: SectorDisk>(disk: &mut D, found: FoundValue) -> Result<Super, SuperFault>
    requires { IfSome (D.told disk.old) (λ d. IsFound d.face found) }
    ensures runs { RunsFrom (mend_calls found.value) (D.told disk.old) (D.told disk.new) (is_ok result) }
    ensures kept { IfOk result (λ v. v ≡ found.value) }
    ensures fault { IfErr result (λ e. e ≡ SuperFault.DiskFault) }
    ensures cause { HasCause (D.faults disk.old) (D.faults disk.new) result }
    ensures reads { D.read_faults disk.old ≤ D.read_faults disk.new }
    ensures alike { found.alike ≡ true → disk.new ≡ disk.old }
{
    if found.alike {
        return Ok(found.value);
    }
    match mend_value(disk, &found.value) {
        Ok(()) => Ok(found.value),
        Err(_) => Err(SuperFault::DiskFault),
    }
}

/// The value that the disk opens as, with its copies mended.
pub fn recover<D: SectorDisk>(alloc: Global, disk: &mut D) -> Result<Super, SuperFault>
    ensures value { RecoversFrom (D.told disk.old) (D.told disk.new) result }
    ensures cause { CountsFault SuperFault.DiskFault (D.faults disk.old) (D.faults disk.new) result }
    ensures reads { D.read_faults disk.old ≤ D.read_faults disk.new }

    // A stop at any of its calls leaves a disk that opens as the same value.
    ensures stop { IfSome (D.told disk.old) (λ d. d.face.waiting ≡ [] → (v : SuperValue) → opens d.face ≡ Some v → MendKeeps v d.face) }

    // The disk as the call leaves it opens as that value too, whatever it answers; after an `Ok` all four copies have the value.
    ensures left { IfSome (D.told disk.old) (λ d. d.face.waiting ≡ [] → (v : SuperValue) → opens d.face ≡ Some v → IfSome (D.told disk.new) (λ e. Mended v (is_ok result) e.face)) }
{
    match find(alloc, disk) {
        Ok(found) => mend_found(disk, found),
        Err(FindFault::Lost(verdicts)) => Err(SuperFault::Lost(verdicts)),
        Err(FindFault::NoMemory(_)) => Err(SuperFault::NoMemory),
    }
}
