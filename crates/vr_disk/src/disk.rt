//! The calls of a disk.
ghost use Rattle.std.specs.Prelude.{◌≡◌, ◌<◌, ◌≤◌, ℕ, [], ◌∷◌, Option, Some, None, IfSome, is_ok, if◌then◌else◌, length, replicate};
ghost use Rattle.vr_base.specs.Causes.{HasCause};
ghost use Rattle.vr_base.specs.Bytes.{name_of};
ghost use Rattle.vr_disk.specs.DiskState.{Disk, IsFace, Attaches, ReadsTo, Runs, Write, Sync, reads};
ghost use Rattle.vr_disk.specs.Fronts.{front};
ghost use Rattle.vr_disk.specs.Sectors.{has};

use crate::{Room, SECTORS, Sector, front_sector};
use vr_base::Sum;

/// The most bytes of the name of a disk: as many as a system takes for that of a file.
pub const NAME_MOST: usize = 4095;

/// A call of a disk that failed.
#[derive(Clone, Copy, Debug, PartialEq, Eq)]
pub struct DiskFailed;

/// A disk of 3,984 sectors. What is written is kept only from the next `sync` on: a stop before it leaves each of
/// the sectors written since the last one as it was, as it was written, or damaged.
pub trait SectorDisk {
    /// What the disk holds, which calls are to fail, and by which name it was attached last, where it tells.
    ghost told: { Self → Option Disk };

    /// How often attach, write or sync has failed.
    ghost faults: { Self → ℕ };

    /// How often a read has failed.
    ghost read_faults: { Self → ℕ };

    /// Opens the disk of this name. It is a barrier: after an `Ok` no sector waits for a sync.
    fn attach(&mut self, name: &str) -> Result<(), DiskFailed>
        ensures told { Attaches name.now (told self.old) (told self.new) (is_ok result) }
        ensures cause { HasCause (faults self.old) (faults self.new) result }
        ensures others { read_faults self.new ≡ read_faults self.old };

    /// Reads a sector. After an `Err` the contents of `to` are open.
    fn read(&mut self, i: u32, to: &mut Sector) -> Result<(), DiskFailed>
        requires { i < SECTORS }
        ensures told { told self.new ≡ told self.old }
        ensures bytes { ReadsTo i (told self.old) (if is_ok result then Some to.new.bytes else None) }
        ensures cause { HasCause (read_faults self.old) (read_faults self.new) result }
        ensures others { faults self.new ≡ faults self.old };

    /// Whether a sector reads as these 512 bytes.
    fn reads_as(&mut self, i: u32, bytes: &[u8]) -> bool
        requires i { i < SECTORS }
        requires size { length bytes.now ≡ 512 }
        ensures told { told self.new ≡ told self.old }
        ensures value { IfSome (told self.old) (λ d. result ≡ has bytes.now (reads d.face i)) }
        ensures faults { faults self.new ≡ faults self.old }
        ensures reads { read_faults self.old ≤ read_faults self.new }
    {
        let mut sector = Sector { bytes: [0; 512] };
        self.read(i, &mut sector).is_ok() && sector.bytes.as_slice() == bytes
    }

    /// Whether a sector reads as zeros.
    fn reads_zeros(&mut self, i: u32) -> bool
        requires { i < SECTORS }
        ensures told { told self.new ≡ told self.old }
        ensures value { IfSome (told self.old) (λ d. result ≡ has (replicate 512 0) (reads d.face i)) }
        ensures faults { faults self.new ≡ faults self.old }
        ensures reads { read_faults self.old ≤ read_faults self.new }
    {
        self.reads_as(i, &[0; 512])
    }

    /// Writes a sector.
    fn write(&mut self, i: u32, from: &Sector) -> Result<(), DiskFailed>
        requires { i < SECTORS }
        ensures told { Runs (Write i from.now.bytes ∷ []) (told self.old) (told self.new) (is_ok result) }
        ensures cause { HasCause (faults self.old) (faults self.new) result }
        ensures others { read_faults self.new ≡ read_faults self.old };

    /// Makes what was written stay.
    fn sync(&mut self) -> Result<(), DiskFailed>
        ensures told { Runs (Sync ∷ []) (told self.old) (told self.new) (is_ok result) }
        ensures cause { HasCause (faults self.old) (faults self.new) result }
        ensures others { read_faults self.new ≡ read_faults self.old };

    /// The name of these bytes. A disk may keep texts with their names: then it makes no digest of one that it has.
    fn name_of(&mut self, room: Room, bytes: &[u8]) -> Sum
        ensures name { result.0 ≡ name_of bytes.now }
        ensures told { told self.new ≡ told self.old }
        ensures faults { faults self.new ≡ faults self.old }
        ensures reads { read_faults self.new ≡ read_faults self.old };

    /// Takes note of a text whose name is known.
    fn keep_name(&mut self, room: Room, bytes: &[u8], name: Sum)
        requires { name.0 ≡ name_of bytes.now }
        ensures told { told self.new ≡ told self.old }
        ensures faults { faults self.new ≡ faults self.old }
        ensures reads { read_faults self.new ≡ read_faults self.old };

    /// Writes to a sector the name of a text, and the text after it as far as it fits. A disk may make the name when the
    /// sector is read.
    fn write_front(&mut self, i: u32, room: Room, text: &[u8]) -> Result<(), DiskFailed>
        requires i { i < SECTORS }
        requires size { 496 ≤ length text.now }
        ensures told { Runs (Write i (front text.now) ∷ []) (told self.old) (told self.new) (is_ok result) }
        ensures cause { HasCause (faults self.old) (faults self.new) result }
        ensures others { read_faults self.new ≡ read_faults self.old }
    {
        let name = self.name_of(room, text);
        self.write(i, &front_sector(name, text))
    }

    /// Whether a sector reads as the name of a text, and the text after it as far as it fits.
    fn reads_front(&mut self, i: u32, room: Room, text: &[u8]) -> bool
        requires i { i < SECTORS }
        requires size { 496 ≤ length text.now }
        ensures told { told self.new ≡ told self.old }
        ensures value { IfSome (told self.old) (λ d. result ≡ has (front text.now) (reads d.face i)) }
        ensures faults { faults self.new ≡ faults self.old }
        ensures reads { read_faults self.old ≤ read_faults self.new }
    {
        let name = self.name_of(room, text);
        self.reads_as(i, &front_sector(name, text).bytes)
    }

    /// What is told is a disk of 3,984 sectors of 512 bytes.
    ghost whole: { (s : Self) → IfSome (told s) (λ d. IsFace d.face) };
}
