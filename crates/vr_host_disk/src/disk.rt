//! The disk of a member.
ghost use Rattle.std.specs.Prelude.{◌≡◌, ◌-◌, ◌<◌, ◌≤◌, [], ◌∷◌, Some, IfOk, length, replicate};
ghost use Rattle.vr_base.specs.Bytes.{name_of};
ghost use Rattle.vr_disk.specs.DiskState.{Attaches, Runs, Sync, Write, reads};
ghost use Rattle.vr_disk.specs.Fronts.{front};
ghost use Rattle.vr_disk.specs.Sectors.{has};
ghost use Rattle.vr_lie.specs.Faults.{IsFault};
ghost use Rattle.vr_lie.specs.Told.{version_by};
ghost use Rattle.vr_host_disk.specs.Laws.{revived};
ghost use Rattle.vr_host_disk.specs.Told.{armed};

use std::alloc::Global;
use vr_base::{NoMemory, Sum, Version};
use vr_disk::{DiskFailed, Room, SECTORS, Sector, SectorDisk};
use vr_lie::{Fault, Faulted, LieDisk};

/// A disk that lies, for a file of either version, and tells what its slots hold beside what its sectors do.
#[derive(Drop)]
pub struct HostDisk {
    lie: LieDisk,
    ghost version: { (1 ≤ version_by lie) × (version_by lie ≤ 2) },
}

impl HostDisk {
    ghost use Rattle.vr_host_disk.specs.Disks.{IsNew, TakesVersion, Tells, TriesFault, told_by};

    /// A disk of zeros for a file of this version, of which no call is to fail.
    pub fn new(alloc: Global, version: Version) -> Result<HostDisk, NoMemory>
        ensures { IfOk result (IsNew version) }
    {
        Ok(HostDisk {
            lie: LieDisk::new(alloc, version)?,
        })
    }

    /// The version of the file that it is for.
    pub fn version(&self) -> Version
        ensures { result ≡ version_by self.now.lie }
    {
        self.lie.version()
    }

    /// From now on the file on it is one of this version: what a slot reads as in such a file it holds.
    pub fn set_version(&mut self, version: Version)
        ensures { TakesVersion version self.old self.new }
    {
        self.lie.set_version(version);
    }

    /// The `j`-th write or sync from now on is cut by this code. It takes the place of an earlier fuse.
    pub fn fuse(&mut self, j: u64, code: u64)
        requires { 1 ≤ j }
        ensures { Tells (armed (j - 1) code (told_by self.old)) self.old self.new }
    {
        self.lie.fuse(j, code);
    }

    /// After a fuse has cut a call the next calls go through again.
    pub fn revive(&mut self)
        ensures { Tells (revived (told_by self.old)) self.old self.new }
    {
        self.lie.revive();
    }

    /// Does a fault, or keeps it out.
    pub fn fault(&mut self, fault: &Fault) -> Faulted
        requires { IsFault fault.now }
        ensures { TriesFault fault.now self.old self.new result }
    {
        self.lie.fault(fault)
    }
}

impl SectorDisk for HostDisk {
    ghost use Rattle.vr_host_disk.specs.Disks.{Calls, Reads, Tells, told_by, told_is_whole};

    ghost told = { λ m. Some (told_by m) };

    ghost faults = { λ m. m.lie.disk.faults };

    ghost read_faults = { λ m. m.lie.read_faults };

    ghost whole = { told_is_whole };

    fn attach(&mut self, name: &str) -> Result<(), DiskFailed>
        ensures { Calls (Attaches name.now) self.old self.new result }
    {
        self.lie.attach(name)
    }

    fn read(&mut self, i: u32, to: &mut Sector) -> Result<(), DiskFailed>
        requires { i < SECTORS }
        ensures { Reads i to.new.bytes self.old self.new result }
    {
        self.lie.read(i, to)
    }

    fn reads_as(&mut self, i: u32, bytes: &[u8]) -> bool
        requires i { i < SECTORS }
        requires size { length bytes.now ≡ 512 }
        ensures value { result ≡ has bytes.now (reads (told_by self.old).face i) }
        ensures same { Tells (told_by self.old) self.old self.new }
    {
        self.lie.reads_as(i, bytes)
    }

    fn reads_zeros(&mut self, i: u32) -> bool
        requires { i < SECTORS }
        ensures value { result ≡ has (replicate 512 0) (reads (told_by self.old).face i) }
        ensures same { Tells (told_by self.old) self.old self.new }
    {
        self.lie.reads_zeros(i)
    }

    fn write(&mut self, i: u32, from: &Sector) -> Result<(), DiskFailed>
        requires { i < SECTORS }
        ensures { Calls (Runs (Write i from.now.bytes ∷ [])) self.old self.new result }
    {
        self.lie.write(i, from)
    }

    fn write_front(&mut self, i: u32, room: Room, text: &[u8]) -> Result<(), DiskFailed>
        requires i { i < SECTORS }
        requires size { 496 ≤ length text.now }
        ensures { Calls (Runs (Write i (front text.now) ∷ [])) self.old self.new result }
    {
        self.lie.write_front(i, room, text)
    }

    fn reads_front(&mut self, i: u32, room: Room, text: &[u8]) -> bool
        requires i { i < SECTORS }
        requires size { 496 ≤ length text.now }
        ensures value { result ≡ has (front text.now) (reads (told_by self.old).face i) }
        ensures same { Tells (told_by self.old) self.old self.new }
    {
        self.lie.reads_front(i, room, text)
    }

    fn sync(&mut self) -> Result<(), DiskFailed>
        ensures { Calls (Runs (Sync ∷ [])) self.old self.new result }
    {
        self.lie.sync()
    }

    fn name_of(&mut self, room: Room, bytes: &[u8]) -> Sum
        ensures name { result.0 ≡ name_of bytes.now }
        ensures same { Tells (told_by self.old) self.old self.new }
    {
        self.lie.name_of(room, bytes)
    }

    fn keep_name(&mut self, room: Room, bytes: &[u8], name: Sum)
        requires { name.0 ≡ name_of bytes.now }
        ensures { Tells (told_by self.old) self.old self.new }
    {
        self.lie.keep_name(room, bytes, name);
    }
}
