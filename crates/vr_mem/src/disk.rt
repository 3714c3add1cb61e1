//! The disk in memory.
ghost use Rattle.std.specs.Prelude.{◌≡◌, ◌-◌, ◌≤◌, Some, None, false, [], IfOk};
ghost use Rattle.vr_disk.specs.DiskState.{nothing_beside};
ghost use Rattle.vr_mem.specs.Honesty.{IsHonest};
ghost use Rattle.vr_mem.specs.Seen.{copies, zero_cell};
ghost use Rattle.vr_mem.specs.Cells.{disk_of};

use crate::CellDisk;
use std::alloc::Global;
use vr_base::{NoMemory, Sum};
use vr_disk::{DiskFailed, Room, SECTORS, Sector, SectorDisk};

/// A disk of 3,984 sectors in memory. Its reads give what it holds and never fail.
#[derive(Drop)]
pub struct MemDisk {
    disk: CellDisk,
    ghost honest: { IsHonest (disk_of disk).face },
}

impl MemDisk {
    ghost use Rattle.vr_mem.specs.Told.{told_by};

    /// A disk of zeros, of which no call is to fail. All its memory is taken here.
    pub fn new(alloc: Global) -> Result<MemDisk, NoMemory>
        ensures face { IfOk result (λ m. (told_by m).face ≡ record { cells = copies SECTORS zero_cell; waiting = [] }) }
        ensures fate { IfOk result (λ m. (told_by m).fate ≡ record { fuse = None; made = 0; failing = []; dead = false }) }
        ensures beside { IfOk result (λ m. (told_by m).beside ≡ nothing_beside) }
        ensures faults { IfOk result (λ m. m.disk.faults ≡ 0) }
        ensures read_faults { IfOk result (λ m. m.disk.read_faults ≡ 0) }
    {
        Ok(MemDisk {
            disk: CellDisk::new(alloc)?,
        })
    }

    /// The calls of attach, write and sync with these numbers are to fail, counted from 1 from now on.
    pub fn fail(&mut self, list: Vec<u64>)
        ensures told { told_by self.new ≡ record (told_by self.old) { fate = record (told_by self.old).fate { made = 0; failing = list.items } } }
        ensures faults { self.new.disk.faults ≡ self.old.disk.faults }
        ensures read_faults { self.new.disk.read_faults ≡ self.old.disk.read_faults }
    {
        self.disk.fail(list);
    }

    /// The `j`-th write or sync from now on is cut by this code. It takes the place of an earlier fuse.
    pub fn fuse(&mut self, j: u64, code: u64)
        requires { 1 ≤ j }
        ensures told { told_by self.new ≡ record (told_by self.old) { fate = record (told_by self.old).fate { fuse = Some (record { calls = j - 1; code = code }) } } }
        ensures faults { self.new.disk.faults ≡ self.old.disk.faults }
        ensures read_faults { self.new.disk.read_faults ≡ self.old.disk.read_faults }
    {
        self.disk.fuse(j, code);
    }

    /// Whether the fuse has cut a call: each later attach, write and sync fails, until `revive`.
    pub fn fired(&self) -> bool
        ensures { result ≡ (told_by self.now).fate.dead }
    {
        self.disk.fired()
    }

    /// The next calls go through again.
    pub fn revive(&mut self)
        ensures told { told_by self.new ≡ record (told_by self.old) { fate = record (told_by self.old).fate { dead = false } } }
        ensures faults { self.new.disk.faults ≡ self.old.disk.faults }
        ensures read_faults { self.new.disk.read_faults ≡ self.old.disk.read_faults }
    {
        self.disk.revive();
    }
}

impl SectorDisk for MemDisk {
    ghost use Rattle.vr_mem.specs.Told.{told_by, told_is_whole};

    ghost told = { λ m. Some (told_by m) };

    ghost faults = { λ m. m.disk.faults };

    ghost read_faults = { λ m. m.disk.read_faults };

    ghost whole = { told_is_whole };

    fn attach(&mut self, name: &str) -> Result<(), DiskFailed> {
        self.disk.attach(name)
    }

    fn read(&mut self, i: u32, to: &mut Sector) -> Result<(), DiskFailed> {
        self.disk.read(i, to)
    }

    fn write(&mut self, i: u32, from: &Sector) -> Result<(), DiskFailed> {
        self.disk.write(i, from)
    }

    fn sync(&mut self) -> Result<(), DiskFailed> {
        self.disk.sync()
    }

    fn write_front(&mut self, i: u32, room: Room, text: &[u8]) -> Result<(), DiskFailed> {
        self.disk.write_front(i, room, text)
    }

    fn reads_front(&mut self, i: u32, room: Room, text: &[u8]) -> bool {
        self.disk.reads_front(i, room, text)
    }

    fn name_of(&mut self, room: Room, bytes: &[u8]) -> Sum {
        self.disk.name_of(room, bytes)
    }

    fn keep_name(&mut self, room: Room, bytes: &[u8], name: Sum) {
        self.disk.keep_name(room, bytes, name);
    }
}
