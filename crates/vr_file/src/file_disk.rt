//! A disk of sectors in a file.
ghost use Rattle.std.specs.Prelude.{◌≡◌, ◌<◌, None, OnOk, Some, IfSome, is_some, true};
ghost use Rattle.vr_base.specs.Causes.{HasCause};
ghost use Rattle.vr_disk.specs.Regions.{sectors};
ghost use Rattle.vr_file.specs.Above.{Knows, NoneIsKnown, NoneWaits};

use crate::file::open;
use crate::kept::Kept;
use crate::open_file::OpenFile;
use std::alloc::{AllocError, Global};
use std::fs::{File, Files};
use std::io;
use std::io::ErrorKind;
use std::time::Clock;
use vr_base::{Sum, checksum};
use vr_disk::{DiskFailed, Memo, Room, Sector, SectorDisk};
use vr_io_policy::counted;

/// A disk of sectors in a file of the system: sector i stands at byte 512 i. It tells nothing. A call fails where a call of the
/// system does that is made for it, or where no file is attached; a read is made again a few times first. The first attach also fails where there is no
/// memory for sectors. The file is locked as long as it is attached.
///
/// What is read, written and forgotten when is decided by `SectorCache` of `vr_io_policy`. A read of a sector that is known makes no call. Neighbors that
/// are written one after the other go to the system together, in whole pages of 4,096 bytes: before the next write that is none of them, a sync or an
/// attach. Where that fails, it is this call that tells so.
///
/// What is written goes through the system's page cache; at each attach, and once a minute, no sector is known any more but those that wait, and the
/// system is told to forget what it keeps of the file and to read it anew, so that reads tell what the disk has.
pub struct FileDisk<R> {
    system: R,
    alloc: Global,
    file: Option<File>,
    faults: u64,
    read_faults: u64,
    /// Texts with their names, from `remember` on.
    memo: Option<Memo>,
    /// Sectors, from the first attach on.
    kept: Option<Kept>,
}

// By hand, so that a function that lets one go calls this, in place of spelling out each field.
impl<R: Drop> Drop for FileDisk<R> {
    fn drop(self) {
        let FileDisk {
            system: _,
            alloc: _,
            file: _,
            faults: _,
            read_faults: _,
            memo: _,
            kept: _,
        } = self;
    }
}

/// That no file is attached.
fn no_file() -> io::Error {
    io::Error::from(ErrorKind::NotFound)
}

impl<R> FileDisk<R> {
    /// A disk without its file, which `attach` opens through the system that is handed in. It takes no memory yet.
    pub fn new(alloc: Global, system: R) -> FileDisk<R>
        ensures { result ≡ record { system = system; alloc = alloc; file = None; faults = 0; read_faults = 0; memo = None; kept = None } }
    {
        FileDisk {
            system,
            alloc,
            file: None,
            faults: 0,
            read_faults: 0,
            memo: None,
            kept: None,
        }
    }

    /// From now on it keeps texts with their names. After an `Err` it keeps no more of them than before.
    pub fn remember(&mut self) -> Result<(), AllocError>
        ensures kept { self.new.kept ≡ self.old.kept }
        ensures faults { self.new.faults ≡ self.old.faults }
        ensures reads { self.new.read_faults ≡ self.old.read_faults }
    {
        self.memo = Some(Memo::new(self.alloc)?);
        Ok(())
    }

    /// Takes memory for sectors, where it wasn't taken yet: some 2.1 MB. An attach does it too, and fails where there is none.
    pub fn take_room(&mut self) -> Result<(), AllocError>
        ensures stays { IfSome self.old.kept (λ k. self.new.kept ≡ Some k) }
        ensures fresh { OnOk result (self.old.kept ≡ None → NoneIsKnown self.new.kept) }
        ensures file { self.new.file ≡ self.old.file }
        ensures faults { self.new.faults ≡ self.old.faults }
        ensures reads { self.new.read_faults ≡ self.old.read_faults }
    {
        // What is there already may have sectors that are yet to be written.
        match self.kept {
            Some(_) => {}
            None => self.kept = Some(Kept::new(self.alloc)?),
        }
        Ok(())
    }
}

impl<R: Clock> FileDisk<R> {
    /// Reads a sector.
    fn read_sector(&mut self, i: u32, to: &mut Sector) -> io::Result<()>
        requires { i < sectors }
        ensures known { OnOk result (Knows self.new.kept i to.new) }
        ensures faults { self.new.faults ≡ self.old.faults }
        ensures reads { self.new.read_faults ≡ self.old.read_faults }
    {
        let clock = &self.system;
        match (&self.file, &mut self.kept) {
            (Some(file), Some(kept)) => kept.read(&mut OpenFile { file, clock }, i, to),
            _ => Err(no_file()),
        }
    }

    /// Writes a sector.
    fn write_sector(&mut self, i: u32, from: &Sector) -> io::Result<()>
        requires { i < sectors }
        ensures known { OnOk result (Knows self.new.kept i from.now) }
        ensures faults { self.new.faults ≡ self.old.faults }
        ensures reads { self.new.read_faults ≡ self.old.read_faults }
    {
        let clock = &self.system;
        match (&self.file, &mut self.kept) {
            (Some(file), Some(kept)) => kept.write(&mut OpenFile { file, clock }, i, from),
            _ => Err(no_file()),
        }
    }

    /// Waits until the disk has what was written.
    fn sync_data(&mut self) -> io::Result<()>
        ensures written { OnOk result (NoneWaits self.new.kept) }
        ensures faults { self.new.faults ≡ self.old.faults }
        ensures reads { self.new.read_faults ≡ self.old.read_faults }
    {
        let clock = &self.system;
        match (&self.file, &mut self.kept) {
            (Some(file), Some(kept)) => kept.sync(&mut OpenFile { file, clock }),
            _ => Err(no_file()),
        }
    }

    /// Lets the file go, if there is one. It gets what waits first.
    fn detach(&mut self) -> io::Result<()>
        ensures gone { OnOk result (self.new.file ≡ None) }
        ensures faults { self.new.faults ≡ self.old.faults }
        ensures reads { self.new.read_faults ≡ self.old.read_faults }
    {
        let clock = &self.system;
        if let (Some(file), Some(kept)) = (&self.file, &mut self.kept) {
            kept.let_go(&mut OpenFile { file, clock })?;
        }
        // The lock of the file that it had would keep the next open of that file out.
        self.file = None;
        Ok(())
    }
}

impl<R: Files<File = File> + Clock> FileDisk<R> {
    /// Opens the file with this name in the place of the one that it had.
    fn open_anew(&mut self, name: &str) -> io::Result<File>
        ensures gone { OnOk result (self.new.file ≡ None) }
        ensures faults { self.new.faults ≡ self.old.faults }
        ensures reads { self.new.read_faults ≡ self.old.read_faults }
    {
        self.take_room()?;
        self.detach()?;
        open(&self.system, name)
    }
}

impl<R: Files<File = File> + Clock> SectorDisk for FileDisk<R> {
    ghost told = { λ _. None };

    ghost faults = { λ d. d.faults };

    ghost read_faults = { λ d. d.read_faults };

    ghost whole = { λ _. tt };

    fn attach(&mut self, name: &str) -> Result<(), DiskFailed>
        ensures attached { OnOk result (is_some self.new.file ≡ true) }
        ensures cause { HasCause self.old.faults self.new.faults result }
        ensures others { self.new.read_faults ≡ self.old.read_faults }
    {
        let opened = self.open_anew(name);
        self.file = Some(counted(opened, &mut self.faults, DiskFailed)?);
        Ok(())
    }

    fn read(&mut self, i: u32, to: &mut Sector) -> Result<(), DiskFailed>
        requires { i < sectors }
        ensures known { OnOk result (Knows self.new.kept i to.new) }
        ensures cause { HasCause self.old.read_faults self.new.read_faults result }
        ensures others { self.new.faults ≡ self.old.faults }
    {
        counted(self.read_sector(i, to), &mut self.read_faults, DiskFailed)
    }

    fn write(&mut self, i: u32, from: &Sector) -> Result<(), DiskFailed>
        requires { i < sectors }
        ensures known { OnOk result (Knows self.new.kept i from.now) }
        ensures cause { HasCause self.old.faults self.new.faults result }
        ensures others { self.new.read_faults ≡ self.old.read_faults }
    {
        counted(self.write_sector(i, from), &mut self.faults, DiskFailed)
    }

    fn sync(&mut self) -> Result<(), DiskFailed>
        ensures written { OnOk result (NoneWaits self.new.kept) }
        ensures cause { HasCause self.old.faults self.new.faults result }
        ensures others { self.new.read_faults ≡ self.old.read_faults }
    {
        counted(self.sync_data(), &mut self.faults, DiskFailed)
    }

    fn name_of(&mut self, room: Room, bytes: &[u8]) -> Sum {
        match &mut self.memo {
            Some(memo) => memo.name_of(room, bytes),
            None => checksum(bytes),
        }
    }

    fn keep_name(&mut self, room: Room, bytes: &[u8], name: Sum) {
        if let Some(memo) = &mut self.memo {
            memo.keep(room, bytes, name);
        }
    }
}
