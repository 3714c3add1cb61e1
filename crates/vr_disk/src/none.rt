//! A disk that isn't there.
ghost use Rattle.std.specs.Prelude.{◌≡◌, None, IsErr};
ghost use Rattle.vr_base.specs.Causes.{HasCause};

use crate::{DiskFailed, Room, Sector, SectorDisk};
use vr_base::{Sum, checksum};

/// A disk that isn't there: each call fails and adds one to its count.
#[derive(Drop)]
pub struct NoDisk {
    faults: u64,
    read_faults: u64,
}

impl NoDisk {
    pub fn new() -> NoDisk
        ensures faults { result.faults ≡ 0 }
        ensures read_faults { result.read_faults ≡ 0 }
    {
        NoDisk {
            faults: 0,
            read_faults: 0,
        }
    }

    fn fail(&mut self) -> Result<(), DiskFailed>
        ensures failed { IsErr result }
        ensures cause { HasCause self.old.faults self.new.faults result }
        ensures others { self.new.read_faults ≡ self.old.read_faults }
    {
        self.faults = self.faults.saturating_add(1);
        Err(DiskFailed)
    }
}

impl SectorDisk for NoDisk {
    ghost told = { λ _. None };

    ghost faults = { λ d. d.faults };

    ghost read_faults = { λ d. d.read_faults };

    ghost whole = { λ _. tt };

    fn attach(&mut self, _name: &str) -> Result<(), DiskFailed>
        ensures failed { IsErr result }
        ensures cause { HasCause self.old.faults self.new.faults result }
        ensures others { self.new.read_faults ≡ self.old.read_faults }
    {
        self.fail()
    }

    fn read(&mut self, _i: u32, _to: &mut Sector) -> Result<(), DiskFailed>
        ensures failed { IsErr result }
        ensures cause { HasCause self.old.read_faults self.new.read_faults result }
        ensures others { self.new.faults ≡ self.old.faults }
    {
        self.read_faults = self.read_faults.saturating_add(1);
        Err(DiskFailed)
    }

    fn write(&mut self, _i: u32, _from: &Sector) -> Result<(), DiskFailed>
        ensures failed { IsErr result }
        ensures cause { HasCause self.old.faults self.new.faults result }
        ensures others { self.new.read_faults ≡ self.old.read_faults }
    {
        self.fail()
    }

    fn sync(&mut self) -> Result<(), DiskFailed>
        ensures failed { IsErr result }
        ensures cause { HasCause self.old.faults self.new.faults result }
        ensures others { self.new.read_faults ≡ self.old.read_faults }
    {
        self.fail()
    }

    fn name_of(&mut self, _room: Room, bytes: &[u8]) -> Sum {
        checksum(bytes)
    }

    fn keep_name(&mut self, _room: Room, _bytes: &[u8], _name: Sum) {}
}
