//! The host's disk: sectors in memory, that a loss of power takes back to the last sync.
ghost use Rattle.std.specs.Prelude.{◌≡◌, ◌≤◌, [], None, Some, IfOk, false, is_ok, vec_capacity};
ghost use Rattle.vr_base.specs.Causes.{HasCause};
ghost use Rattle.vr_disk.specs.DiskState.{name_most, nothing_beside};
ghost use Rattle.vr_disk.specs.Regions.{sectors};
ghost use Rattle.vr_mem.specs.Seen.{copies, zero_cell};
ghost use Rattle.vr_embed.specs.Seen.{AreSectors};

use crate::power::{Judged, Power};
use crate::sectors::Sectors;
use std::alloc::Global;
use vr_replica::{DiskFailed, NAME_MOST, NoMemory, Room, Sector, SectorDisk, Sum, checksum};

/// Sectors in memory. Its power may fail at a call; what was written since the last sync is lost then.
#[derive(Drop)]
pub struct Shelf {
    sectors: Sectors,
    power: Power,
    faults: u64,
    name: Vec<u8>,
    is_attached: bool,
    ghost whole: { AreSectors sectors },
    ghost room: { name_most ≤ vec_capacity name },
}

impl Shelf {
    ghost use Rattle.vr_embed.specs.Told.{told_by};

    /// A shelf of zeros.
    pub fn new(alloc: Global) -> Result<Shelf, NoMemory>
        ensures face { IfOk result (λ s. (told_by s).face ≡ record { cells = copies sectors zero_cell; waiting = [] }) }
        ensures fate { IfOk result (λ s. (told_by s).fate ≡ record { fuse = None; made = 0; failing = []; dead = false }) }
        ensures beside { IfOk result (λ s. (told_by s).beside ≡ nothing_beside) }
    {
        Ok(Shelf {
            sectors: Sectors::new(alloc)?,
            power: Power {
                left: None,
                calls: 0,
                failed: false,
            },
            faults: 0,
            name: Vec::with_capacity(alloc, NAME_MOST)?,
            is_attached: false,
        })
    }

    /// After so many writes and syncs the power fails in the midst of the next one.
    pub fn cut_after(&mut self, calls: u64)
        ensures { told_by self.new ≡ record (told_by self.old) { fate = record (told_by self.old).fate { fuse = Some (record { calls = calls; code = 0 }) } } }
    {
        self.power.left = Some(calls);
    }

    /// The power is back.
    pub fn restore(&mut self)
        ensures { told_by self.new ≡ record (told_by self.old) { fate = record (told_by self.old).fate { dead = false } } }
    {
        self.power.failed = false;
    }

    // A call that fails.
    fn fail(&mut self) -> Result<(), DiskFailed>
        ensures failed { is_ok result ≡ false }
        ensures cause { HasCause self.old.faults self.new.faults result }
        ensures same { told_by self.new ≡ told_by self.old }
    {
        self.faults = self.faults.saturating_add(1);
        Err(DiskFailed)
    }
}

impl SectorDisk for Shelf {
    ghost use Rattle.vr_embed.specs.Told.{told_by, told_is_whole};

    ghost told = { λ s. Some (told_by s) };

    ghost faults = { λ s. s.faults };

    ghost read_faults = { λ _. 0 };

    ghost whole = { told_is_whole };

    #[tactic(auto, unfolding(vr_disk::specs::DiskState::attached))]
    fn attach(&mut self, name: &str) -> Result<(), DiskFailed> {
        self.power.count();
        if self.power.failed || name.len() > NAME_MOST {
            return self.fail();
        }
        self.sectors.sync();
        self.name.clear();
        self.name.extend_from_slice(name.as_bytes()).unwrap();
        self.is_attached = true;
        Ok(())
    }

    fn read(&mut self, i: u32, to: &mut Sector) -> Result<(), DiskFailed> {
        *to = self.sectors.read(i);
        Ok(())
    }

    #[tactic(auto, using(vr_disk::proofs::Running::one_goes, vr_disk::proofs::Running::one_fails, vr_disk::proofs::Running::write_cuts))]
    fn write(&mut self, i: u32, from: &Sector) -> Result<(), DiskFailed> {
        match self.power.judge() {
            Judged::Goes => {
                self.sectors.write(i, from);
                Ok(())
            }
            Judged::Fails => self.fail(),
            Judged::Cuts => {
                self.sectors.write(i, from);
                self.sectors.lose();
                self.fail()
            }
        }
    }

    #[tactic(auto, using(vr_disk::proofs::Running::one_goes, vr_disk::proofs::Running::one_fails, vr_disk::proofs::Running::sync_cuts))]
    fn sync(&mut self) -> Result<(), DiskFailed> {
        match self.power.judge() {
            Judged::Goes => {
                self.sectors.sync();
                Ok(())
            }
            Judged::Fails => self.fail(),
            Judged::Cuts => {
                self.sectors.lose();
                self.fail()
            }
        }
    }

    fn name_of(&mut self, _room: Room, bytes: &[u8]) -> Sum {
        checksum(bytes)
    }

    fn keep_name(&mut self, _room: Room, _bytes: &[u8], _name: Sum) {}
}
