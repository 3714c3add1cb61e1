//! What a replica reads of its disk into its buffer.
ghost use Rattle.std.specs.Prelude.{◌≡◌, ◌↔◌, ◌%◌, IfOk, IfSome, IsTrue, Some, is_some, not};
ghost use Rattle.std.specs.Option.{option_map};
ghost use Rattle.vr_ckpt.specs.Grid.{named_at};
ghost use Rattle.vr_rings.specs.Slots.{entry_for, whole_in};
ghost use Rattle.vr_rules.specs.Replica.{version};
ghost use Rattle.vr_disk.specs.Untouched.{Untouched};

use crate::Replica;
use std::alloc::Global;
use vr_base::NoMemory;
use vr_ckpt::Name;
use vr_disk::{SLOTS, SectorDisk};
use vr_header::{Entry, Header};
use vr_rings::read_prepare;

impl Replica {
    /// The entry of this header, where its slot has it. Memory is taken for the entry alone.
    #[tactic(auto, using(crate::proofs::Entries::header_found))]
    pub fn entry_for<D: SectorDisk>(
        &mut self,
        alloc: Global,
        disk: &mut D,
        header: &Header,
    ) -> Result<Option<Entry>, NoMemory>
        ensures left { self.new ≡ self.old }
        ensures untouched { Untouched D.SectorDisk disk.old disk.new }
        ensures value { IfSome (D.told disk.old) (λ d. IfOk result (λ e. e ≡ entry_for (version self.old) d.face header.now)) }
        ensures header { IfOk result (λ e. IfSome e (λ x. x.header ≡ header.now)) }
    {
        let version = self.version();
        vr_rings::find_entry(alloc, disk, header, &mut self.buffer, version)
    }

    /// Whether the slot of this header reads as its entry. It takes no memory.
    pub fn has_entry<D: SectorDisk>(&mut self, disk: &mut D, header: &Header) -> bool
        ensures left { self.new ≡ self.old }
        ensures untouched { Untouched D.SectorDisk disk.old disk.new }
        ensures value { IfSome (D.told disk.old) (λ d. IsTrue result ↔ (option_map (λ e. e.header) (whole_in (version self.old) d.face (header.now.op % SLOTS)) ≡ Some header.now)) }
    {
        let version = self.version();
        read_prepare(
            disk,
            (header.op % SLOTS as u64) as u32,
            header,
            &mut self.buffer,
            version,
        )
        .is_ok()
    }

    /// Whether the block of this name can't be read whole. It takes no memory.
    pub fn is_worn<D: SectorDisk>(&mut self, disk: &mut D, name: &Name) -> bool
        ensures left { self.new ≡ self.old }
        ensures untouched { Untouched D.SectorDisk disk.old disk.new }
        ensures value { IfSome (D.told disk.old) (λ d. is_some (named_at d.face name.now) ≡ not result) }
    {
        vr_ckpt::worn(disk, name, &mut self.buffer)
    }
}
