//! Entries are read.
ghost use Rattle.std.specs.Prelude.{◌≡◌, IfOk, IfSome, OnErr};
ghost use Rattle.vr_header.specs.declared.part.Part.TheVariants.{Here};
ghost use Rattle.vr_volatile.specs.Ready.{IsReady};
ghost use Rattle.vr_rules.specs.Replica.{part_at, version};
ghost use Rattle.vr_replica.specs.Entries.{after_reading, entry_by};
ghost use Rattle.vr_disk.specs.Untouched.{Untouched};

use std::alloc::Global;
use vr_actions::{Replica, find_entry};
use vr_base::NoMemory;
use vr_disk::SectorDisk;
use vr_header::{Entry, Header, Part};

// The op of this header is `Here`. The entry, where its slot reads as the whole one of just this header; else `None`, and the Part becomes
// `Lost`. Nothing else of the replica changes, and the disk is only read. An `Err` is want of memory, and leaves the replica as it was.
#[tactic(auto, using(crate::proofs::EntryReadings::found, vr_volatile::proofs::Memory::readies))]
fn look_up_stored<D: SectorDisk>(
    replica: &mut Replica,
    alloc: Global,
    disk: &mut D,
    header: &Header,
) -> Result<Option<Entry>, NoMemory>
    requires ready { IsReady replica.old }
    requires here { part_at replica.old header.now.op ≡ Here header.now }
    ensures ready { IsReady replica.new }
    ensures untouched { Untouched D.SectorDisk disk.old disk.new }
    ensures value { IfOk result (λ found. IfSome (D.told disk.old) (λ d. found ≡ entry_by (version replica.old) (Here header.now) d.face)) }
    ensures left { IfOk result (λ found. replica.new ≡ after_reading (Here header.now) found replica.old) }
    ensures kept { OnErr result (replica.new ≡ replica.old) }
{
    match find_entry(replica, alloc, disk, header) {
        Ok(Some(entry)) => Ok(Some(entry)),
        Ok(None) => {
            replica.lose(header);
            Ok(None)
        }
        Err(fault) => Err(fault),
    }
}

/// The entry of an op that is `Here`, where its slot reads as the whole one of the known header. Else `None`: a Part that is `Here` and
/// doesn't read becomes `Lost`, and nothing else changes. The disk is only read. An `Err` is want of memory, and leaves the replica as it
/// was.
#[tactic(auto, using(vr_volatile::proofs::Memory::here_op))]
pub fn look_up<D: SectorDisk>(
    replica: &mut Replica,
    alloc: Global,
    disk: &mut D,
    op: u64,
) -> Result<Option<Entry>, NoMemory>
    requires ready { IsReady replica.old }
    ensures ready { IsReady replica.new }
    ensures untouched { Untouched D.SectorDisk disk.old disk.new }
    ensures value { IfOk result (λ found. IfSome (D.told disk.old) (λ d. found ≡ entry_by (version replica.old) (part_at replica.old op) d.face)) }
    ensures left { IfOk result (λ found. replica.new ≡ after_reading (part_at replica.old op) found replica.old) }
    ensures kept { OnErr result (replica.new ≡ replica.old) }
{
    match replica.part_at(op) {
        Part::Here(header) => look_up_stored(replica, alloc, disk, &header),
        _ => Ok(None),
    }
}
