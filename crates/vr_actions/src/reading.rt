//! What a replica reads of its disk.
ghost use Rattle.std.specs.Prelude.{◌≡◌, ◌≤◌, IfOk, IfSome, OnOk};
ghost use Rattle.vr_header.specs.declared.part.Part.TheVariants.{Here};
ghost use Rattle.vr_actions.specs.Reads.{Reads};
ghost use Rattle.vr_volatile.specs.Ready.{IsReady};
ghost use Rattle.vr_rules.specs.Replica.{part_at, version};
ghost use Rattle.vr_rules.specs.Words.{entry_of};
ghost use Rattle.vr_rules.specs.Does.{Finds};
ghost use Rattle.vr_actions.specs.Acts.{Keeps};
ghost use Rattle.vr_disk.specs.Untouched.{Untouched};

use std::alloc::Global;
use vr_base::NoMemory;
use vr_disk::SectorDisk;
use vr_header::{Entry, Header, Part};
use vr_volatile::Replica;

/// The whole entry that its slot reads as, where its header is this one in all 128 bytes, else `None`. What the Part of its op is doesn't
/// matter. Replica and disk are left as they are, also after an `Err`, want of memory.
#[tactic(auto, using(crate::proofs::Entries::entry_found))]
pub fn find_entry<D: SectorDisk>(
    replica: &mut Replica,
    alloc: Global,
    disk: &mut D,
    header: &Header,
) -> Result<Option<Entry>, NoMemory>
    ensures left { replica.new ≡ replica.old }
    ensures found { IfOk result (λ e. Finds (version replica.old) (entry_of header.now) (D.told disk.old) (D.told disk.new) e) }
    ensures untouched { Untouched D.SectorDisk disk.old disk.new }
    ensures header { IfOk result (λ e. IfSome e (λ x. x.header ≡ header.now)) }
{
    replica.entry_for(alloc, disk, header)
}

// The entry of this header, whose op is `Here`, where its slot reads as it; else `None`, and the Part becomes `Lost`. `Reads`: what a word
// does with the op's entry, it does with this one, and after `None` nothing. The disk is only read, view and saved value stay. After an
// `Err`, want of memory, nothing else is said of the replica.
#[tactic(auto, using(crate::proofs::Readings::here_read, crate::proofs::Readings::here_lost, crate::proofs::Readings::here_made, crate::proofs::Readings::here_taken, vr_volatile::proofs::Memory::readies))]
fn read_stored<D: SectorDisk>(
    replica: &mut Replica,
    alloc: Global,
    disk: &mut D,
    header: &Header,
) -> Result<Option<Entry>, NoMemory>
    requires ready { IsReady replica.old }
    requires here { part_at replica.old header.now.op ≡ Here header.now }
    ensures ready { OnOk result (IsReady replica.new) }
    ensures keeps { Keeps replica.old replica.new result }
    ensures untouched { Untouched D.SectorDisk disk.old disk.new }
    ensures made { IfOk result (λ found. IfSome found (λ e. e.header.view ≤ replica.new.view)) }
    ensures taken { IfOk result (λ found. IfSome found (λ e. e.header.version ≤ version replica.new)) }
    ensures reads { IfOk result (λ found. Reads header.now.op replica.old replica.new (D.told disk.old) (D.told disk.new) found) }
{
    match find_entry(replica, alloc, disk, header)? {
        Some(entry) => Ok(Some(entry)),
        None => {
            replica.lose(header);
            Ok(None)
        }
    }
}

// `part` is that of the op. Where it is `Here` and its slot reads as its entry, that; else `None`, and one that is `Here` becomes `Lost`.
// `Reads`: what a word does with the op's entry, it does with this one, and after `None` nothing. The disk is only read; after an `Err`,
// want of memory, nothing is said of the replica.
#[tactic(auto, using(crate::proofs::Readings::not_here, vr_volatile::proofs::Memory::here_op))]
fn read_part<D: SectorDisk>(
    replica: &mut Replica,
    alloc: Global,
    disk: &mut D,
    op: u64,
    part: Part,
) -> Result<Option<Entry>, NoMemory>
    requires ready { IsReady replica.old }
    requires part { part ≡ part_at replica.old op }
    ensures ready { OnOk result (IsReady replica.new) }
    ensures keeps { Keeps replica.old replica.new result }
    ensures untouched { Untouched D.SectorDisk disk.old disk.new }
    ensures made { IfOk result (λ found. IfSome found (λ e. e.header.view ≤ replica.new.view)) }
    ensures taken { IfOk result (λ found. IfSome found (λ e. e.header.version ≤ version replica.new)) }
    ensures reads { IfOk result (λ found. Reads op replica.old replica.new (D.told disk.old) (D.told disk.new) found) }
{
    match part {
        Part::Here(header) => read_stored(replica, alloc, disk, &header),
        _ => Ok(None),
    }
}

/// The entry of an op whose Part is `Here`, where its slot reads as it, made in no later view and of no later version than the replica's.
/// Else `None`; a Part that is `Here` and doesn't read becomes `Lost`. `Reads`: what a word does with the op's entry, it does with this
/// one, and after `None` nothing. The disk is only read; after an `Err`, want of memory, nothing is said of the replica.
pub fn read_entry<D: SectorDisk>(
    replica: &mut Replica,
    alloc: Global,
    disk: &mut D,
    op: u64,
) -> Result<Option<Entry>, NoMemory>
    requires ready { IsReady replica.old }
    ensures ready { OnOk result (IsReady replica.new) }
    ensures keeps { Keeps replica.old replica.new result }
    ensures untouched { Untouched D.SectorDisk disk.old disk.new }
    ensures made { IfOk result (λ found. IfSome found (λ e. e.header.view ≤ replica.new.view)) }
    ensures taken { IfOk result (λ found. IfSome found (λ e. e.header.version ≤ version replica.new)) }
    ensures reads { IfOk result (λ found. Reads op replica.old replica.new (D.told disk.old) (D.told disk.new) found) }
{
    let part = replica.part_at(op);
    read_part(replica, alloc, disk, op, part)
}
