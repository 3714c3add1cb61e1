//! A visit of the disk: one place is looked at, and mended where the replica can.
ghost use Rattle.std.specs.Prelude.{◌≡◌, ◌%◌, IfErr, IfOk, IfSome, Some, is_ok};
ghost use Rattle.vr_base.specs.Causes.{HasCause};
ghost use Rattle.vr_header.specs.declared.part.Part.TheVariants.{Here};
ghost use Rattle.vr_volatile.specs.Ready.{IsReady};
ghost use Rattle.vr_repair.specs.Visits.{found_at, good_or_mended, mends, reads_as, stored_as};
ghost use Rattle.vr_rings.specs.Slots.{header_in};
ghost use Rattle.vr_rules.specs.Replica.{part_at, version};
ghost use Rattle.vr_rules.specs.Sectors.{sectors_by};
ghost use Rattle.vr_rules.specs.Steps.{reading};
ghost use Rattle.vr_rules.specs.Words.{entry_of, header_read, mend_header, op_of_slot, place_now, visit, visit_block, visit_place, visit_slot};
ghost use Rattle.vr_rules.specs.Does.{Performs, done};
ghost use Rattle.vr_disk.specs.declared.fault.Halt.TheVariants as halt;
ghost use Rattle.vr_actions.specs.Acts.{Acts};
ghost use Rattle.vr_disk.specs.Untouched.{Untouched};

use crate::found::Visit;
use vr_actions::{Halt, Replica, rewrite_header};
use vr_ckpt::Name;
use vr_disk::{DiskFault, SLOTS, SectorDisk};
use vr_header::{Header, Part};
use vr_msg::Outbox;
use vr_rings::read_header;

// The places that are visited: each slot, then the superblock, then each block of the checkpoint.
const SUPERBLOCK: u64 = SLOTS as u64;

const FIRST_BLOCK: u64 = SUPERBLOCK + 1;

// ---- slots

// Whether the header sector of this header's slot reads as a valid header, and as just this one. The disk is only read.
fn reads_as<D: SectorDisk>(disk: &mut D, header: &Header) -> bool
    ensures untouched { Untouched D.SectorDisk disk.old disk.new }
    ensures value { IfSome (D.told disk.old) (λ d. result ≡ reads_as header.now (header_in d.face (header.now.op % 64))) }
{
    match read_header(disk, (header.op % u64::from(SLOTS)) as u32) {
        Some(found) => found.is(header),
        None => false,
    }
}

// Where the header sector of this header's slot reads as it, `Good`, and nothing is written. Where it doesn't, it is written and synced:
// `Mended`. An `Err` is `DiskFault`, where that failed. Nothing is put out.
#[tactic(auto, using(crate::proofs::Visits::header_good, crate::proofs::Visits::header_mended, crate::proofs::Visits::header_stopped, crate::proofs::Visits::found_good, crate::proofs::Visits::found_mended))]
fn mend_header<D: SectorDisk>(
    replica: &Replica,
    disk: &mut D,
    header: &Header,
    _out: &mut Outbox,
) -> Result<Visit, Halt>
    requires ready { IsReady replica.now }
    ensures acts { Acts D.SectorDisk (reading (header_read header.now.op) (mend_header header.now)) replica.now replica.now disk.old disk.new _out.old _out.new (done result) }
    ensures fault { IfErr result (λ why. why ≡ halt.DiskFault) }
    ensures found { IfSome (D.told disk.old) (λ d. IfOk result (λ v. v ≡ good_or_mended header.now (header_in d.face (header.now.op % 64)))) }
{
    if reads_as(disk, header) {
        return Ok(Visit::Good);
    }
    rewrite_header(replica, disk, header)?;
    Ok(Visit::Mended)
}

// The op of this header is `Here`. Where its slot doesn't read as the whole entry, the Part becomes `Lost`, and nothing is written: `Lost`.
// Where it does, its header sector is written anew if it reads as anything else: `Mended`, else `Good`. An `Err` is `DiskFault`, where that
// write failed; nothing is said of the replica then. Nothing is put out.
#[tactic(auto, using(crate::proofs::Visits::slot_lost, crate::proofs::Visits::found_stored, crate::proofs::Visits::found_lost, vr_volatile::proofs::Memory::readies))]
fn visit_stored<D: SectorDisk>(
    replica: &mut Replica,
    disk: &mut D,
    header: &Header,
    out: &mut Outbox,
) -> Result<Visit, Halt>
    requires ready { IsReady replica.old }
    requires here { part_at replica.old header.now.op ≡ Here header.now }
    ensures acts { Acts D.SectorDisk (visit_slot header.now.op) replica.old replica.new disk.old disk.new out.old out.new (done result) }
    ensures fault { IfErr result (λ why. why ≡ halt.DiskFault) }
    ensures found { IfSome (D.told disk.old) (λ d. IfOk result (λ v. v ≡ stored_as header.now (entry_of header.now (sectors_by (version replica.old)) d.face) (header_in d.face (header.now.op % 64)))) }
{
    if replica.has_entry(disk, header) {
        mend_header(replica, disk, header, out)
    } else {
        replica.lose(header);
        Ok(Visit::Lost)
    }
}

/// Where the Part of this op is `Here` and its slot doesn't read as the whole entry, it becomes `Lost`, and nothing is written: `Lost`.
/// Where it does read, its header sector is written anew if it reads as anything else: `Mended`, else `Good`. Where the Part isn't `Here`,
/// nothing is done: `Nothing`. An `Err` is `DiskFault`, where that write failed; nothing is said of the replica then.
#[tactic(auto, using(crate::proofs::Visits::slot_nothing, crate::proofs::Visits::found_here, crate::proofs::Visits::found_nothing, vr_volatile::proofs::Memory::here_op))]
pub fn visit_slot<D: SectorDisk>(
    replica: &mut Replica,
    disk: &mut D,
    op: u64,
    out: &mut Outbox,
) -> Result<Visit, Halt>
    requires ready { IsReady replica.old }
    ensures acts { Acts D.SectorDisk (visit_slot op) replica.old replica.new disk.old disk.new out.old out.new (done result) }
    ensures fault { IfErr result (λ why. why ≡ halt.DiskFault) }
    ensures found { IfSome (D.told disk.old) (λ d. IfOk result (λ v. v ≡ found_at (version replica.old) (part_at replica.old op) d.face)) }
{
    match replica.part_at(op) {
        Part::Here(header) => visit_stored(replica, disk, &header, out),
        _ => Ok(Visit::Nothing),
    }
}

// ---- the superblock, and blocks

// Each copy of the superblock that doesn't read as the value last saved is written anew, one after the other; the others get no call.
// Nothing is put out. An `Err` comes exactly where a call failed, and the disk got these calls up to that one.
fn mend_value<D: SectorDisk>(replica: &Replica, disk: &mut D) -> Result<(), DiskFault>
    ensures runs { Performs mends replica.now (D.told disk.old) (D.told disk.new) (is_ok result) }
    ensures cause { HasCause (D.faults disk.old) (D.faults disk.new) result }
{
    vr_super::mend_value(disk, replica.saved())
}

// Where the block of this name doesn't read whole, its address is in the grid, and no worn one has that address, it becomes the last of the
// worn. Else nothing changes. Nothing is written or put out; after an `Err` nothing is said of the replica.
#[tactic(auto, using(crate::proofs::Visits::block_bad, crate::proofs::Visits::block_good, crate::proofs::Visits::ready_worn_after, vr_rules::proofs::Stepping::does_no_memory))]
fn visit_block<D: SectorDisk>(
    replica: &mut Replica,
    disk: &mut D,
    name: &Name,
    _out: &mut Outbox,
) -> Result<(), Halt>
    requires ready { IsReady replica.old }
    ensures { Acts D.SectorDisk (visit_block (Some name.now)) replica.old replica.new disk.old disk.new _out.old _out.new result }
{
    if replica.is_worn(disk, name) {
        replica.add_worn(*name)?;
    }
    Ok(())
}

// Of places below 64 the slot is visited: an entry that is `Here` and doesn't read becomes `Lost`; where it reads and its header sector
// doesn't, that is written. At 64 the superblock's copies that don't read as the value last saved are written. From 65 on a block of the
// checkpoint, root first: one that doesn't read becomes worn. Past those nothing is done, and nothing is ever put out. After an `Err` the
// disk has had its calls up to the stop; of replica and outputs nothing is said.
#[tactic(auto, using(crate::proofs::Visits::place_slot, crate::proofs::Visits::place_value, crate::proofs::Visits::place_block, crate::proofs::Visits::block_none, vr_rules::proofs::Stepping::does_effect, vr_rules::proofs::Stepping::does_effect_stopped))]
fn visit_place<D: SectorDisk>(
    replica: &mut Replica,
    disk: &mut D,
    at: u64,
    out: &mut Outbox,
) -> Result<(), Halt>
    requires ready { IsReady replica.old }
    ensures { Acts D.SectorDisk (visit_place at) replica.old replica.new disk.old disk.new out.old out.new result }
{
    if at < SUPERBLOCK {
        let op = replica.op_of_slot(at);
        visit_slot(replica, disk, op, out)?;
        return Ok(());
    }
    if at == SUPERBLOCK {
        mend_value(replica, disk)?;
        return Ok(());
    }
    match replica.block_name((at - FIRST_BLOCK) as usize) {
        Some(name) => visit_block(replica, disk, &name, out),
        None => Ok(()),
    }
}

/// Where a block is missing, nothing is done. Else the place at the cursor is visited, or place 0 where that is past the last one; then the
/// cursor goes on by one, after the last to 0. Places are the 64 slots, the superblock, the checkpoint's root and the blocks of its table.
/// Header sectors and superblock are mended; an entry that doesn't read becomes `Lost`, such a block worn; nothing is put out. After an
/// `Err` the disk has had its calls up to the stop; of replica and outputs nothing is said.
#[tactic(auto, using(crate::proofs::Visits::visit_then, crate::proofs::Visits::visit_stopped, crate::proofs::Visits::visit_none, crate::proofs::Visits::ready_moved))]
pub fn visit<D: SectorDisk>(
    replica: &mut Replica,
    disk: &mut D,
    out: &mut Outbox,
) -> Result<(), Halt>
    requires ready { IsReady replica.old }
    ensures { Acts D.SectorDisk visit replica.old replica.new disk.old disk.new out.old out.new result }
{
    if replica.is_loaded() {
        let at = replica.place_now();
        visit_place(replica, disk, at, out)?;
        replica.go_on(at);
    }
    Ok(())
}
