//! Apply: the stored entries up to the commit number, in order.
ghost use Rattle.std.specs.Prelude.{◌≡◌, ◌<◌, ◌≤◌, ◌+◌, ◌^◌, IfOk, true};
ghost use Rattle.vr_ckpt.specs.Saves.{saved_checkpoint};
ghost use Rattle.vr_state.specs.StateTexts.{texts_of};
ghost use Rattle.vr_rules.specs.Replica.{part_at, version};
ghost use Rattle.vr_rules.specs.Words.{checkpoints, make_checkpoint, is_checkpoint, applied, apply_entry, apply_next, apply, with_entry, learn};
ghost use Rattle.vr_disk.specs.Counts.{Caused};
ghost use Rattle.vr_rules.specs.Does.{PerformsTo, done};
ghost use Rattle.vr_header.specs.declared.part.Part.TheVariants.{Here};
ghost use Rattle.vr_volatile.specs.Ready.{MayApply, HasApplied, due};
ghost use Rattle.vr_actions.specs.Acts.{Acts, MayAct, Spends};

use crate::reading::find_entry;
use crate::words::save;
use std::alloc::Global;
use vr_ckpt::SavedCheckpoint;
use vr_disk::{Halt, SectorDisk};
use vr_header::{Entry, Header, Part};
use vr_msg::Outbox;
use vr_volatile::Replica;

// Writes the checkpoint of the op just applied: the blocks that changed since the table before, then the root, then one sync. `Ok` gives
// the new root's name and the new table. `HasApplied`: an entry was just applied, and nothing done since. After an `Err` the disk has had
// these calls up to the stop; nothing is put out.
#[tactic(auto, using(crate::proofs::Performing::checkpoint_made, vr_volatile::proofs::Memory::due_number))]
fn put_checkpoint<D: SectorDisk>(
    replica: &Replica,
    alloc: Global,
    disk: &mut D,
) -> Result<SavedCheckpoint, Halt>
    requires due { is_checkpoint replica.now.applied ≡ true }
    requires applied { HasApplied replica.now }
    ensures runs { PerformsTo checkpoints replica.now (D.told disk.old) (D.told disk.new) (done result) }
    ensures saved { IfOk result (λ c. c ≡ saved_checkpoint replica.now.cluster (texts_of replica.now.state) replica.now.applied replica.now.table) }
    ensures cause { Caused (D.faults disk.old) (D.faults disk.new) result }
{
    let texts = replica.state().encode_state()?;
    let table = replica.table();
    vr_ckpt::save(
        alloc,
        disk,
        replica.cluster(),
        &texts,
        replica.applied(),
        table,
    )
}

// In this order: the checkpoint of the op just applied is written, the window moves up to it, and the replica saves. Of the ops that come
// in nothing is known, no block is worn any more, and nothing is put out. After an `Err` the disk has had its calls up to the stop; of
// replica and outputs nothing is said.
#[tactic(auto, using(crate::proofs::Performing::checkpoint_then, crate::proofs::Performing::checkpoint_stopped, crate::proofs::Performing::checkpoint_wanted, vr_volatile::proofs::Memory::ready_moved))]
fn make_checkpoint<D: SectorDisk>(
    replica: &mut Replica,
    alloc: Global,
    disk: &mut D,
    out: &mut Outbox,
) -> Result<(), Halt>
    requires due { is_checkpoint replica.old.applied ≡ true }
    requires applied { HasApplied replica.old }
    requires room { replica.old.saved.fields.sequence + 1 < 2 ^ 64 }
    ensures spends { Spends 1 replica.old replica.new result }
    ensures acts { Acts D.SectorDisk make_checkpoint replica.old replica.new disk.old disk.new out.old out.new result }
{
    let saved = put_checkpoint(replica, alloc, disk)?;
    replica.move_window(saved);
    save(replica, alloc, disk, out)
}

// Where the op just applied is a multiple of 32 (`due`), its checkpoint is written, the window moves up to it, and the replica saves. Else
// nothing is done. Nothing is put out. After an `Err` the disk has had its calls up to the stop; of replica and outputs nothing is said.
#[tactic(auto, using(crate::proofs::Applies::due_then, crate::proofs::Applies::due_none, vr_volatile::proofs::Memory::ready_applied))]
fn check_point<D: SectorDisk>(
    replica: &mut Replica,
    alloc: Global,
    disk: &mut D,
    out: &mut Outbox,
) -> Result<(), Halt>
    requires applied { HasApplied replica.old }
    requires room { replica.old.saved.fields.sequence + 1 < 2 ^ 64 }
    ensures spends { Spends 1 replica.old replica.new result }
    ensures acts { Acts D.SectorDisk due replica.old replica.new disk.old disk.new out.old out.new result }
{
    if replica.is_due() {
        make_checkpoint(replica, alloc, disk, out)
    } else {
        Ok(())
    }
}

// In this order: the commit line of this entry; where the replica leads, the reply to it; then it goes through sessions and machine, and
// applied is one more. Where that op is a multiple of 32, the checkpoint is written, the window moves up, and the replica saves.
// `MayApply`: no block is missing, and applied is below the commit number. After an `Err` the disk has had its calls up to the stop; of
// replica and outputs nothing is said.
#[tactic(auto, using(crate::proofs::Applies::entry_then, vr_rules::proofs::Stepping::wants, vr_volatile::proofs::Memory::has_applied))]
fn apply_entry<D: SectorDisk>(
    replica: &mut Replica,
    alloc: Global,
    disk: &mut D,
    entry: Entry,
    out: &mut Outbox,
) -> Result<(), Halt>
    requires may { MayApply replica.old }
    requires taken { entry.header.version ≤ version replica.old }
    requires room { replica.old.saved.fields.sequence + 1 < 2 ^ 64 }
    ensures spends { Spends 1 replica.old replica.new result }
    ensures acts { Acts D.SectorDisk (apply_entry entry) replica.old replica.new disk.old disk.new out.old out.new result }
{
    let _header = entry.header();
    replica.apply_state(entry, out)?;
    check_point(replica, alloc, disk, out)
}

// Where the slot reads as this header's whole entry, that is applied: line, reply where the replica leads, state, and where one is due the
// checkpoint, written and saved. Where it doesn't, the Part of the op becomes `Lost`, and nothing else is done. After an `Err` the disk has
// had its calls up to the stop; of replica and outputs nothing is said.
#[tactic(auto, using(vr_rules::proofs::Stepping::readings, vr_rules::proofs::Stepping::wants, vr_volatile::proofs::Memory::readies, vr_volatile::proofs::Memory::may_ready, crate::proofs::Readings::here_taken))]
fn apply_found<D: SectorDisk>(
    replica: &mut Replica,
    alloc: Global,
    disk: &mut D,
    header: &Header,
    out: &mut Outbox,
) -> Result<(), Halt>
    requires may { MayApply replica.old }
    requires here { part_at replica.old header.now.op ≡ Here header.now }
    requires room { replica.old.saved.fields.sequence + 1 < 2 ^ 64 }
    ensures spends { Spends 1 replica.old replica.new result }
    ensures acts { Acts D.SectorDisk (with_entry apply_entry (Here header.now)) replica.old replica.new disk.old disk.new out.old out.new result }
{
    match find_entry(replica, alloc, disk, header)? {
        Some(entry) => apply_entry(replica, alloc, disk, entry, out),
        None => {
            replica.lose(header);
            Ok(())
        }
    }
}

// `part` is that of the next op. Where it is `Here` and its entry reads, that is applied: line, reply where the replica leads, state, and
// where one is due the checkpoint, written and saved. Where it is `Here` and doesn't read, it becomes `Lost`; where it isn't `Here`,
// nothing is done. After an `Err` the disk has had its calls up to the stop; of replica and outputs nothing is said.
#[tactic(auto, using(vr_rules::proofs::Stepping::kinds, vr_volatile::proofs::Memory::here_op, vr_volatile::proofs::Memory::may_ready))]
fn apply_part<D: SectorDisk>(
    replica: &mut Replica,
    alloc: Global,
    disk: &mut D,
    part: Part,
    out: &mut Outbox,
) -> Result<(), Halt>
    requires may { MayApply replica.old }
    requires part { part ≡ part_at replica.old (replica.old.applied + 1) }
    requires room { replica.old.saved.fields.sequence + 1 < 2 ^ 64 }
    ensures spends { Spends 1 replica.old replica.new result }
    ensures acts { Acts D.SectorDisk (with_entry apply_entry part) replica.old replica.new disk.old disk.new out.old out.new result }
{
    match part {
        Part::Here(header) => apply_found(replica, alloc, disk, &header, out),
        _ => Ok(()),
    }
}

// Where no block is missing, applied is below the commit number, and the next op is `Here`, its entry is read. One that reads is applied:
// line, reply where the replica leads, state, and where one is due the checkpoint, written and saved. One that doesn't becomes `Lost`. In
// all other cases nothing is done. After an `Err` the disk has had its calls up to the stop; of replica and outputs nothing is said.
#[tactic(auto, using(crate::proofs::Applies::next_then, crate::proofs::Applies::next_none, vr_volatile::proofs::Memory::may_apply, vr_volatile::proofs::Memory::next_fits))]
fn apply_next<D: SectorDisk>(
    replica: &mut Replica,
    alloc: Global,
    disk: &mut D,
    out: &mut Outbox,
) -> Result<(), Halt>
    requires { MayAct 1 replica.old }
    ensures spends { Spends 1 replica.old replica.new result }
    ensures acts { Acts D.SectorDisk apply_next replica.old replica.new disk.old disk.new out.old out.new result }
{
    if replica.may_apply() {
        let part = replica.part_at(replica.applied() + 1);
        apply_part(replica, alloc, disk, part, out)
    } else {
        Ok(())
    }
}

/// Applies each op above applied up to the commit number, ascending, as long as no block is missing and the op is `Here` and reads. Of
/// each: commit line, reply where the replica leads, state; at a multiple of 32 also the checkpoint, written and saved before the next op.
/// One that is `Here` and doesn't read becomes `Lost`, and ends it. After an `Err` the disk has had its calls up to the stop; of replica
/// and outputs nothing is said.
#[tactic(auto, using(vr_rules::proofs::Stepping::looping_begins, vr_volatile::proofs::Memory::few_to_apply))]
pub fn apply<D: SectorDisk>(
    replica: &mut Replica,
    alloc: Global,
    disk: &mut D,
    out: &mut Outbox,
) -> Result<(), Halt>
    requires { MayAct 64 replica.old }
    ensures { Acts D.SectorDisk apply replica.old replica.new disk.old disk.new out.old out.new result }
{
    let times = replica.to_apply();
    for i in 0..times {
        let _ = i;
        apply_next(replica, alloc, disk, out)?;
    }
    Ok(())
}

/// The commit number becomes the greater of itself and this one, which counts only up to the head. Then ops are applied up to it, ascending
/// (`apply`): as long as no block is missing and the next one is `Here` and reads; one that doesn't read becomes `Lost`. After an `Err` the
/// disk has had its calls up to the stop; of replica and outputs nothing is said.
#[tactic(auto, using(vr_rules::proofs::Stepping::steps, vr_volatile::proofs::Memory::readies, vr_volatile::proofs::Memory::window_of), unfolding(vr_rules::specs::Words::learn))]
pub fn learn<D: SectorDisk>(
    replica: &mut Replica,
    alloc: Global,
    disk: &mut D,
    commit: u64,
    out: &mut Outbox,
) -> Result<(), Halt>
    requires { MayAct 64 replica.old }
    ensures { Acts D.SectorDisk (learn commit) replica.old replica.new disk.old disk.new out.old out.new result }
{
    replica.learn_commit(commit);
    apply(replica, alloc, disk, out)
}
