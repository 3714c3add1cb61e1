//! A checkpoint saved.
ghost use Rattle.std.specs.Prelude.{◌≡◌, ◌++◌, OnOk, IfOk, IfSome, is_ok, [], ◌∷◌};
ghost use Rattle.std.specs.List.{All};
ghost use Rattle.vr_base.specs.Causes.{HasCause};
ghost use Rattle.vr_disk.specs.Counts.{Caused};
ghost use Rattle.vr_disk.specs.DiskState.{Runs, Sync};
ghost use Rattle.vr_state.specs.StateTexts.{FitsPayloads};
ghost use Rattle.vr_ckpt.specs.Grid.{Leaves};
ghost use Rattle.vr_ckpt.specs.Laws.{Holds, SaveDone, SaveKeeps};
ghost use Rattle.vr_ckpt.specs.Places.{IsCheckpoint};
ghost use Rattle.vr_ckpt.specs.Saves.{IsPlaced, blocks_calls, changed, keys_run, save_calls, saved_checkpoint, sessions_run, table_of, written};

use crate::places::Places;
use crate::plan::{Run, plan_text};
use crate::root::root_block;
use crate::writing::note_block;
use crate::{Block, Name, PayloadTable, write_at};
use std::alloc::Global;
use vr_base::{NoMemory, Seq};
use vr_disk::{DiskFailed, Halt, SectorDisk};
use vr_state::Texts;

/// A checkpoint that was saved: the name of its root, and what it has in its blocks.
#[derive(Debug, Drop, PartialEq, Eq)]
pub struct SavedCheckpoint {
    pub root: Name,
    pub table: PayloadTable,
}

// The table of these texts; the blocks that are written for them are added to the others.
#[tactic(auto, unfolding(crate::specs::Saves::table_of))]
fn plan_table(
    alloc: Global,
    cluster: u64,
    texts: &Texts,
    op: u64,
    old: &PayloadTable,
    blocks: &mut Seq<Block>,
) -> Result<PayloadTable, NoMemory>
    requires { FitsPayloads texts.now }
    ensures table { IfOk result (λ t. t ≡ table_of cluster texts.now op old.now) }
    ensures blocks { OnOk result (blocks.new ≡ blocks.old ++ (changed (sessions_run cluster op) texts.now.sessions old.now.sessions ++ changed (keys_run cluster op) texts.now.keys old.now.keys)) }
    ensures placed { OnOk result (All IsPlaced blocks.old → All IsPlaced blocks.new) }
{
    let run = Run {
        cluster,
        op,
        places: Places::of_sessions(),
    };
    let sessions = plan_text(
        alloc,
        run,
        texts.sessions.as_slice(),
        old.sessions.as_slice(),
        blocks,
    )?;
    let keys = plan_text(
        alloc,
        Run {
            places: Places::of_keys(),
            ..run
        },
        texts.keys.as_slice(),
        old.keys.as_slice(),
        blocks,
    )?;
    Ok(PayloadTable { sessions, keys })
}

// What is saved; the blocks that are written for it are added to none.
#[tactic(auto, unfolding(crate::specs::Saves::written))]
fn plan(
    alloc: Global,
    cluster: u64,
    texts: &Texts,
    op: u64,
    old: &PayloadTable,
    blocks: &mut Seq<Block>,
) -> Result<SavedCheckpoint, NoMemory>
    requires op { IsCheckpoint op }
    requires texts { FitsPayloads texts.now }
    requires none { blocks.old ≡ [] }
    ensures saved { IfOk result (λ s. s ≡ saved_checkpoint cluster texts.now op old.now) }
    ensures blocks { OnOk result (blocks.new ≡ written cluster texts.now op old.now) }
    ensures placed { OnOk result (All IsPlaced blocks.new) }
{
    let table = plan_table(alloc, cluster, texts, op, old, blocks)?;
    let root = root_block(alloc, cluster, texts, op, &table)?;
    let name = root.name;
    blocks.push(root)?;
    Ok(SavedCheckpoint { root: name, table })
}

// Writes these blocks in order.
fn write_all<D: SectorDisk>(disk: &mut D, blocks: &[Block]) -> Result<(), DiskFailed>
    requires { All IsPlaced blocks.now }
    ensures runs { Runs (blocks_calls blocks.now) (D.told disk.old) (D.told disk.new) (is_ok result) }
    ensures cause { HasCause (D.faults disk.old) (D.faults disk.new) result }
    ensures others { D.read_faults disk.new ≡ D.read_faults disk.old }
{
    for block in blocks {
        let bytes = block.bytes.as_slice();
        note_block(disk, block.name.address, bytes);
        write_at(disk, block.name.address, bytes)?;
    }
    Ok(())
}

// Writes these blocks in order, and syncs them.
#[tactic(auto, using(vr_disk::proofs::Running::Runs_then, vr_disk::proofs::Running::Runs_stopped))]
fn write_synced<D: SectorDisk>(disk: &mut D, blocks: &[Block]) -> Result<(), DiskFailed>
    requires { All IsPlaced blocks.now }
    ensures runs { Runs (blocks_calls blocks.now ++ Sync ∷ []) (D.told disk.old) (D.told disk.new) (is_ok result) }
    ensures cause { HasCause (D.faults disk.old) (D.faults disk.new) result }
    ensures others { D.read_faults disk.new ≡ D.read_faults disk.old }
{
    write_all(disk, blocks)?;
    disk.sync()?;
    Ok(())
}

/// Saves the texts of checkpoint `op`, a multiple of 32 from 32 to 2^62, over the table of the checkpoint before: the payloads that changed in order, the
/// root, and one sync. Want of memory comes before the first call.
#[tactic(auto, unfolding(crate::specs::Saves::save_calls))]
pub fn save<D: SectorDisk>(
    alloc: Global,
    disk: &mut D,
    cluster: u64,
    texts: &Texts,
    op: u64,
    old: &PayloadTable,
) -> Result<SavedCheckpoint, Halt>
    requires op { IsCheckpoint op }
    requires texts { FitsPayloads texts.now }
    ensures saved { IfOk result (λ s. s ≡ saved_checkpoint cluster texts.now op old.now) }
    ensures runs { Leaves (save_calls cluster texts.now op old.now) (D.told disk.old) (D.told disk.new) result }
    ensures cause { Caused (D.faults disk.old) (D.faults disk.new) result }
    ensures others { D.read_faults disk.new ≡ D.read_faults disk.old }

    // Over a table that the disk holds it loads at the end as it was saved.
    ensures done { IfSome (D.told disk.old) (λ d. Holds d.face old.now → SaveDone cluster texts.now op old.now d.face) }

    // The checkpoint before stays whole, at the end, after any of these calls, and in a cut at any.
    ensures stop { IfSome (D.told disk.old) (λ d. d.face.waiting ≡ [] → SaveKeeps cluster texts.now op old.now d.face) }
{
    let mut blocks = Seq::new(alloc);
    let saved = plan(alloc, cluster, texts, op, old, &mut blocks)?;
    write_synced(disk, blocks.as_slice())?;
    Ok(saved)
}
