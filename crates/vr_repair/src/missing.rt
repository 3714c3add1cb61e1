//! What is missing is asked for, and put.
ghost use Rattle.std.specs.Prelude.{◌≡◌, ◌≤◌, None, [], is_some, true};
ghost use Rattle.vr_base.specs.Bytes.{name_of};
ghost use Rattle.vr_ckpt.specs.Blocks.{named};
ghost use Rattle.vr_header.specs.Made.{IsEntryHeader};
ghost use Rattle.vr_volatile.specs.Ready.{IsReady, MayLoad};
ghost use Rattle.vr_repair.specs.Repairs.{loads_whole};
ghost use Rattle.vr_rules.specs.Outputs.{get_block, get_prepare};
ghost use Rattle.vr_rules.specs.Rules.{put_block};
ghost use Rattle.vr_rules.specs.Words.{ask, ask_for, ask_peer, least_absent};
ghost use Rattle.vr_actions.specs.Acts.{Acts, Keeps};

use std::alloc::Global;
use vr_actions::{Halt, Replica, load};
use vr_ckpt::Name;
use vr_disk::SectorDisk;
use vr_header::Header;
use vr_msg::Outbox;

// One get_block of this name goes to the peer whose turn it is, (index + 1 + turn) modulo n. Then the turn moves on by one, modulo n - 1;
// nothing else of the replica changes. The disk is left as it is; after an `Err` nothing is said of replica and outputs.
#[tactic(auto, using(vr_rules::proofs::Stepping::steps, vr_volatile::proofs::Repairs::ready_turned), unfolding(vr_rules::specs::Words::ask_peer))]
fn ask_block<D: SectorDisk>(
    replica: &mut Replica,
    _disk: &mut D,
    name: &Name,
    out: &mut Outbox,
) -> Result<(), Halt>
    requires ready { IsReady replica.old }
    requires several { 2 ≤ replica.old.n }
    ensures { Acts D.SectorDisk (ask_peer (get_block name.now)) replica.old replica.new _disk.old _disk.new out.old out.new result }
{
    replica.ask_block(name, out)?;
    replica.turn_peer();
    Ok(())
}

// One get_prepare of this header's op and name goes to the peer whose turn it is, (index + 1 + turn) modulo n. Then the turn moves on by
// one, modulo n - 1; nothing else of the replica changes. The disk is left as it is; after an `Err` nothing is said of replica and outputs.
#[tactic(auto, using(vr_rules::proofs::Stepping::steps, vr_volatile::proofs::Repairs::ready_turned), unfolding(vr_rules::specs::Words::ask_peer))]
fn ask_entry<D: SectorDisk>(
    replica: &mut Replica,
    _disk: &mut D,
    header: &Header,
    out: &mut Outbox,
) -> Result<(), Halt>
    requires ready { IsReady replica.old }
    requires several { 2 ≤ replica.old.n }
    requires entry { IsEntryHeader header.now }
    ensures { Acts D.SectorDisk (ask_peer (get_prepare name_of header.now)) replica.old replica.new _disk.old _disk.new out.old out.new result }
{
    replica.ask_entry(header, out)?;
    replica.turn_peer();
    Ok(())
}

// Where a block is worn, a get_block of the first goes to the peer whose turn it is, and the turn moves on. Else nothing is done. The disk
// is left as it is; after an `Err` nothing is said of replica and outputs.
#[tactic(auto, using(crate::proofs::Words::asked_worn, crate::proofs::Words::none_worn))]
fn ask_worn<D: SectorDisk>(
    replica: &mut Replica,
    disk: &mut D,
    out: &mut Outbox,
) -> Result<(), Halt>
    requires ready { IsReady replica.old }
    requires several { 2 ≤ replica.old.n }
    ensures { Acts D.SectorDisk (ask_for [] None replica.old.worn) replica.old replica.new disk.old disk.new out.old out.new result }
{
    match replica.worn().get(0) {
        Some(name) => ask_block(replica, disk, &name, out),
        None => Ok(()),
    }
}

// A get_prepare of the least op above applied that is `Lost` or `Wanted`, or where there is none of the least such op above the checkpoint.
// Where there is none either, a get_block of the first worn block. It goes to the peer whose turn it is, and the turn moves on; where
// nothing is to be had, nothing is done. The disk is left as it is; after an `Err` nothing is said of replica and outputs.
#[tactic(auto, using(crate::proofs::Words::asked_entry, crate::proofs::Words::asked_none, crate::proofs::Words::checkpoint_fits, vr_volatile::proofs::Memory::next_fits, vr_volatile::proofs::Repairs::ready_absent))]
fn ask_absent<D: SectorDisk>(
    replica: &mut Replica,
    disk: &mut D,
    out: &mut Outbox,
) -> Result<(), Halt>
    requires ready { IsReady replica.old }
    requires several { 2 ≤ replica.old.n }
    ensures { Acts D.SectorDisk (ask_for [] (least_absent replica.old) replica.old.worn) replica.old replica.new disk.old disk.new out.old out.new result }
{
    match replica.least_absent() {
        Some(header) => ask_entry(replica, disk, &header, out),
        None => ask_worn(replica, disk, out),
    }
}

/// Asks for one thing: the first missing block; else the least op above applied, or else above the checkpoint, that is `Lost` or `Wanted`;
/// else the first worn block. The get_block or get_prepare goes to the peer whose turn it is, (index + 1 + turn) modulo n, and the turn
/// moves on, modulo n - 1. In a group of one, and where there is nothing to ask for, nothing is done. The disk is left as it is; after an
/// `Err` nothing is said of replica and outputs.
#[tactic(auto, using(crate::proofs::Words::asked_block, crate::proofs::Words::asked_absent, crate::proofs::Words::none_asked, vr_volatile::proofs::Repairs::ready_size))]
pub fn ask<D: SectorDisk>(replica: &mut Replica, disk: &mut D, out: &mut Outbox) -> Result<(), Halt>
    requires ready { IsReady replica.old }
    ensures { Acts D.SectorDisk ask replica.old replica.new disk.old disk.new out.old out.new result }
{
    if replica.is_alone() {
        return Ok(());
    }
    match replica.missing().get(0) {
        Some(name) => ask_block(replica, disk, &name, out),
        None => ask_absent(replica, disk, out),
    }
}

// Where no block is missing, the checkpoint is loaded from the disk (`load`): state and table become its own, or blocks are missing again.
// Else nothing is done. Nothing is written or put out, and view and saved value stay; after an `Err` nothing is said of the replica.
// `MayLoad`: nothing is applied above the checkpoint.
#[tactic(auto, using(crate::proofs::Words::loaded_whole, crate::proofs::Words::loaded_not, crate::proofs::Words::may_ready))]
fn load_whole<D: SectorDisk>(
    replica: &mut Replica,
    alloc: Global,
    disk: &mut D,
    out: &mut Outbox,
) -> Result<(), Halt>
    requires may { MayLoad replica.old }
    ensures keeps { Keeps replica.old replica.new result }
    ensures acts { Acts D.SectorDisk loads_whole replica.old replica.new disk.old disk.new out.old out.new result }
{
    if replica.is_loaded() {
        load(replica, alloc, disk, out)
    } else {
        Ok(())
    }
}

/// Writes the bytes, which are the whole block of this name, at its address, and then no block of that address is missing. Where none is
/// missing now, the checkpoint is loaded anew: state and table become its own, or blocks are missing again. Nothing is put out, view and
/// saved value stay. `MayLoad`: nothing is applied above the checkpoint. After an `Err` the disk has had its calls up to the stop; of
/// replica and outputs nothing is said.
#[tactic(auto, using(crate::proofs::Words::put_then, crate::proofs::Words::put_stopped, crate::proofs::Words::may_dropped))]
pub fn put_block<D: SectorDisk>(
    replica: &mut Replica,
    alloc: Global,
    disk: &mut D,
    name: &Name,
    block: &[u8],
    out: &mut Outbox,
) -> Result<(), Halt>
    requires may { MayLoad replica.old }
    requires named { is_some (named name.now block.now) ≡ true }
    ensures keeps { Keeps replica.old replica.new result }
    ensures acts { Acts D.SectorDisk (put_block name.now block.now) replica.old replica.new disk.old disk.new out.old out.new result }
{
    vr_actions::put_block(replica, disk, name, block)?;
    replica.drop_missing(name);
    load_whole(replica, alloc, disk, out)
}
