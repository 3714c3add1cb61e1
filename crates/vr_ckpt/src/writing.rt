//! Blocks written to their addresses.
ghost use Rattle.std.specs.Prelude.{◌≡◌, ◌≤◌, ◌<◌, [], length, IfOk, IfSome, is_ok, is_some, true};
ghost use Rattle.vr_base.specs.Causes.{HasCause};
ghost use Rattle.vr_disk.specs.Counts.{Caused};
ghost use Rattle.vr_disk.specs.DiskState.{Runs};
ghost use Rattle.vr_ckpt.specs.Blocks.{block_bytes, block_name, content_of, is_kind, named};
ghost use Rattle.vr_ckpt.specs.Grid.{Leaves, block_calls, put_calls};
ghost use Rattle.vr_ckpt.specs.GridLaws.{PutLeaves};
ghost use Rattle.vr_disk.specs.Untouched.{Untouched};

use crate::{Block, Name, PAYLOAD_AT};
use std::alloc::Global;
use vr_base::{sum_at, u32_at};
use vr_disk::{
    BLOCK_SECTORS, BLOCKS, DiskFailed, DiskFault, Halt, Room, SectorDisk, block_place,
    write_sectors,
};
use vr_header::{HEADER_SIZE, NAMED_AT, SIZE_AT};

/// Writes the eight sectors of a block; it takes no memory.
#[tactic(auto, unfolding(crate::specs::Grid::block_calls))]
pub fn write_at<D: SectorDisk>(disk: &mut D, address: u64, bytes: &[u8]) -> Result<(), DiskFailed>
    requires address { address < BLOCKS }
    requires size { length bytes.now ≡ 4096 }
    ensures runs { Runs (block_calls address bytes.now) (D.told disk.old) (D.told disk.new) (is_ok result) }
    ensures cause { HasCause (D.faults disk.old) (D.faults disk.new) result }
    ensures others { D.read_faults disk.new ≡ D.read_faults disk.old }
{
    write_sectors(disk, block_place(address as u32), BLOCK_SECTORS, bytes)
}

/// The disk takes note of the names of the header and the payload of a whole block, which stand in its bytes.
pub(crate) fn note_block<D: SectorDisk>(disk: &mut D, address: u64, block: &[u8])
    requires { is_some (content_of block.now) ≡ true }
    ensures untouched { Untouched D.SectorDisk disk.old disk.new }
    ensures reads { D.read_faults disk.new ≡ D.read_faults disk.old }
{
    let end = u32_at(block, SIZE_AT) as usize;
    let header = sum_at(block, 0);
    let payload = sum_at(block, 16);
    disk.keep_name(
        Room::BlockHeader(address),
        &block[NAMED_AT..HEADER_SIZE],
        header,
    );
    disk.keep_name(Room::Payload(address), &block[PAYLOAD_AT..end], payload);
}

/// Makes the block of checkpoint `op` at an address below 384, of this kind (`DATA` or `ROOT`), with a payload of at most
/// 3,968 bytes, and writes its eight sectors. Want of memory comes before the first call. It is for
/// programs that write a single block, as tests do; `save` writes those of a checkpoint.
pub fn write_block<D: SectorDisk>(
    alloc: Global,
    disk: &mut D,
    cluster: u64,
    address: u64,
    op: u64,
    kind: u8,
    payload: &[u8],
) -> Result<Name, Halt>
    requires address { address < BLOCKS }
    requires kind { is_kind kind ≡ true }
    requires payload { length payload.now ≤ 3968 }
    ensures name { IfOk result (λ n. n ≡ block_name (record { cluster = cluster; address = address; op = op; kind = kind; payload = payload.now })) }
    ensures runs { Leaves (block_calls address (block_bytes (record { cluster = cluster; address = address; op = op; kind = kind; payload = payload.now }))) (D.told disk.old) (D.told disk.new) result }
    ensures cause { Caused (D.faults disk.old) (D.faults disk.new) result }
    ensures others { D.read_faults disk.new ≡ D.read_faults disk.old }
{
    let block = Block::new(alloc, cluster, address, op, kind, payload)?;
    write_at(disk, address, block.bytes.as_slice())?;
    Ok(block.name)
}

/// Puts a whole block of 4,096 bytes, which `is_block_of` tells, to the address of its name, and syncs it; it takes no memory.
#[tactic(auto, using(vr_disk::proofs::Running::Runs_then, vr_disk::proofs::Running::Runs_stopped), unfolding(crate::specs::Grid::put_calls))]
pub fn put_block<D: SectorDisk>(disk: &mut D, name: &Name, block: &[u8]) -> Result<(), DiskFault>
    requires { is_some (named name.now block.now) ≡ true }
    ensures runs { Runs (put_calls name.now.address block.now) (D.told disk.old) (D.told disk.new) (is_ok result) }
    ensures cause { HasCause (D.faults disk.old) (D.faults disk.new) result }
    ensures others { D.read_faults disk.new ≡ D.read_faults disk.old }

    // At the end the block reads as it was put. A stop at any of these calls changes no other sector.
    ensures stop { IfSome (D.told disk.old) (λ d. d.face.waiting ≡ [] → PutLeaves name.now.address block.now d.face) }
{
    note_block(disk, name.address, block);
    write_at(disk, name.address, block)?;
    disk.sync()?;
    Ok(())
}
