//! Blocks read by their names.
ghost use Rattle.std.specs.Prelude.{◌≡◌, ◌<◌, ◌≤◌, Some, None, length, if◌then◌else◌, IfOk, IfSome, OnErr, is_ok};
ghost use Rattle.vr_ckpt.specs.Blocks.{named};
ghost use Rattle.vr_ckpt.specs.Grid.{IsWhole, block_reading, named_at};
ghost use Rattle.vr_disk.specs.Untouched.{Untouched};

use crate::check::payload_of;
use crate::{BLOCK_SIZE, Name};
use vr_disk::{BLOCK_SECTORS, BLOCKS, Buffer, Faulty, SectorDisk, block_place, read_sectors};

// Reads the eight sectors of a block; false where one of them can't be read.
#[tactic(auto, unfolding(crate::specs::Grid::block_reading))]
fn fill<D: SectorDisk>(disk: &mut D, address: u32, to: &mut [u8]) -> bool
    requires address { address < BLOCKS }
    requires size { length to.old ≡ 4096 }
    ensures untouched { Untouched D.SectorDisk disk.old disk.new }
    ensures reads { D.read_faults disk.old ≤ D.read_faults disk.new }
    ensures value { IfSome (D.told disk.old) (λ d. block_reading d.face address ≡ (if result then Some to.new else None)) }
{
    read_sectors(disk, block_place(address), BLOCK_SECTORS, to)
}

/// Reads the block of this name; it takes no memory. After an `Ok` the buffer holds the whole block, whose payload begins at byte 128 and has this
/// length. `Faulty` leaves the buffer as it was.
pub fn read_block<D: SectorDisk>(
    disk: &mut D,
    name: &Name,
    to: &mut Buffer,
) -> Result<usize, Faulty>
    ensures untouched { Untouched D.SectorDisk disk.old disk.new }
    ensures reads { D.read_faults disk.old ≤ D.read_faults disk.new }
    ensures exact { IfSome (D.told disk.old) (λ d. named_at d.face name.now ≡ (if is_ok result then named name.now to.new else None)) }
    ensures whole { IfOk result (λ size. IsWhole name.now to.new size) }
    ensures same { OnErr result (to.new ≡ to.old) }
{
    if name.address >= u64::from(BLOCKS) {
        return Err(Faulty);
    }
    let mut bytes = [0; BLOCK_SIZE];
    if !fill(disk, name.address as u32, &mut bytes) {
        return Err(Faulty);
    }
    match payload_of(disk, &bytes, name) {
        None => Err(Faulty),
        Some(size) => {
            to.set(&bytes);
            Ok(size)
        }
    }
}
