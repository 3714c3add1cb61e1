//! The regions of a data file.
ghost use Rattle.std.specs.Prelude.{◌≡◌, ◌<◌, ◌≤◌, ◌+◌};
ghost use Rattle.vr_disk.specs.Regions.{copy_place, header_place, prepare_place, prepare_sectors, block_place};

use crate::SECTOR_SIZE;
use vr_base::Version;

/// The number of sectors, whatever the version of the file.
pub const SECTORS: u32 = 3984;

/// The number of copies of the superblock, from sector 0 on.
pub const COPIES: u32 = 4;

/// The number of sectors of a copy.
pub const COPY_SECTORS: u32 = 20;

/// The number of bytes of a copy.
pub const COPY_SIZE: usize = 10240;

/// The number of slots, each with a sector for its header and four or eight for its prepare.
pub const SLOTS: u32 = 64;

/// The number of blocks of the grid.
pub const BLOCKS: u32 = 384;

/// The number of sectors of a block.
pub const BLOCK_SECTORS: u32 = 8;

// The regions lie one after the other, from the first sector to the last; a block has 4,096 bytes, a copy 10,240.
const _: () = prove!(COPY_SECTORS * COPIES == 80);

const _: () = prove!(80 + SLOTS == 144);

const _: () = prove!(144 + 4 * SLOTS == 400);

const _: () = prove!(400 + BLOCK_SECTORS * 128 == 1424);

const _: () = prove!(1424 + 8 * SLOTS == 1936);

const _: () = prove!(1936 + BLOCK_SECTORS * (BLOCKS - 128) == SECTORS);

const _: () = prove!(BLOCK_SECTORS as usize * SECTOR_SIZE == 4096);

const _: () = prove!(COPY_SECTORS as usize * SECTOR_SIZE == COPY_SIZE);

/// Sector `k` of a copy of the superblock.
pub fn copy_place(copy: u32, k: u32) -> u32
    requires copy { copy < COPIES }
    requires k { k < COPY_SECTORS }
    ensures place { result ≡ copy_place copy k }
    ensures within { result < 80 }
{
    COPY_SECTORS * copy + k
}

/// The sector of a slot's header.
pub fn header_place(slot: u32) -> u32
    requires { slot < SLOTS }
    ensures place { result ≡ header_place slot }
    ensures within { result < 144 }
{
    80 + slot
}

/// The number of sectors of a prepare in a file of this version.
pub fn prepare_sectors(version: Version) -> u32
    ensures count { result ≡ prepare_sectors version }
    ensures least { 4 ≤ result }
    ensures most { result ≤ 8 }
{
    if version.get() == 2 { 8 } else { 4 }
}

/// The first sector of a slot's prepare in a file of this version.
#[tactic(auto, using(crate::proofs::Places::inside))]
pub fn prepare_place(slot: u32, version: Version) -> u32
    requires { slot < SLOTS }
    ensures place { result ≡ prepare_place version slot }
    ensures within { result + prepare_sectors version ≤ SECTORS }
{
    if version.get() == 2 {
        1424 + 8 * slot
    } else {
        144 + 4 * slot
    }
}

/// The first sector of a block of the grid.
pub fn block_place(address: u32) -> u32
    requires { address < BLOCKS }
    ensures place { result ≡ block_place address }
    ensures within { result + BLOCK_SECTORS ≤ SECTORS }
{
    if address < 128 {
        400 + BLOCK_SECTORS * address
    } else {
        1936 + BLOCK_SECTORS * (address - 128)
    }
}
