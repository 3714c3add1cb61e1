//! A block that is read to be given.
ghost use Rattle.std.specs.Prelude.{ℕ, ◌≡◌, IfOk, IfSome, None, Some, length, if◌then◌else◌};
ghost use Rattle.vr_rules.specs.Rules.{block_at};
ghost use Rattle.vr_rules.specs.Does.{Finds};
ghost use Rattle.vr_disk.specs.Untouched.{Untouched};

use std::alloc::{AllocError, Global};
use vr_base::{ByteList, NoMemory, Seq};
use vr_ckpt::{Name, is_block_on};
use vr_disk::{BLOCK_SECTORS, BLOCKS, SectorDisk, block_place, read_sectors};

// A list of these bytes. An `Err` is want of memory.
fn list_of(alloc: Global, bytes: &[u8]) -> Result<ByteList, AllocError>
    ensures { IfOk result (λ list. list ≡ bytes.now) }
{
    let mut list = Seq::new(alloc);
    list.extend(bytes)?;
    Ok(list)
}

// Whether the block at the name's address reads, and is the whole one of this name; then `to` has its bytes. At an address past the disk's
// blocks none does. Else of `to` only its length is said. The disk is only read.
#[tactic(auto, using(crate::proofs::BlockReadings::block_past, crate::proofs::BlockReadings::block_unread, crate::proofs::BlockReadings::block_as))]
fn read_whole<D: SectorDisk>(disk: &mut D, name: &Name, to: &mut [u8]) -> bool
    requires { length to.old ≡ 4096 }
    ensures untouched { Untouched D.SectorDisk disk.old disk.new }
    ensures found { (v : ℕ) → Finds v (block_at name.now) (D.told disk.old) (D.told disk.new) (if result then Some to.new else None) }
    ensures size { length to.new ≡ 4096 }
{
    if name.address >= u64::from(BLOCKS) {
        return false;
    }
    if !read_sectors(disk, block_place(name.address as u32), BLOCK_SECTORS, to) {
        return false;
    }
    is_block_on(disk, to, name)
}

/// The 4,096 bytes of the block that reads whole under this name, whatever the version of the file, else `None`. The disk is only read,
/// also where an `Err` comes, which is want of memory.
pub fn find_block<D: SectorDisk>(
    alloc: Global,
    disk: &mut D,
    name: &Name,
) -> Result<Option<ByteList>, NoMemory>
    ensures untouched { Untouched D.SectorDisk disk.old disk.new }
    ensures found { IfOk result (λ block. (v : ℕ) → Finds v (block_at name.now) (D.told disk.old) (D.told disk.new) block) }
    ensures size { IfOk result (λ block. IfSome block (λ bytes. length bytes ≡ 4096)) }
{
    let mut bytes = [0; 4096];
    if read_whole(disk, name, &mut bytes) {
        Ok(Some(list_of(alloc, &bytes)?))
    } else {
        Ok(None)
    }
}
