//! Whether bytes are the block of a name, as a caller tests it.
ghost use Rattle.std.specs.Prelude.{length, ◌≡◌, is_some};
ghost use Rattle.vr_ckpt.specs.Blocks.{named};
ghost use Rattle.vr_disk.specs.Untouched.{Untouched};

use crate::Name;
use crate::block::BLOCK_SIZE;
use crate::check::payload_of;
use vr_disk::{NoDisk, SectorDisk};

/// Whether the bytes, however many, are the whole block of this name, as `put_block` asks for. It takes no memory.
#[tactic(auto, unfolding(crate::specs::Blocks::named, crate::specs::Blocks::content_of))]
pub fn is_block_of(bytes: &[u8], name: &Name) -> bool
    ensures { result ≡ is_some (named name.now bytes.now) }
{
    bytes.len() == BLOCK_SIZE && payload_of(&mut NoDisk::new(), bytes, name).is_some()
}

/// Whether the 4,096 bytes that were read from a disk are the whole block of this name. It takes no memory.
pub fn is_block_on<D: SectorDisk>(disk: &mut D, bytes: &[u8], name: &Name) -> bool
    requires { length bytes.now ≡ 4096 }
    ensures value { result ≡ is_some (named name.now bytes.now) }
    ensures untouched { Untouched D.SectorDisk disk.old disk.new }
    ensures reads { D.read_faults disk.new ≡ D.read_faults disk.old }
{
    payload_of(disk, bytes, name).is_some()
}
