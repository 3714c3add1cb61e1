//! A block of a checkpoint looked at.
ghost use Rattle.std.specs.Prelude.{◌≡◌, ◌≤◌, IfSome, is_some, not};
ghost use Rattle.vr_ckpt.specs.Grid.{named_at};
ghost use Rattle.vr_disk.specs.Untouched.{Untouched};

use crate::{Name, read_block};
use vr_disk::{Buffer, SectorDisk};

/// Whether the block of this name can't be read whole. It takes no memory, and reads into the buffer.
pub fn worn<D: SectorDisk>(disk: &mut D, name: &Name, to: &mut Buffer) -> bool
    ensures untouched { Untouched D.SectorDisk disk.old disk.new }
    ensures reads { D.read_faults disk.old ≤ D.read_faults disk.new }
    ensures value { IfSome (D.told disk.old) (λ d. is_some (named_at d.face name.now) ≡ not result) }
{
    read_block(disk, name, to).is_err()
}
