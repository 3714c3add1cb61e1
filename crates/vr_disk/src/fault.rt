//! Why something on a disk wasn't read or written.
ghost use Rattle.std.specs.Prelude.{◌≡◌};
ghost use Rattle.vr_disk.specs.declared.fault.Halt.TheVariants as halt;

use crate::DiskFailed;
use std::alloc::AllocError;
use vr_base::NoMemory;

/// A write or a sync of the disk failed.
#[derive(Clone, Copy, Debug, PartialEq, Eq)]
pub struct DiskFault;

/// A reading failed, or isn't what was asked for.
#[derive(Clone, Copy, Debug, PartialEq, Eq)]
pub struct Faulty;

/// Why work that writes to a disk stopped in its midst.
#[derive(Clone, Copy, Debug, PartialEq, Eq)]
pub enum Halt {
    /// A write or a sync of the disk failed.
    DiskFault,
    /// There was no memory.
    NoMemory,
}

impl From<DiskFailed> for DiskFault {
    fn from(_failed: DiskFailed) -> DiskFault {
        DiskFault
    }
}

impl From<DiskFailed> for Halt {
    ghost from_gives = { λ _ h. h ≡ halt.DiskFault };

    fn from(_failed: DiskFailed) -> Halt {
        Halt::DiskFault
    }
}

impl From<DiskFault> for Halt {
    ghost from_gives = { λ _ h. h ≡ halt.DiskFault };

    fn from(_fault: DiskFault) -> Halt {
        Halt::DiskFault
    }
}

impl From<NoMemory> for Halt {
    ghost from_gives = { λ _ h. h ≡ halt.NoMemory };

    fn from(_fault: NoMemory) -> Halt {
        Halt::NoMemory
    }
}

impl From<AllocError> for Halt {
    ghost from_gives = { λ _ h. h ≡ halt.NoMemory };

    fn from(_error: AllocError) -> Halt {
        Halt::NoMemory
    }
}
