//! Why the loop ended before its turns were done.
ghost use Rattle.std.specs.Prelude.{◌≡◌};
ghost use Rattle.vr_serve.specs.Causes.{received_stop};
ghost use Rattle.vr_serve.specs.declared.stop.Stop.TheVariants as stop;

use std::alloc::AllocError;
use vr_disk::Halt;
use vr_edge::WriteFailed;
use vr_mail::ReceiveFault;

/// Why the loop ended before its turns were done.
#[derive(Clone, Copy, Debug, PartialEq, Eq)]
pub enum Stop {
    /// A write or a sync of the disk failed.
    Disk,
    /// A receive failed.
    Link,
    /// The sink failed.
    Write,
    NoMemory,
}

impl From<Halt> for Stop {
    ghost use Rattle.vr_serve.specs.Causes.{stop_of};

    ghost from_gives = { λ h e. e ≡ stop_of h };

    fn from(halt: Halt) -> Stop {
        match halt {
            Halt::DiskFault => Stop::Disk,
            Halt::NoMemory => Stop::NoMemory,
        }
    }
}

impl From<WriteFailed> for Stop {
    ghost from_gives = { λ _ e. e ≡ stop.Write };

    fn from(_failed: WriteFailed) -> Stop {
        Stop::Write
    }
}

impl From<AllocError> for Stop {
    ghost from_gives = { λ _ e. e ≡ stop.NoMemory };

    fn from(_error: AllocError) -> Stop {
        Stop::NoMemory
    }
}

/// A receive that failed ends the loop as `Link`, want of memory for what came as `NoMemory`.
pub fn received_stop(fault: ReceiveFault) -> Stop
    ensures { result ≡ received_stop fault }
{
    match fault {
        ReceiveFault::Link => Stop::Link,
        ReceiveFault::NoMemory => Stop::NoMemory,
    }
}
