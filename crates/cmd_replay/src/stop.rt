//! Why a replay stops before its end.
ghost use Rattle.cmd_replay.specs.declared.stop.Stop.TheVariants.{NoMemory, WriteFault};
ghost use Rattle.std.specs.Prelude.{◌≡◌};

use vr_base::Status;
use vr_edge::WriteFailed;

/// Why a replay stops.
#[derive(Clone, Copy, Debug, PartialEq, Eq)]
pub enum Stop {
    /// The line with this number is none.
    Refused(u32),
    /// A write of the outputs failed.
    WriteFault,
    NoMemory,
}

impl From<WriteFailed> for Stop {
    ghost from_gives = { λ _ e. e ≡ WriteFault };

    fn from(_: WriteFailed) -> Self {
        Stop::WriteFault
    }
}

impl From<vr_base::NoMemory> for Stop {
    ghost from_gives = { λ _ e. e ≡ NoMemory };

    fn from(_: vr_base::NoMemory) -> Self {
        Stop::NoMemory
    }
}

impl Stop {
    ghost use Rattle.cmd_replay.specs.Stops.{status_of};

    /// How a run ends that stops so.
    pub fn status(self) -> Status
        ensures { result ≡ status_of self }
    {
        match self {
            Stop::Refused(line) => Status::Refused(line),
            Stop::WriteFault => Status::WriteFault,
            Stop::NoMemory => Status::NoMemory,
        }
    }
}
