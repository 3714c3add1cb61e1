//! Why a text is no table.

use std::alloc::AllocError;
use vr_base::NoMemory;

/// Why bytes were not read as a table: the first fault from the front, or want of memory.
///
/// An entry is judged as a whole, so one that is not of its form is torn, whatever its key.
#[derive(Clone, Copy, Debug, PartialEq, Eq)]
pub enum StateFault {
    /// The bytes end early or some are left, or an entry is not of its form.
    Torn,
    /// The key of an entry does not stand above that of the entry before it.
    NotSorted,
    /// The count is above the table's limit.
    TooMany,
    /// There was no memory; this says nothing of the bytes.
    NoMemory,
}

impl From<AllocError> for StateFault {
    ghost use Rattle.std.specs.Prelude.{◌≡◌};
    ghost use Rattle.vr_state.specs.declared.fault.StateFault.TheVariants.{NoMemory};

    ghost from_gives = { λ _ fault. fault ≡ NoMemory };

    fn from(_: AllocError) -> StateFault {
        StateFault::NoMemory
    }
}

impl From<NoMemory> for StateFault {
    ghost use Rattle.std.specs.Prelude.{◌≡◌};
    ghost use Rattle.vr_state.specs.declared.fault.StateFault.TheVariants.{NoMemory};

    ghost from_gives = { λ _ fault. fault ≡ NoMemory };

    fn from(_: NoMemory) -> StateFault {
        StateFault::NoMemory
    }
}
