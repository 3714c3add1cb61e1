//! What a data file is from its beginning on.
ghost use Rattle.std.specs.Prelude.{◌≡◌};
ghost use Rattle.vr_base.specs.Kinds.{of_mode};

use crate::mode::Mode;
use crate::version::Version;

/// What a data file is made as, and stays.
#[derive(Clone, Copy, Debug, PartialEq, Eq)]
pub struct Kind {
    /// How its slots are judged.
    pub mode: Mode,
    /// The version of its layout, its frames and its entries.
    pub version: Version,
}

impl Kind {
    /// A file of version 1, whose slots are judged in this mode.
    pub const fn of_mode(mode: Mode) -> Kind
        ensures { result ≡ of_mode mode }
    {
        Kind {
            mode,
            version: Version::new(1),
        }
    }
}
