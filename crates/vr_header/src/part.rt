//! What a replica knows of one op.

use crate::Header;

/// What a replica knows of one op.
#[derive(Clone, Copy, Debug, PartialEq, Eq)]
pub enum Part {
    /// The entry of this header is stored.
    Here(Header),
    /// The entry of this header was stored, and can't be read.
    Lost(Header),
    /// The entry of this header is named by others, and was never stored here.
    Wanted(Header),
    /// Something may have been stored, and can't be read.
    Unknown,
    /// Nothing was stored.
    Nothing,
}

impl Part {
    ghost use Rattle.std.specs.Prelude.{◌≡◌};
    ghost use Rattle.vr_header.specs.Parts.{header_of};

    /// The header that it knows.
    pub fn header(&self) -> Option<Header>
        ensures { result ≡ header_of self.now }
    {
        match self {
            Part::Here(header) | Part::Lost(header) | Part::Wanted(header) => Some(*header),
            Part::Unknown | Part::Nothing => None,
        }
    }
}
