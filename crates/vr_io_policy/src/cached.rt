//! One sector of a file, as far as it is known.
ghost use Rattle.std.specs.Prelude.{◌≡◌};
ghost use Rattle.vr_io_policy.specs.Caches.{is_unknown, is_unread, stands_for};

use vr_disk::{SECTOR_SIZE, Sector};

/// What is written to a sector that couldn't be read: no entry, block or superblock begins so, and it isn't empty either.
const LOST: [u8; SECTOR_SIZE] = [255; SECTOR_SIZE];

/// What is known of a sector of a file.
#[derive(Clone, Copy, Debug, PartialEq, Eq)]
pub enum Cached {
    /// It wasn't read since it was forgotten.
    Unknown,
    /// The file couldn't read it.
    Unread,
    /// As it was read or written last.
    Held(Sector),
}

impl Cached {
    /// Whether it is to be read before it is written with others.
    pub fn is_unknown(&self) -> bool
        ensures { result ≡ is_unknown self.now }
    {
        match self {
            Cached::Unknown => true,
            _ => false,
        }
    }

    /// Whether it couldn't be read.
    pub fn is_unread(&self) -> bool
        ensures { result ≡ is_unread self.now }
    {
        matches!(self, Cached::Unread)
    }

    /// What is written to it with others.
    pub fn bytes(&self) -> [u8; SECTOR_SIZE]
        ensures { result ≡ stands_for self.now }
    {
        match self {
            Cached::Held(sector) => sector.bytes,
            _ => LOST,
        }
    }
}
