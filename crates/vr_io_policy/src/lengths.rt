//! How long the file of a disk is, and what one that is too short lacks.
ghost use Rattle.std.specs.Prelude.{◌≡◌};
ghost use Rattle.vr_io_policy.specs.Lengths.{length_of, sectors_begun, whole_length};

use vr_disk::{SECTOR_SIZE, SECTORS};

/// The bytes of the file: 498 pages of 4,096.
pub const FILE_SIZE: u64 = SECTORS as u64 * SECTOR_SIZE as u64;

const _: () = prove!(FILE_SIZE == 2_039_808);

/// A file's length, beside that of a disk's file.
#[derive(Clone, Copy, Debug, PartialEq, Eq)]
pub enum Length {
    /// It isn't whole yet: it gets zeros after what it has.
    Short,
    /// It is just as long.
    Whole,
    /// It is no disk's.
    Long,
}

/// What a file of so many bytes is.
pub fn length_of(len: u64) -> Length
    ensures { result ≡ length_of len }
{
    if len < FILE_SIZE {
        return Length::Short;
    }
    if len == FILE_SIZE {
        return Length::Whole;
    }
    Length::Long
}

/// The first sector of which a file of so many bytes has nothing; as many as there are where it has some of each.
pub fn sectors_begun(len: u64) -> u32
    ensures { result ≡ sectors_begun len }
{
    let size = SECTOR_SIZE as u64;
    if len >= FILE_SIZE {
        return SECTORS;
    }
    ((len + size - 1) / size) as u32
}
