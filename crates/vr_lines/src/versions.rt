//! What a version allows lines to be.
ghost use Rattle.std.specs.Prelude.{◌≡◌};
ghost use Rattle.vr_lines.specs.Grammar.{longest};
ghost use Rattle.vr_lines.specs.Versions.{line_sectors};

use vr_base::Version;
use vr_disk::{SECTORS, prepare_place};

/// The most bytes that a line of any version has, without its end.
pub const LONGEST: usize = 3111;

/// The most bytes that a line of version 1 has, without its end.
const LONGEST_OF_VERSION_1: usize = 1135;

/// The most bytes that a line of this version has, without its end: those of
/// `request 5 18446744073709551615 4294967295 put KEY VALUE` with a key of 64 bytes and as long a value as there is.
pub fn line_limit(version: Version) -> usize
    ensures { result ≡ longest version }
{
    if version.get() == 2 {
        LONGEST
    } else {
        LONGEST_OF_VERSION_1
    }
}

/// How many sectors of a disk lines of this version speak of, from the first on: those of version 1 of
/// the sectors in front of the prepares of version 2.
pub fn line_sectors(version: Version) -> u32
    ensures { result ≡ line_sectors version }
{
    if version.get() == 2 {
        SECTORS
    } else {
        prepare_place(0, Version::new(2))
    }
}
