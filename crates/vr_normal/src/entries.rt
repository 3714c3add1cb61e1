//! Headers of entries.
ghost use Rattle.std.specs.Prelude.{◌≡◌};
ghost use Rattle.vr_header.specs.Made.{IsEntryHeader};
ghost use Rattle.vr_header.specs.Spelling.{IsHeader};

use vr_actions::valued;
use vr_header::{Entry, Header};

/// The header of the entry. By its type it is that of an entry, and has the values of the program.
pub fn header_of(entry: &Entry) -> Header
    ensures same { result ≡ entry.now.header }
    ensures values { IsHeader entry.now.header }
    ensures entry { IsEntryHeader entry.now.header }
{
    valued(entry.header())
}
