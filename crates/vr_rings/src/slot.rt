//! The slot of an op.
ghost use Rattle.std.specs.Prelude.{◌≡◌, ◌<◌};
ghost use Rattle.vr_rings.specs.Slots.{slot_of};

use vr_disk::SLOTS;
use vr_header::Header;

/// The slot of a header's op, below 64.
pub fn slot_of(header: &Header) -> u32
    ensures value { result ≡ slot_of header.now }
    ensures within { result < 64 }
{
    (header.op % SLOTS as u64) as u32
}
