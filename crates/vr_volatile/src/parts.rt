//! What is known of one op, and of which ops.
ghost use Rattle.std.specs.Prelude.{◌≡◌, ◌+◌, ◌-◌};
ghost use Rattle.vr_rules.specs.Replica.{is_here};
ghost use Rattle.vr_rules.specs.Words.{may_be_stored};

use vr_disk::SLOTS;
use vr_header::Part;

/// Whether the entry of the op is stored.
pub fn is_here(part: &Part) -> bool
    ensures { result ≡ is_here part.now }
{
    match part {
        Part::Here(_) => true,
        _ => false,
    }
}

/// Whether the entry of the op may be on the disk.
pub fn may_be_stored(part: &Part) -> bool
    ensures { result ≡ may_be_stored part.now }
{
    match part {
        Part::Here(_) | Part::Lost(_) | Part::Unknown => true,
        Part::Wanted(_) | Part::Nothing => false,
    }
}

/// The first of the last ops up to this head that are remembered: one for each slot.
pub(crate) fn first_remembered(head: u64) -> u64
    ensures { result ≡ head - (SLOTS - 1) }
{
    head.saturating_sub(SLOTS as u64 - 1)
}
