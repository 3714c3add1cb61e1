//! How many descriptors a start wants.
ghost use Rattle.std.specs.Prelude.{◌≡◌, ◌+◌, ◌-◌, ◌^◌, min, if◌then◌else◌};

use crate::places::PLACES;

/// How many descriptors a member wants beside those of its streams: for its file and the folder of that, and for a newcomer whose place is looked for.
const SPARE: usize = 4;

/// How many descriptors streams may take beside what is open already: one for each peer, and those of a member also one for each place.
pub fn descriptors_wanted(peers: usize, is_member: bool) -> usize
    ensures { result ≡ (if is_member then min (peers + 68) (2 ^ 64 - 1) else peers) }
{
    if is_member {
        peers.saturating_add(PLACES + SPARE)
    } else {
        peers
    }
}
