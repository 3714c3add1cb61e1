//! The version and the group that bytes tell.
ghost use Rattle.std.specs.Prelude.{◌≡◌, ◌==◌, ◌&&◌};
ghost use Rattle.vr_mail.specs.Letters.{cluster_of};
ghost use Rattle.vr_msg.specs.Spelling.{Spells, version_of};
ghost use Rattle.vr_msg.specs.declared.frame.Frame.{Frame};

use vr_base::{Version, u64_at};
use vr_codec::tells_version;

/// Where the header of a message tells its group, in eight bytes.
const CLUSTER_PLACE: usize = 64;

/// Whether the bytes tell this group, as each message of it does. It takes no memory, and makes no digest.
#[tactic(auto, using(std::proofs::lemmas::Grind::common_steps, crate::proofs::Groups::cluster_there, crate::proofs::Groups::cluster_long))]
fn tells_cluster(bytes: &[u8], cluster: u64) -> bool
    ensures { (m : Frame) → Spells m bytes.now → result ≡ (cluster_of m == cluster) }
{
    if bytes.len() < CLUSTER_PLACE + 8 {
        return false;
    }
    u64_at(bytes, CLUSTER_PLACE) == cluster
}

/// Whether the bytes tell this version and group, as each message of both does. It takes no memory, and makes no digest.
pub fn tells_group(version: Version, cluster: u64, bytes: &[u8]) -> bool
    ensures { (m : Frame) → Spells m bytes.now → result ≡ ((version_of m == version) && (cluster_of m == cluster)) }
{
    tells_version(bytes, version) && tells_cluster(bytes, cluster)
}
