//! How many members a group has, and its quorums.
ghost use Rattle.std.specs.Prelude.{◌≡◌, ◌<◌, ◌+◌, ◌-◌, ◌≤◌, ◌↔◌, IsSome, IfSome};
ghost use Rattle.vr_base.specs.Groups.{is_size, least_members, quorums_of};

use crate::{Quorums, Version};

/// The quorums of a group of `n` replicas: `None` exactly where `n` is not from 1 to 6.
pub fn quorums(n: u8) -> Option<Quorums>
    ensures value { result ≡ quorums_of n }
    ensures some { IsSome result ↔ ((1 ≤ n) × (n ≤ 6)) }
    ensures overlap { IfSome result (λ q. n < q.replication + q.view_change) }
    ensures nack { IfSome result (λ q. q.nack ≡ n - q.replication + 1) }
{
    let (replication, view_change, nack) = match n {
        1 => (1, 1, 1),
        2 => (2, 2, 1),
        3 => (2, 2, 2),
        4 => (2, 3, 3),
        5 => (3, 3, 3),
        6 => (3, 4, 4),
        _ => return None,
    };
    Some(Quorums {
        replication,
        view_change,
        nack,
    })
}

// How many members a group at least has whose files are of this version.
fn least_members(version: Version) -> u8
    ensures { result ≡ least_members version }
{
    if version.get() == 2 { 1 } else { 2 }
}

/// Whether a group whose files are of this version may have `n` members: from the least number to 6.
pub fn is_size(version: Version, n: u8) -> bool
    ensures { result ≡ is_size version n }
{
    least_members(version) <= n && n <= 6
}
