//! The members of a group.
ghost use Rattle.std.specs.Prelude.{◌≡◌, [], IfOk, OnOk, map, true};
ghost use Rattle.std.specs.List.{range_with_len};
ghost use Rattle.vr_base.specs.Groups.{is_size};
ghost use Rattle.vr_world.specs.Lying.{hazards};
ghost use Rattle.vr_world.specs.World.{fresh_host};
ghost use Rattle.vr_group.specs.Deeds.{IsDeed, act_of};
ghost use Rattle.vr_group.specs.Hosts.{HaveActed};

use crate::{Deed, Host};
use std::alloc::Global;
use vr_base::{Kind, NoMemory};
use vr_msg::Outbox;

/// The members of a new group, each on a new file of this kind.
#[tactic(auto, using(crate::proofs::Acts::hosts_more))]
pub fn make_hosts(alloc: Global, n: u8, kind: &Kind) -> Result<Vec<Host>, NoMemory>
    requires { is_size kind.now.version n ≡ true }
    ensures { IfOk result (λ v. v.items ≡ map (fresh_host hazards kind.now n) (range_with_len 0 n)) }
{
    let mut hosts = Vec::new(alloc);
    for index in 0..n {
        let host = Host::new(alloc, index, n, kind)?;
        hosts.push(host)?;
    }
    Ok(hosts)
}

/// Something is done to one of the members; nothing where there is no such member.
#[tactic(auto, using(std::proofs::lemmas::Grind::common_steps, crate::proofs::Acts::acted_past))]
pub fn act_at(
    hosts: &mut Vec<Host>,
    alloc: Global,
    replica: u8,
    deed: &Deed<'_>,
    out: &mut Outbox,
) -> Result<(), NoMemory>
    requires deed { IsDeed deed.now }
    requires empty { out.old ≡ [] }
    ensures { OnOk result (HaveActed (act_of deed.now) hosts.old.items hosts.new.items replica out.new) }
{
    let at = replica as usize;
    if at < hosts.len() {
        let host = &mut hosts[at];
        return host.act(alloc, replica, deed, out);
    }
    Ok(())
}
