//! The views of members.
ghost use Rattle.std.specs.Prelude.{◌≡◌, ◌<◌, map, max, length, get_or};
ghost use Rattle.std.specs.List.{fold};
ghost use Rattle.vr_world.specs.World.{Host as Member};
ghost use Rattle.vr_world.specs.Lying.{Lying};
ghost use Rattle.vr_group.specs.Views.{view_of};

use crate::Host;

/// The view of one of the members, who stays as it is.
fn view_at(hosts: &mut Vec<Host>, at: usize) -> u32
    requires { at < length hosts.old.items }
    ensures view { (m : Member Lying) → m ≡ get_or hosts.old.items at m → result ≡ view_of m }
    ensures same { hosts.new.items ≡ hosts.old.items }
{
    let host = &mut hosts[at];
    host.view()
}

/// The greatest view of the members, who stay as they are.
#[tactic(auto)]
pub fn top_view(hosts: &mut Vec<Host>) -> u32
    ensures view { result ≡ fold max 0 (map view_of hosts.old.items) }
    ensures same { hosts.new.items ≡ hosts.old.items }
{
    let mut top = 0;
    for at in 0..hosts.len() {
        top = top.max(view_at(hosts, at));
    }
    top
}
