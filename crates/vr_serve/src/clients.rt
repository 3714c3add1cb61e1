//! The clients that were heard last.
ghost use Rattle.std.specs.Prelude.{◌≡◌, ◌==◌, OnOk};
ghost use Rattle.std.specs.List.{position};
ghost use Rattle.vr_serve.specs.Outputs.{heard, others, port_of};

use std::alloc::AllocError;
use vr_msg::Event;

/// The most clients whose ports are kept.
const MOST: usize = 64;

/// A client, and the port of its latest request.
#[derive(Clone, Copy)]
pub struct Client {
    pub id: u64,
    pub port: u32,
}

/// The port at this client's first place in the list; `None` where the client isn't in it.
pub fn port_of(clients: &[Client], id: u64) -> Option<u32>
    ensures { result ≡ port_of id clients.now }
{
    Some(clients.iter().find(|client| client.id == id)?.port)
}

/// The first place of this client in the list; `None` where it isn't in it.
fn place_of(clients: &[Client], id: u64) -> Option<usize>
    ensures { result ≡ position (λ c. c.id == id) clients.now }
{
    clients.iter().position(|client| client.id == id)
}

/// Takes the client out of the list, at its first place. Where it isn't in the list, all after the first 63 go instead. The
/// others keep their order.
fn make_place(clients: &mut Vec<Client>, id: u64)
    ensures { clients.new.items ≡ others id clients.old.items }
{
    match place_of(clients, id) {
        Some(at) => {
            let _ = clients.remove(at);
        }
        None => clients.truncate(MOST - 1),
    }
}

/// A request puts its client in front of the list, with this port: its earlier place goes, and where it had none all after the
/// 63rd. Any other event leaves the list as it is. After an `Err`, want of memory, nothing is said of the list.
pub fn hear(clients: &mut Vec<Client>, port: u32, event: &Event) -> Result<(), AllocError>
    ensures { OnOk result (clients.new.items ≡ heard (record { port = port; event = event.now }) clients.old.items) }
{
    if let Event::Request(request) = event {
        let id = request.fields().client;
        make_place(clients, id);
        clients.insert(0, Client { id, port })?;
    }
    Ok(())
}
