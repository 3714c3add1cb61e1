//! What goes out over a link.
ghost use Rattle.std.specs.Prelude.{◌≡◌, [], ◌∷◌, OnOk, OnErr};
ghost use Rattle.vr_edge.specs.Sending.{datagram_at};
ghost use Rattle.vr_mail.specs.Sends.{Sends};
ghost use Rattle.vr_msg.specs.Spelling.{spelling};

use std::alloc::AllocError;
use vr_codec::encode;
use vr_edge::Link;
use vr_msg::Message;

/// Sends bytes to a port; if that fails they are lost, and nothing else.
pub fn send_bytes<L: Link>(link: &mut L, port: u32, bytes: &[u8])
    ensures sent { Sends (datagram_at port bytes.now ∷ []) (L.sent link.old) (L.sent link.new) }
    ensures received { L.received link.new ≡ L.received link.old }
    ensures faults { L.faults link.new ≡ L.faults link.old }
    ensures attached { L.attached link.new ≡ L.attached link.old }
{
    let _ = link.send(port, bytes);
}

/// Sends a message to a port; if that fails the message is lost, and nothing else. Its bytes are put into `bytes`.
pub fn send_message<L: Link>(
    link: &mut L,
    port: u32,
    message: &Message,
    bytes: &mut Vec<u8>,
) -> Result<(), AllocError>
    ensures sent { OnOk result (Sends (datagram_at port (spelling message.now) ∷ []) (L.sent link.old) (L.sent link.new)) }
    ensures unsent { OnErr result (L.sent link.new ≡ L.sent link.old) }
    ensures bytes { OnOk result (bytes.new.items ≡ spelling message.now) }
    ensures received { L.received link.new ≡ L.received link.old }
    ensures faults { L.faults link.new ≡ L.faults link.old }
    ensures attached { L.attached link.new ≡ L.attached link.old }
{
    bytes.clear();
    encode(message, bytes)?;
    send_bytes(link, port, bytes.as_slice());
    Ok(())
}
