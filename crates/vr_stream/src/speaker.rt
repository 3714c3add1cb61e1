//! As whom a message speaks.
ghost use Rattle.std.specs.Prelude.{◌≡◌};
ghost use Rattle.vr_msg.specs.Spelling.{Spells};
ghost use Rattle.vr_msg.specs.declared.frame.Frame.{Frame};
ghost use Rattle.vr_stream.specs.Speaking.{speaker, spoken};

use vr_header::{Command, Header, decode};

// The member that sent a message with this header.
fn spoken(header: &Header) -> Option<u8>
    ensures { result ≡ spoken header.now.command header.now.replica }
{
    match header.command {
        Command::Request => None,
        _ => Some(header.replica),
    }
}

/// The member that sent a message, by its number; `None` of a request, which clients send.
#[tactic(auto, using(crate::proofs::Spoken::untold))]
pub(crate) fn speaker(bytes: &[u8]) -> Option<u8>
    ensures { (m : Frame) → Spells m bytes.now → result ≡ speaker m }
{
    match decode(bytes) {
        Ok(header) => spoken(&header),
        Err(_) => None,
    }
}
