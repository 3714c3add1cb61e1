//! Messages that were sent.
ghost use Rattle.std.specs.Prelude.{◌≡◌, IfOk};
ghost use Rattle.vr_msg.specs.declared.event.Event.TheVariants as event;
ghost use Rattle.vr_group.specs.Letters.{delivered_as, frame_in};

use crate::{Delivery, Kept};
use std::alloc::{AllocError, Global};
use std::marker::Model;
use vr_msg::Sent;

/// A message that was sent.
#[derive(Drop)]
pub struct Letter {
    from: u8,
    to: u8,
    kept: Kept,
}

impl Model for Letter {
    ghost use Rattle.vr_msg.specs.declared.output.Sent.{Sent};
    ghost use Rattle.vr_group.specs.Letters.{IsKept, frame_in};

    ghost Value = { Sent };

    ghost view = { λ l. record { from = l.from; to = l.to; message = frame_in l.kept } };

    ghost invariant = { λ l. IsKept l.kept };
}

impl Letter {
    /// A message on its way from one member to another, sent after these letters.
    pub fn new(alloc: Global, letters: &[Letter], sent: &Sent) -> Result<Letter, AllocError>
        ensures { IfOk result (λ l. l ≡ sent.now) }
    {
        Ok(Letter {
            from: sent.from,
            to: sent.to,
            kept: Kept::of(alloc, letters, &sent.message)?,
        })
    }

    /// The replica that it goes to.
    pub fn to(&self) -> u8
        ensures { result ≡ self.now.to }
    {
        self.to
    }

    /// Its message, as it is kept.
    pub fn kept(&self) -> &Kept
        ensures { frame_in result.now ≡ self.now.message }
    {
        &self.kept
    }

    /// Its delivery.
    pub fn delivery(&self, alloc: Global) -> Result<Delivery<'_>, AllocError>
        ensures { IfOk result (λ d. delivered_as d ≡ event.Deliver self.now.message) }
    {
        self.kept.delivery(alloc)
    }
}
