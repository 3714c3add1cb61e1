//! Laws of what comes over a link.
ghost use Rattle.vr_mail.specs.Letters.{RefusedAreNothing};

/// A datagram that is refused is as if nothing had come: for each list of receives. It does nothing.
pub fn mail_laws()
    ensures { RefusedAreNothing }
{}
