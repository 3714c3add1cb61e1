//! The law of asks.
ghost use Rattle.vr_client.specs.Laws.{RefusedChangeNothing};

/// A law alone, it does nothing. Before an ask's last receive each datagram that is no message of its version and group may be
/// replaced by a receive that gave nothing: requests, answer and port stay.
pub fn ask_laws()
    ensures { RefusedChangeNothing }
{}
