//! Laws of messages over streams.
ghost use Rattle.vr_stream.specs.Connections.{ConnectionsAreCut, MessagesAreCut};

/// Whatever happened to a link over streams, at each port: the messages that were given of a connection, and after them those that stand
/// ready, are the messages of its bytes, in order, however they were cut. And what a link tells of its receives cuts bytes in the same way.
/// It does nothing.
pub fn stream_laws()
    ensures connections { ConnectionsAreCut }
    ensures messages { MessagesAreCut }
{}
