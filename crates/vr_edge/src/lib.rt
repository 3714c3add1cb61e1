//! The outside as traits: a source, a sink, a link, streams and a clock, each with a count of its faults and with its
//! content where it tells it; and objects in memory that stand for them.
#![tactic(auto)]

mod attach;
mod calls;
mod clock;
mod datagram;
mod link;
mod log;
mod mem_clock;
mod mem_link;
mod mem_sink;
mod mem_source;
mod mem_streams;
mod outbox;
mod script;
mod sink;
mod source;
mod stock;
mod stream_script;
mod streams;
mod write_all;

pub use attach::Attach;
pub use clock::Clock;
pub use datagram::Datagram;
pub use link::{Link, LinkFailed, RECEIVE_ROOM, Received};
pub use log::Log;
pub use mem_clock::MemClock;
pub use mem_link::MemLink;
pub use mem_sink::MemSink;
pub use mem_source::MemSource;
pub use mem_streams::MemStreams;
pub use outbox::LinkRoom;
pub use script::LinkScript;
pub use sink::{Sink, WriteFailed};
pub use source::{ReadFailed, Source};
pub use stock::{LogRoom, TextStock};
pub use stream_script::{Coming, StreamScript};
pub use streams::{Piece, Polled, STREAM_ROOM, StreamCall, StreamFailed, Streams, Write};
pub use write_all::write_whole;
