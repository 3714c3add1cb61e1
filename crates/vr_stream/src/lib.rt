//! Messages over streams of bytes: where messages end in the pieces that come (`deframer`), and a link over streams (`link`).
#![tactic(auto)]

mod deframer;
mod framed;
mod framer;
mod laws;
mod line;
mod link;
mod looking;
mod next;
mod speaker;

pub use deframer::Deframer;
pub use laws::stream_laws;
pub use link::StreamLink;
pub use next::Next;
