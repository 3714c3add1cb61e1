//! The bytes of a message, both ways: the judge of bytes (`shape`), what they say (`read`), and their writing (`head`, `write`),
//! put together in `codec`. The messages themselves and the definition of their spelling stand in `vr_msg`.
#![tactic(auto)]

mod codec;
mod fault;
mod head;
mod read;
mod shape;
mod write;

pub use codec::{decode, encode, judge, tells_version};
pub use fault::MsgFault;
