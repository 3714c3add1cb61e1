//! The replicated state: keys and values, the sessions of clients (which request was the last, what it gave, and what a request is to its
//! session), and both together. A table of either is a finite map; its text has a count and then its entries by ascending keys, and the first
//! fault of such a text decides.
#![tactic(auto)]

mod fault;
mod front;
mod kv;
mod kv_decode;
mod kv_encode;
mod machine;
mod pair;
mod reply;
mod session;
mod session_codec;
mod session_table;
mod session_text;
mod sessions;
mod state;
mod texts;

pub use fault::StateFault;
pub use front::{split_byte, split_count, split_piece, split_u16, split_u32, split_u64};
pub use kv::{KEYS, Kv};
pub use machine::Machine;
pub use reply::ReplyBody;
pub use session::{Session, SessionAnswer};
pub use sessions::{SESSIONS, Sessions};
pub use state::State;
pub use texts::Texts;
