//! Headers, the operations and outcomes that stand behind them, and their bytes; chains of headers, and what is missing in
//! a run of Parts.
#![tactic(auto)]

mod body;
mod chain;
mod codec;
mod command;
mod entry;
mod header;
mod holes;
mod limits;
mod names;
mod operation;
mod outcome;
mod part;
mod placing;
mod size;
mod text;
mod view;

pub use chain::verify;
pub use codec::{decode, decode_by, decoded_header, encode, nameless, spelled};
pub use command::Command;
pub use entry::Entry;
pub use header::{Header, HeaderFault, HeaderList};
pub use holes::next_hole;
pub use limits::{HEADER_SIZE, LAST_OP, MESSAGE_MOST, NAMED_AT, OP_AT, SIZE_AT};
pub use names::Names;
pub use operation::Operation;
pub use outcome::Outcome;
pub use part::Part;
pub use size::Size;
pub use text::{Key, Text, Value};
