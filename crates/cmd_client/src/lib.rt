//! A client of a group that asks the lines of a source.
#![tactic(auto)]

mod asking;
mod lines;
mod running;
mod text;

pub use asking::exchange;
pub use running::run_client;
