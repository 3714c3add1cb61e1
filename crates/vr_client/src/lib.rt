//! A client of a group: it asks one operation after another, and hears each one's own answer.
#![tactic(auto)]

mod answer;
mod asking;
mod client;
mod laws;

pub use answer::{Answer, AskFault};
pub use asking::PATIENCE;
pub use client::ClientCore;
pub use laws::ask_laws;
