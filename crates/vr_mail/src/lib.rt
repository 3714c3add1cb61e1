//! Messages of one version and group over a link: those that come, among all that comes, and those that go out.
#![tactic(auto)]

mod cluster;
mod laws;
mod receiving;
mod sending;

pub use laws::mail_laws;
pub use receiving::{Letter, ReceiveFault, receive_letter};
pub use sending::{send_bytes, send_message};
