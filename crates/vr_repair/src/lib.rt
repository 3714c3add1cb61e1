//! Repair: entries and blocks that are missing are asked for, given and taken; the disk is visited place by place, and mended
//! where the replica can.
#![tactic(auto)]

mod blocks;
mod deciding;
mod entries;
mod finding;
mod found;
mod laws;
mod missing;
mod retelling;
mod visiting;
mod wanting;

pub use blocks::{handle_get_block, handle_give_block};
pub use deciding::{Repair, decide_get_block, decide_get_prepare, decide_give_prepare};
pub use entries::{handle_get_prepare, handle_give_prepare};
pub use finding::find_block;
pub use found::Visit;
pub use laws::repair_laws;
pub use missing::{ask, put_block};
pub use retelling::resend;
pub use visiting::{visit, visit_slot};
pub use wanting::decide_give_block;
