//! The normal case: requests become entries, which backups store and acknowledge, and whose commitment is told.
//!
//! Each rule has one clause on replica, disk and outputs: that what it does is the word of the definitions.
#![tactic(auto)]

mod counting;
mod entries;
mod learning;
mod making;
mod requesting;
mod storing;

pub use counting::{CountRule, decide_prepare_ok, handle_prepare_ok};
pub use learning::{CommitRule, decide_commit, handle_commit};
pub use requesting::{RequestRule, decide_request, handle_request};
pub use storing::{PrepareRule, decide_prepare, handle_prepare};
