//! A schedule that is made from a number: its lines run on a group of replicas on disks that lie, and what they come to is summed up.
#![tactic(auto)]

mod command;
mod heard;
mod soaking;
mod summary;

pub use command::soak;
use heard::Heard;
use soaking::Soaking;
pub use summary::{Faults, Summary};
