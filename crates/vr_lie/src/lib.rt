//! A disk in memory that lies: sectors that read damaged, stale, not at all or as another's, within the premise.
#![tactic(auto)]

mod disk;
mod fault;
mod laws;
mod reading;
mod table;
mod trial;

pub use disk::LieDisk;
pub use fault::{Fault, Faulted};
pub use laws::lie_laws;
pub use vr_super::opens;
