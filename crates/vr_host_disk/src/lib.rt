//! A disk that lies and tells what its slots hold, and what replicas do on such disks.
#![tactic(auto)]

mod disk;
mod laws;

pub use disk::HostDisk;
pub use laws::{members_act, runs_tell, steps_read_sectors};
