//! An honest disk in memory: what was written reads back, and a stop at a call leaves what the laws of disks say. Below
//! it a disk whose sectors may read otherwise, and what is kept of them: what each should hold, reads as, and held before
//! its last write. Of those that wait for a sync also what they were before.
#![tactic(auto)]

mod bytes;
mod cell_disk;
mod disk;
mod face;
mod fate;
mod laws;
mod name;
mod room;
mod rooms;
mod texts;
mod waits;

pub use bytes::{Mark, MemBytes, damage};
pub use cell_disk::CellDisk;
pub use disk::MemDisk;
pub use face::MemFace;
pub use fate::MemVerdict;
pub use laws::honest_disk;
