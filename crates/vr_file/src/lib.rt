//! A file of the operating system as a disk. It tells nothing of its content, and keeps the counts of its faults.
#![tactic(auto)]

mod file;
mod file_disk;
mod kept;
mod laws;
mod open_file;
mod page_file;

pub use file_disk::FileDisk;
pub use laws::shown_laws;
