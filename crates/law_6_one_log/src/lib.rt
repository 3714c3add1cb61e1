//! Every run of a group, and every schedule of a group on disks that lie, keeps one log: the machine follows each run, each checkpoint that
//! is loaded is that of the log, nothing that an opening finds was forged.
#![tactic(auto)]

pub mod checkpoint;
pub mod followed;
pub mod one_log;
pub mod replies;
pub mod schedules;
