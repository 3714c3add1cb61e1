//! What a replica has in memory beside its disk, what changes there, and what it tells of it.
#![tactic(auto)]

mod applied;
mod asking;
mod blank;
mod changes;
mod cursor;
mod fields;
mod group;
mod jumping;
mod loaded;
mod parts;
mod reading;
mod repairing;
mod replica;
mod stating;
mod taking;
mod telling;

pub use group::{LAST_VIEW, primary};
pub use parts::{is_here, may_be_stored};
pub use replica::Replica;
pub use taking::Log;
pub use vr_window::{Window, valued};
