//! Lists that a replica has in memory, each in a block that is made once: a window of at most 128 items, and a place for each member; and how far
//! its log goes.
#![tactic(auto)]

mod known;
mod places;
mod standing;
mod window;

pub use known::{has_header, known_at, known_from, run_length, run_of, valued};
pub use places::Places;
pub use standing::Standing;
pub use window::Window;
