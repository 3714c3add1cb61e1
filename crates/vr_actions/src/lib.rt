//! The words of which a replica's rules are made: what it does in memory and on its disk together.
//!
//! Each word has one clause on replica, disk and outputs: that what it does is the word of the definitions.
#![tactic(auto)]

mod acknowledging;
mod applying;
mod commits;
mod effects;
mod loading;
mod preparing;
mod reading;
mod words;

pub use acknowledging::acknowledge_all;
pub use applying::{apply, learn};
pub use commits::advance;
pub use effects::{put_block, rewrite_header};
pub use loading::load;
pub use preparing::prepare_again;
pub use reading::{find_entry, read_entry};
pub use vr_disk::Halt;
pub use vr_volatile::{LAST_VIEW, Log, Replica, Window, is_here, primary, valued};
pub use words::{accept, enter, save, write};
