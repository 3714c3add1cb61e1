//! Views: how they are entered, how their primary chooses the log with which it begins, and how others take it over. A
//! replica that is behind its window is given the checkpoint of its view's primary, and takes it over.
#![tactic(auto)]

mod changing;
mod giving;
mod jumping;
mod starting;
mod stating;
mod taking;
mod trying;

pub use changing::{ChangeRule, decide_start_view_change, handle_start_view_change};
pub use giving::{SyncRule, decide_get_sync, handle_get_sync};
pub use jumping::{JumpRule, decide_sync_view, handle_sync_view};
pub use starting::{
    StartRule, ViewRule, decide_get_view, decide_start_view, handle_get_view, handle_start_view,
};
pub use stating::{StateRule, decide_do_view_change, handle_do_view_change};
pub use taking::take;
pub use trying::{speak, try_view};
