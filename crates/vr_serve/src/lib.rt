//! A member of a group at work: a loop of turns around a replica, over a disk, a link, a clock and a sink.
#![tactic(auto)]

mod clients;
mod handling;
mod laws;
mod member;
mod objects;
mod output;
mod post;
mod serving;
mod stop;

pub use laws::serve_laws;
pub use member::Member;
pub use serving::{TICK, serve};
pub use stop::Stop;
pub use vr_disk::Halt;
