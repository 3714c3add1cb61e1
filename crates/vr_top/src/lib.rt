//! The commands over the outside that is handed in, each by its words: a replay, a summary, a member, a client, a trial, and a file's migration.
//! And how a program says its end.
#![tactic(auto)]

mod command;
mod maker;
mod outside;
mod program;
mod roles;
mod telling;
mod whole;

pub use command::run;
pub use maker::{Maker, Objects};
pub use program::{Program, Untold};
pub use telling::finish;
pub use whole::run_outside;
