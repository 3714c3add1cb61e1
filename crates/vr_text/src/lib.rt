//! The text of all that a group puts out: a line for each output, an operation's words, an outcome's words.
#![tactic(auto)]

mod frames;
mod parts;
mod printing;
mod texts;

pub use printing::{text, write_text};
pub use texts::put_outcome;
