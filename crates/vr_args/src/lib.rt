//! The command line: which of the six commands its words are, with their numbers, texts and addresses.
#![tactic(auto)]

mod asked;
mod command;
mod forms;
mod reading;

pub use command::{
    ClientWords, Command, MigrateWords, NodeWords, SoakWords, TrialWords, WordsFault,
};
pub use reading::parse;
