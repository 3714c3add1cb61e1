//! The lines of a schedule that is made from a number: which line comes next, by draws from the number and by what is seen of the group.
#![tactic(auto)]

mod generator;
mod operation;
mod requests;

pub use generator::Generator;
pub use requests::Requests;
