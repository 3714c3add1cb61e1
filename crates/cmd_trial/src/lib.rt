//! A trial of a running group: its members are started, one is stopped and started again between what a client asks, and all are
//! stopped.
#![tactic(auto)]

mod course;
mod ending;
mod lines;
mod order;
mod plan;
mod step;
mod steps;
mod trial;
mod words;

pub use plan::Plan;
pub use trial::run_trial;
