//! Every step and every opening of the rules, and so every run of a group, is a chain of moves of the protocol's machine; and what the
//! machine's invariant gives of such a run.
#![tactic(auto)]

pub mod groups_of_one;
pub mod invariant;
pub mod runs;
pub mod steps;
