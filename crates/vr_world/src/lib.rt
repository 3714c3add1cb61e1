//! A group of replicas: with sectors forgotten, and as a world of members on disks that may lie, which the lines of a schedule move on; and
//! what every run of one is to keep.
#![tactic(auto)]

pub mod laws;
