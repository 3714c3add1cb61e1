//! A group of replicas on disks that lie, in one process, and the messages between them, which a schedule's lines move on.
#![tactic(auto)]

mod asked;
mod deed;
mod host;
mod hosts;
mod kept;
mod letter;
mod members;
mod outputs;
mod same;
mod views;
mod world;

pub use deed::Deed;
pub use host::Host;
pub use kept::{Delivery, Kept};
pub use letter::Letter;
pub use outputs::{Outputs, Put};
pub use world::World;
