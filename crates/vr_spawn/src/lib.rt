//! Programs that are started and ended: a spawner as a trait, and one in memory.
#![tactic(auto)]

mod mem_spawner;
mod spawner;

pub use mem_spawner::MemSpawner;
pub use spawner::{SpawnCall, SpawnFailed, Spawner, Start, Stop};
