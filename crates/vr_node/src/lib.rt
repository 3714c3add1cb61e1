//! A member of a group at work: a replica on its disk, made or found again, under the loop of turns; and the migration of its file.
#![tactic(auto)]

mod moving;
mod node;
mod opening;
mod role;
mod running;
mod serving;

pub use moving::run_migration;
pub use node::Node;
pub use role::Role;
pub use running::run_node;
pub use serving::serve;
