//! What a member is run as.
use vr_base::{Config, Kind};

/// What a member is run as.
#[derive(Debug, Drop)]
pub struct Role {
    /// The group, the number in it, and its size.
    pub config: Config,
    /// What its file is made as; none where it is found again.
    pub fresh: Option<Kind>,
    /// The name of its disk.
    pub file: String,
    /// How many turns it serves.
    pub turns: u64,
    /// The addresses of all members, by their numbers.
    pub peers: Vec<String>,
}
