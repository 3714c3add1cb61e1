//! Which group is tried, and how long an ask waits.

/// What a trial is of.
#[derive(Debug, Drop)]
pub struct Plan {
    pub cluster: u64,
    /// How many turns each ask has.
    pub turns: u64,
    /// What the names of the members' disks begin with; after it stands the member's number.
    pub files: String,
    /// The addresses of all members, by their numbers.
    pub peers: Vec<String>,
}
