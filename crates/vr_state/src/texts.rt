//! The texts of a state.

use vr_base::ByteList;

/// The texts of a state, apart, so that a checkpoint need write no more than what changed of each.
#[derive(Debug, Drop, PartialEq, Eq)]
pub struct Texts {
    /// The sessions by ascending clients, at most 193,474 bytes.
    pub sessions: ByteList,
    /// The keys in byte order with their values, at most 392,578 bytes.
    pub keys: ByteList,
}
