//! What a visit finds.

/// What a visit of a slot finds, and does. It is for whoever visits single slots; `visit`, which goes
/// round, has no use of it.
#[derive(Clone, Copy, PartialEq, Eq)]
pub enum Visit {
    /// No entry of the op is known to be stored.
    Nothing,
    /// Its entry can't be read, and is lost.
    Lost,
    /// Its header sector didn't read as its entry's header, and was written anew.
    Mended,
    /// It reads.
    Good,
}
