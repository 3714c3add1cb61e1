//! Faults of sectors.

/// What is to be wrong with a sector, until it is written again. Sectors are below 3,984.
#[derive(Clone, Copy, Debug, PartialEq, Eq)]
pub enum Fault {
    /// It reads as what it should hold with every bit turned.
    Damage(u32),
    /// It reads as what it held before its last write.
    Stale(u32),
    /// It can't be read.
    Unread(u32),
    /// The first reads as what it held before its last write, and the second, another one, as what the first should hold.
    Misdirect(u32, u32),
}

/// What became of a fault.
#[derive(Clone, Copy, Debug, PartialEq, Eq)]
pub enum Faulted {
    Done,
    /// The fault would break the premise, and nothing changed.
    KeptOut,
}
