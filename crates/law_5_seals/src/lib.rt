//! Sectors that begin with the header of an entry, of an op that a log may come to, only where that entry was made, and what keeps them
//! so. Such ops are those below 2^61 in group 0, and below 2^48 in any other. Each function is a law: its contract is the statement, and it does nothing.
#![tactic(auto)]

ghost use Rattle.law_5_seals.specs.Laws.{CheckpointsAreHeadless, MovesAreSealed, SealsLast, SessionsAreHeadless, SlotsAreSealed, ValuesAreSealed};

/// Where all sectors of a disk are sealed, they are so after calls that write sealed sectors, in each cut of them, and after a fault.
pub fn seals_last()
    ensures { SealsLast }
{}

/// An entry that was made is written in sealed sectors.
pub fn slots_are_sealed()
    ensures { SlotsAreSealed }
{}

/// A value of the superblock that names what was made is written in sealed sectors.
pub fn values_are_sealed()
    ensures { ValuesAreSealed }
{}

/// The prepares of a sealed disk of version 1 are sealed as a migration writes them at their new places.
pub fn moves_are_sealed()
    ensures { MovesAreSealed }
{}

/// No sector of a checkpoint begins with the header of an entry, as it is or with its bits turned, if those of its sessions don't.
pub fn checkpoints_are_headless()
    ensures { CheckpointsAreHeadless }
{}

/// No sector of the blocks of sessions that come of entries begins with such a header, by their form, wherever in the sector one session ends
/// and another begins.
pub fn sessions_are_headless()
    ensures { SessionsAreHeadless }
{}
