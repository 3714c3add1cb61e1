//! Any damage is like any other, where neither verifies: what a replica reads, does and puts out is the same over two disks that read the
//! same but where neither verifies. Each function is a law: its contract is the statement, and it does nothing.
#![tactic(auto)]

ghost use Rattle.law_damage.specs.Laws.{AlikeChains, DamageAlike, EventsAlike, OpeningsAlike, PremiseAlike, ReadingsAlike, StepsAlike};

/// All that the rules read of a disk is the same over two that read alike, in a file of each version.
pub fn readings_alike()
    ensures { ReadingsAlike }
{}

/// So is each step of a replica, whichever it is: its replica, its effects in their order with what is put out, and the disks that it leaves
/// read alike again.
pub fn steps_alike()
    ensures { StepsAlike }
{}

/// So is each opening: both disks open or neither does, as the same replica with the same effects, and they read alike again.
pub fn openings_alike()
    ensures { OpeningsAlike }
{}

/// So are events one after the other, with no fault and no stop between them.
pub fn events_alike()
    ensures { EventsAlike }
{}

/// Where no region that a sector belongs to verifies with the one reading nor with the other, the disks read alike: whatever the bytes are
/// that a damaged sector reads as, or none.
pub fn damage_alike()
    ensures { DamageAlike }
{}

/// So it is of many sectors, one after another.
pub fn alike_chains()
    ensures { AlikeChains }
{}

/// What is asked of a disk that lies stands on both disks or on neither, of each whole entry that a slot holds.
pub fn premise_alike()
    ensures { PremiseAlike }
{}
