//! Laws of groups and of disks that lie. Each function is a law: its contract is the statement, and it does nothing.

ghost use Rattle.vr_world.specs.GroupFit.{GroupsFit, LiesFit};

/// Sectors that may lie read well where each has 512 bytes, and stay so whatever fit effects come.
pub fn lies_are_fit()
    ensures { LiesFit }
{}

/// In a run of a group whose moves read what the program has, every member is sound where it runs and can be saved; its values are its
/// own and make good copies; every message that was sent may come, and every entry that was written has an entry's header.
pub fn groups_are_fit()
    ensures { GroupsFit }
{}
