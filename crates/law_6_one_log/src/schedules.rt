//! Every schedule over disks that lie is a run of the group, and nothing that an opening finds was forged: what reads as the header of
//! an entry, where an opening looks for it, is of one that a replica began to write. Each function is a law: its contract is the
//! statement, and it does nothing.
//!
//! What is asked of a schedule (`MayAll`): its lines are those of a schedule; names don't collide, of what was read, held and written
//! in any of them. And it has fewer than 2^60 lines: so long the log doesn't come near the ops, of 2^61 and more, whose headers the
//! sessions of a checkpoint could spell where a sector begins. The same is asked of what happens to a group of any number, but that
//! it be fewer than 2^47 lines: there sessions could spell headers from op 2^48 on.
ghost use Rattle.law_6_one_log.specs.ScheduleLaws.{HappeningsAreRuns, LinesStayUnforged, SchedulesAreRuns, SomeEntryMay, SomeScheduleMay, WorldsAreRuns, WorldsBeginUnforged};

/// A group of 1 to 6 replicas, of 2 at least where one is on a file of version 1, begins with disks on which nothing is forged.
pub fn worlds_begin_unforged()
    ensures { WorldsBeginUnforged }
{}

/// A line is a move of the group, or none, and leaves no disk with anything forged.
pub fn lines_stay_unforged()
    ensures { LinesStayUnforged }
{}

/// A schedule, line after line, is a run of the group.
pub fn happenings_are_runs()
    ensures { HappeningsAreRuns }
{}

/// What happens to a group of 1 to 6 replicas, whatever its number, is a run of the group.
pub fn worlds_are_runs()
    ensures { WorldsAreRuns }
{}

/// Every schedule of a group of 1 to 6 replicas, of 2 at least on files of version 1, is a run of the group.
pub fn schedules_are_runs()
    ensures { SchedulesAreRuns }
{}

/// Of some schedule all holds that is asked, on files of each kind.
pub fn some_schedule_may()
    ensures { SomeScheduleMay }
{}

/// All that is asked holds of some schedule in which an entry is made: the names of the three texts that are hashed in it, the root's, the
/// entry's and its operation's, are computed, and differ.
pub fn some_entry_may()
    ensures { SomeEntryMay }
{}
