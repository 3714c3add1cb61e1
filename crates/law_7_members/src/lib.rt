//! Members of a group that run at the same time, each by its program on a disk of its own, are one group of the rules. Each function is a
//! law: its contract is the statement, and it does nothing.
#![tactic(auto)]

ghost use Rattle.law_7_members.specs.Ends.{FoundRunsEnd, MadeRunsEnd, MakingRunsAreActs, MigrationsAreActs, NodeRunsAreActs, OpeningsHalt};
ghost use Rattle.law_7_members.specs.Laws.{MembersAreFound, NodesAreFound, NodesAreOneRun, NodesKeepOneLog};
ghost use Rattle.law_7_members.specs.Left.{FilesOpenAsOwn, NextMigrationsAreActs, NextRunsAreActs};
ghost use Rattle.law_7_members.specs.Migrations.{MigrationsAreCounted, MigrationsKeepSlots};
ghost use Rattle.law_7_members.specs.Runs.{RunsAreDeeds};
ghost use Rattle.law_7_members.specs.Whole.{MakingsLeaveUnfinished, RunsAreAtWork, RunsKeepOneLog, ZerosBeginTheFirst};

/// What a run of a member's program comes to, however it ends: whole steps, each on the disk that the one before left, at most one that
/// stopped after them, and a front of their text.
pub fn runs_are_deeds()
    ensures { RunsAreDeeds }
{}

/// Whatever members of a group do, in whatever order, is a run of the group; so it is safe.
pub fn nodes_are_one_run()
    ensures { NodesAreOneRun }
{}

/// Where nothing on the files of a group is forged, a stopped member is found as it may be, on whatever tells its file: as a value that was
/// written last or under way, with nothing denied that it kept, and nothing forged.
pub fn members_are_found()
    ensures { MembersAreFound }
{}

/// What befalls members of a group, each on its file, over a network that loses, repeats and reorders, keeps one log.
pub fn nodes_keep_one_log()
    ensures { NodesKeepOneLog }
{}

/// So each stopped member is found as it may be, on its file as its last step, cut or run left it, and faults within the premise.
pub fn nodes_are_found()
    ensures { NodesAreFound }
{}

/// A run that was to make a member and made none leaves a file on which no making came to its end: of zeros, or as makings left it that
/// stopped.
pub fn makings_leave_unfinished()
    ensures { MakingsLeaveUnfinished }
{}

/// Members that were all made on files of zeros begin the first world.
pub fn zeros_begin_the_first()
    ensures { ZerosBeginTheFirst }
{}

/// Whole runs of the programs of a group's members, interleaved anyhow, are such members at work, and put out just what the runs do.
pub fn runs_are_at_work()
    ensures { RunsAreAtWork }
{}

/// Whole runs of the programs of a group's members are one run of the group, and keep one log.
pub fn runs_keep_one_log()
    ensures { RunsKeepOneLog }
{}

/// A run of a member that was found on its file ends, however it does, by an act: between two events, or in a step that is cut at one of its
/// calls. What it leaves is what the next attach of the file tells.
pub fn found_runs_end()
    ensures { FoundRunsEnd }
{}

/// A run that made its member ends, however it does, by an act, and what it leaves is what the next attach of the file tells.
pub fn made_runs_end()
    ensures { MadeRunsEnd }
{}

/// A run that found no member left its file alone, or as an opening that is cut at one of its calls.
pub fn openings_halt()
    ensures { OpeningsHalt }
{}

/// Any run that makes nothing anew, however it ends, left its file alone, or as an opening that is cut, or is one of those that a member's acts
/// tell of, and an act that ends it.
pub fn node_runs_are_acts()
    ensures { NodeRunsAreActs }
{}

/// A run that was to make its member left a file on which the next one may make it, or made it and ended by an act.
pub fn making_runs_are_acts()
    ensures { MakingRunsAreActs }
{}

/// A run of the migration left the file alone, moved, as a migration that is cut at one of its calls, or mended alone.
pub fn migrations_are_acts()
    ensures { MigrationsAreActs }
{}

/// Each file that members leave, whatever befell them, opens as a value of its version alone.
pub fn files_open_as_own()
    ensures { FilesOpenAsOwn }
{}

/// Any next run of a member's program on its file is acts that go on from what was left.
pub fn next_runs_are_acts()
    ensures { NextRunsAreActs }
{}

/// Any next run of the migration on a member's file is acts that go on from what was left.
pub fn next_migrations_are_acts()
    ensures { NextMigrationsAreActs }
{}

/// A migration keeps what each slot holds, at its old place and at its new one, whole and cut at any of its calls by any code.
pub fn migrations_keep_slots()
    ensures { MigrationsKeepSlots }
{}

/// It makes 597 calls, and before them those that mend the old value.
pub fn migrations_are_counted()
    ensures { MigrationsAreCounted }
{}
