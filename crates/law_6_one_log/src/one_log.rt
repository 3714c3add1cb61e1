//! Every run of a group, and every schedule of a group on disks that lie, keeps one log. Each function is a law: its contract is the
//! statement, and it does nothing.
ghost use Rattle.law_6_one_log.specs.Laws.{ReplicasHaveOneLog, RunsAreSafe, SchedulesKeepOneLog, WorldsKeepOneLog};

/// Each run of a group that was just made is safe.
pub fn runs_are_safe()
    ensures { RunsAreSafe }
{}

/// In it each running replica has the one log: the header that it knows of an op up to its commit number is the log's.
pub fn replicas_have_one_log()
    ensures { ReplicasHaveOneLog }
{}

/// Whatever happens to a group that was just made, of any number, on disks that lie within their premise, keeps one log.
pub fn worlds_keep_one_log()
    ensures { WorldsKeepOneLog }
{}

/// What happens on a schedule keeps one log: its commit lines are of it, and so is what its messages commit.
pub fn schedules_keep_one_log()
    ensures { SchedulesKeepOneLog }
{}
