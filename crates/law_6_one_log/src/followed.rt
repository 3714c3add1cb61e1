//! Every run of a group that was just made is one that the protocol's machine follows. Each function is a law: its contract is the
//! statement, and it does nothing.
ghost use Rattle.law_6_one_log.specs.FollowLaws.{FreshRunsAreFollowed};

/// Each run of a group that was just made is followed: move by move, what is put out is so in the machine.
pub fn fresh_runs_are_followed()
    ensures { FreshRunsAreFollowed }
{}
