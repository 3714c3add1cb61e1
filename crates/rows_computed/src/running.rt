//! Whole runs of a member's program that meet all that the laws on members ask. The prover works them on a disk that tells, with the program's names.
//! Each function is a law: its contract is the statement, and it does nothing. No program stands on them.

ghost use Rattle.rows_computed.specs.Runs.{OneAnswers, ThreeAnswer};

/// A member alone in its group is made on a file of zeros, and answers a register and a put: these are runs as `runs_keep_one_log` asks.
pub fn some_runs_answer()
    ensures { OneAnswers }
{}

/// Of a group of three two members are made on files of zeros, and the third not yet. The primary is asked for a register and a put; the backup is
/// brought its prepares and stores both entries, and the primary hears of that and answers: these are runs as `runs_keep_one_log` asks.
pub fn three_run_and_answer()
    ensures { ThreeAnswer }
{}
