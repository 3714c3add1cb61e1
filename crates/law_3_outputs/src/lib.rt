//! What every run of a group keeps, from what the protocol's machine gives of it. Each function is a law: its contract is the statement, and it does nothing.
#![tactic(auto)]

ghost use Rattle.law_3_outputs.specs.OutputLaws.{FollowedRunsAreSafe, OpeningsReplyNothing, StepsAnswer, StepsChoose};
ghost use Rattle.law_3_outputs.specs.Ordered.{StepsComeInOrder};
ghost use Rattle.law_3_outputs.specs.Written.{RunsReadGood, RunsWriteGood, StepsReadGood};

/// A run that the machine follows is safe.
pub fn followed_runs_are_safe()
    ensures { FollowedRunsAreSafe }
{}

/// The replies of each step are true of the log that its replica applies; a step that takes over a checkpoint has none.
pub fn steps_answer<F>()
    ensures { StepsAnswer F }
{}

/// A choose line of a step is of the rules' choice from what its replica has heard.
pub fn steps_choose<F>()
    ensures { StepsChoose F }
{}

/// An opening replies nothing.
pub fn openings_reply_nothing<F>()
    ensures { OpeningsReplyNothing F }
{}

/// Each entry that is written in a run has the values of the program, also in a move that is cut.
pub fn runs_write_good()
    ensures { RunsWriteGood }
{}

/// The commit lines of a step are of the ops after those that its replica had applied, in order, and each is of an entry that reads at
/// a slot.
pub fn steps_come_in_order<F>()
    ensures { StepsComeInOrder F }
{}

/// On a disk that reads well each commit line of a step is of an entry with the values of the program.
pub fn steps_read_good<F>()
    ensures { StepsReadGood F }
{}

/// So has each one that is committed in a run, in steps and in openings.
pub fn runs_read_good()
    ensures { RunsReadGood }
{}
