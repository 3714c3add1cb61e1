//! What a client of a running group writes is what the group's one log says, and the order of that log is the order of time. Each
//! function is a law: its contract is the statement, and it does nothing.
#![tactic(auto)]

mod order;

ghost use Rattle.law_9_answers.specs.Laws.{ClientsWriteWhatTheyHear, OneLogAnswers, RunsAnswerByOneLog, SomeAnswerMay, TrialsWriteWhatTheyHear};

pub use order::{
    histories_are_linearizable, programs_are_linearizable, runs_keep_order, some_history_may,
    trials_start_members,
};

/// What a run of `client` writes is the lines of what it heard, ask by ask, but perhaps for an end of the last one.
pub fn clients_write_what_they_hear()
    ensures { ClientsWriteWhatTheyHear }
{}

/// What a trial writes is the lines of its members' starts and stops, and of what its client heard, step by step, but perhaps for an end of the last
/// one.
pub fn trials_write_what_they_hear()
    ensures { TrialsWriteWhatTheyHear }
{}

/// Of whichever log members of a group keep is each answer that a run of `client`, or of `trial`, heard over a network which forges no reply: it
/// is what the plain sessions and machine say over that log.
pub fn one_log_answers()
    ensures { OneLogAnswers }
{}

/// Whole runs of the programs of a group's members, interleaved anyhow, keep one log, and so what clients hear of them is that log's.
pub fn runs_answer_by_one_log()
    ensures { RunsAnswerByOneLog }
{}

/// What that law asks of the network and of names is so where a member handles a request, applies its entry and replies, and the client
/// receives that.
pub fn some_answer_may()
    ensures { SomeAnswerMay }
{}
