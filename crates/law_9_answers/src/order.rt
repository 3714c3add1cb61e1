//! The order of the log is the order of time: what clients of a running group hear is linearizable. Each function is a law: its contract is the
//! statement, and it does nothing.

ghost use Rattle.law_9_answers.specs.OrderLaws.{FewClientsAreLinearizable, FewProgramsAreLinearizable, HeardOutcomesLast, HistoriesAreLinearizable, ProgramsAreLinearizable, RunsKeepOrder, SomeHistoryMay};
ghost use Rattle.law_9_answers.specs.Started.{TrialsStartMembers};

/// Whole runs of the programs of a group's members, interleaved anyhow, keep one log; what clients hear is of it; and what each reply rests on of it
/// was asked of a member before that reply was put out.
pub fn runs_keep_order()
    ensures { RunsKeepOrder }
{}

/// What clients ask and hear over a network that forges neither requests nor outcomes has the order of the log: each outcome is the plain
/// machine's at its place there, all up to that place was asked by then, and what was heard before another request was asked stands before it.
/// Where each client has a number of its own, and none begins a second session in the log, each outcome is of the operation that was asked, each
/// request is executed at most once, and the history is linearizable. Else one client may hear the outcome of another one's operation, or a late
/// copy of a request may be executed again, in a later session of its client's number.
pub fn histories_are_linearizable()
    ensures { HistoriesAreLinearizable }
{}

/// Runs of `client` and of `trial`, to their end or cut, among those of the members, have the order of the log too: over a network that brings no
/// request that nobody asked and no reply that no member put out. Where a program's client number is its own, each outcome that it hears is of the operation that it asked; where each one's
/// is, and none begins a second session, it is linearizable.
pub fn programs_are_linearizable()
    ensures { ProgramsAreLinearizable }
{}

/// What a client heard as executed lasts: in every later view than that of the reply its entry keeps its number, and each outcome that is heard of
/// what was first asked later is what the machine makes after entries of the log that have it.
pub fn heard_outcomes_last()
    ensures { HeardOutcomesLast }
{}

/// Where no more client numbers ever ask than there are sessions (32, or 64 if all ask in version 2), no session is given up in the log up to the last
/// outcome that is heard, and no number begins a second one, whatever registers come again. So where each client has a number of its own, what they
/// ask and hear is linearizable.
pub fn few_clients_are_linearizable()
    ensures { FewClientsAreLinearizable }
{}

/// So it is with runs of `client` and of `trial`, to their end or cut, each under a number of its own: while there are no more of them than there are
/// sessions, what they ask and hear is linearizable.
pub fn few_programs_are_linearizable()
    ensures { FewProgramsAreLinearizable }
{}

/// What is asked of the network is so where two clients ask, the one of a member that is ended in the midst of it, the other of one that replies after
/// whatever befalls the group meanwhile, also a change of view.
pub fn some_history_may()
    ensures { SomeHistoryMay }
{}

/// The words by which a trial starts its members ask for the members of `runs_keep_one_log`, each with its group, its number and its size, made anew
/// or found again: computed, of groups of two, three and six.
pub fn trials_start_members()
    ensures { TrialsStartMembers }
{}
