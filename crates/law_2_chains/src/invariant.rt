//! Seven facts about every run, of which safety follows. Each function is a law: its contract is the statement, and it does nothing.
ghost use Rattle.law_2_chains.specs.FactLaws.{DisksAlwaysMoveOn, EachCommitNumberIsBacked, EachViewHasOneLog, QuorumsMeet, StatementsStayTrue, VouchedIsKept};
ghost use Rattle.law_2_chains.specs.Counted.{PrimariesCountTruly};

/// What a disk has saved never goes back, and a member vouches only in the view in which it is, with that view's log.
pub fn disks_always_move_on<H>()
    ensures { DisksAlwaysMoveOn H }
{}

/// Each view has one log, and all that is known, saved or sent in it is of that log.
pub fn each_view_has_one_log<H>()
    ensures { EachViewHasOneLog H }
{}

/// What a member has vouched for it keeps, and doesn't deny, until a later log has dropped it.
pub fn vouched_is_kept<H>()
    ensures { VouchedIsKept H }
{}

/// A statement doesn't deny what its sender had vouched for, and the sender vouches for nothing more below the view it was sent for.
pub fn statements_stay_true<H>()
    ensures { StatementsStayTrue H }
{}

/// As many as commit an entry meet as many as cut a log, and as many as end a view.
pub fn quorums_meet<H>()
    ensures { QuorumsMeet H }
{}

/// All up to each commit number is committed, in a view at most its own.
pub fn each_commit_number_is_backed<H>()
    ensures { EachCommitNumberIsBacked H }
{}

/// Whoever a primary counts has vouched for the entry that its view's log has there.
pub fn primaries_count_truly()
    ensures { PrimariesCountTruly }
{}
