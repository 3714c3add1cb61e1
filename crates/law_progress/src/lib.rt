//! How far a group goes on: what a view change makes of a quorum that is whole, and the normal case. Each function is a law: its contract is
//! the statement, and it does nothing.
#![tactic(auto)]

ghost use Rattle.law_progress.specs.Agreeing.{BeginsByWhole, HearsOneLog, InEachRun};
ghost use Rattle.law_progress.specs.Answering.{NewGroupsAnswer, RequestsAreAnswered};
ghost use Rattle.law_progress.specs.Deciding.{ANewQuorumBegins, FurthestMembersTake, SureQuorumsDecide, WholeQuorumsBegin, WholeQuorumsDecide};

/// A choice of a log from a view-change quorum of whose members none is in doubt of an op above their greatest checkpoint doesn't wait.
pub fn sure_quorums_decide()
    ensures { SureQuorumsDecide }
{}

/// A member with the greatest checkpoint of those heard may take the log that is chosen, where it knows the header of its checkpoint's op.
pub fn furthest_members_take()
    ensures { FurthestMembersTake }
{}

/// From a quorum that is whole a log is chosen, and its furthest member may take it.
pub fn whole_quorums_decide<F>()
    ensures { WholeQuorumsDecide F }
{}

/// The furthest member of a quorum that is whole begins its view, once it is the primary of one and has heard enough of them.
pub fn whole_quorums_begin<F>()
    ensures { WholeQuorumsBegin F }
{}

/// In every run of a group that was just made, what a running replica has heard of logs is of one log a view, and the headers of a log that it
/// chooses are a chain.
pub fn heard_is_one_log()
    ensures { InEachRun HearsOneLog }
{}

/// In every run a primary that has heard enough of a quorum that is whole, itself the furthest of them, begins its view when it tries.
pub fn runs_begin()
    ensures { InEachRun BeginsByWhole }
{}

/// There is such a quorum: two members of a new group of three that have entered view 1, whose primary has the statement of the other.
pub fn a_new_quorum_begins<F>()
    ensures { ANewQuorumBegins F }
{}

/// A request is answered after 2 deliveries for each of replication - 1 backups, and no tick, where the primary of a view and these lag in
/// nothing: it puts out the outcome of the request's operation. So it is in groups of every size, on files of either version, whatever else is
/// under way, and whatever the other members do.
pub fn requests_are_answered()
    ensures { RequestsAreAnswered }
{}

/// So it is in a new group of every size: the request by which a client begins its first session is answered by the primary of view 0.
pub fn new_groups_answer()
    ensures { NewGroupsAnswer }
{}
