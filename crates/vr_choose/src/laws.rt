//! Laws of counting replicas and of the choice: functions that do nothing, and whose contracts are the
//! laws.
ghost use Rattle.vr_choose.specs.Laws.{EachColumn, LargeSetsMeet, QuorumsMeet, KeepsUndenied, DecidesOne, KeepsOrder, KeepsNames, HeadersStand, HeadersFew};

/// Each column of the table of quorums: replication and view change together are more than the group, and
/// a nack quorum leaves too few for replication.
pub fn columns()
    ensures { EachColumn }
{}

/// Two sets of replicas of more than `n` members together have one in common.
pub fn large_sets_meet()
    ensures { LargeSetsMeet }
{}

/// A replication quorum and a view-change quorum have a replica in common.
pub fn quorums_meet()
    ensures { QuorumsMeet }
{}

/// Where no member of a replication quorum denies the op after the head, the log doesn't end at the head.
pub fn undenied_kept()
    ensures { KeepsUndenied }
{}

/// Statements decide one thing at most.
pub fn decides_one()
    ensures { DecidesOne }
{}

/// Statements in another order decide the same, as long as the same headers are named and the first
/// statement with the greatest commit number is the same.
#[tactic(auto, using(crate::proofs::Order::keeps_order))]
pub fn keeps_order()
    ensures { KeepsOrder }
{}

/// Where those of the greatest log view agree on their headers, another order names the same ones.
#[tactic(auto, using(crate::proofs::Named::keeps_names))]
pub fn keeps_names()
    ensures { KeepsNames }
{}

/// The headers of a chosen log are those of entries of the group, made in views up to the greatest log
/// view, one for each op in order.
#[tactic(auto, using(crate::proofs::Standing::headers_stand))]
pub fn headers_stand()
    ensures { HeadersStand }
{}

/// There are at most 64 where the log reaches at most 64 above the greatest commit number.
#[tactic(auto, using(crate::proofs::Standing::headers_few))]
pub fn headers_few()
    ensures { HeadersFew }
{}
