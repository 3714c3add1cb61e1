//! The choice of the log that a new view begins with, and the counting of replicas that it stands on.
#![tactic(auto)]

ghost use Rattle.std.specs.Prelude.{◌≡◌, All, IfOk, OnErr, IsTrue};
ghost use Rattle.vr_msg.specs.Choice.{choice, is_end, IsChoice};
ghost use Rattle.vr_choose.specs.Statements.{IsSomeStatement};

pub mod laws;
mod part;
mod scan;
mod walk;

pub use scan::{top_commit, top_view};
use std::alloc::{AllocError, Global};
use vr_base::Quorums;
pub use vr_msg::Choice;
use vr_msg::Statement;

/// What the statements of a group's replicas, in the order of the replicas, decide of the log that a new
/// view begins with.
#[tactic(auto, unfolding(vr_msg::specs::Choice::choice))]
pub fn choose(
    alloc: Global,
    statements: &[Statement],
    quorums: &Quorums,
) -> Result<Choice, AllocError>
    requires { All IsSomeStatement statements.now }
    ensures value { IfOk result (λ c. c ≡ choice quorums.now statements.now) }
    ensures meaning { IfOk result (IsChoice quorums.now statements.now) }
    // memory is taken for an end alone
    ensures memory { OnErr result (IsTrue (is_end (choice quorums.now statements.now))) }
{
    if statements.len() < quorums.view_change as usize {
        return Ok(Choice::TooFew);
    }
    let view = scan::top_view(statements);
    let commit = scan::top_commit(statements);
    let gap = walk::first_gap(view, commit, statements);
    let named = scan::named_by(view, gap, statements);
    if scan::denials(view, &named, gap, statements) < quorums.nack as usize {
        return Ok(Choice::WaitsAt(gap));
    }
    let headers = walk::log_headers(alloc, view, commit, gap - 1, statements)?;
    Ok(Choice::Ends(headers))
}
