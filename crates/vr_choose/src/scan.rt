//! What statements say together.
ghost use Rattle.std.specs.Prelude.{◌≡◌, ◌==◌, count_by};
ghost use Rattle.std.specs.List.{list_any, find};
ghost use Rattle.std.specs.Option.{option_copied};
ghost use Rattle.vr_msg.specs.Choice.{stated_part, is_here, top_view, top_commit, named_by, intact_by, denies_by};

use crate::part::{denies, has_here, stated_header};
use vr_header::Header;
use vr_msg::Statement;

/// The greatest log view of these statements.
pub fn top_view(statements: &[Statement]) -> u32
    ensures { result ≡ top_view statements.now }
{
    let mut top = 0;
    for s in statements {
        if s.log_view > top {
            top = s.log_view;
        }
    }
    top
}

/// The greatest commit number of these statements.
pub fn top_commit(statements: &[Statement]) -> u64
    ensures { result ≡ top_commit statements.now }
{
    let mut top = 0;
    for s in statements {
        if s.commit > top {
            top = s.commit;
        }
    }
    top
}

/// The header of op `k` that the first statement of log view `view` with a header there gives.
#[tactic(auto, unfolding(vr_msg::specs::Choice::named_by))]
pub fn named_by(view: u32, k: u64, statements: &[Statement]) -> Option<Header>
    ensures { result ≡ named_by view k statements.now }
{
    for s in statements {
        if s.log_view == view {
            let header = stated_header(k, s);
            if header.is_some() {
                return header;
            }
        }
    }
    None
}

fn any_here(e: &Header, k: u64, statements: &[Statement]) -> bool
    ensures { result ≡ list_any (λ s. is_here e.now (stated_part k s)) statements.now }
{
    statements.iter().any(|s| has_here(e, k, s))
}

/// Whether some statement has the entry of the header `e`, which is named at op `k`.
pub fn is_intact(e: &Option<Header>, k: u64, statements: &[Statement]) -> bool
    ensures { result ≡ intact_by e.now k statements.now }
{
    match e {
        None => false,
        Some(e) => any_here(e, k, statements),
    }
}

/// How many statements deny op `k`, where `view` is the greatest log view and `e` the header that is
/// named at `k`.
pub fn denials(view: u32, e: &Option<Header>, k: u64, statements: &[Statement]) -> usize
    ensures { result ≡ count_by (denies_by view e.now k) statements.now }
{
    statements.iter().filter(|s| denies(view, e, k, s)).count()
}

/// The first statement with this commit number.
pub fn with_commit(commit: u64, statements: &[Statement]) -> Option<&Statement>
    ensures { option_copied result ≡ find (λ s. s.commit == commit) statements.now }
{
    statements.iter().find(|s| s.commit == commit)
}
