//! How far the intact ops reach, and the headers up to there.
ghost use Rattle.std.specs.Prelude.{◌≡◌, ◌≤◌, ◌<◌, ◌+◌, ◌^◌, ◌++◌, All, IfOk, OnOk, nat_le, if◌then◌else◌};
ghost use Rattle.std.specs.Option.{option_and_then, option_map_or, option_copied, option_to_list};
ghost use Rattle.vr_msg.specs.Choice.{stated_header, top_view, top_commit, named_by, row_end, start_of, log_headers};
ghost use Rattle.vr_choose.specs.Statements.{IsSomeStatement};

use crate::part::stated_header;
use crate::scan::{is_intact, named_by, with_commit};
use std::alloc::{AllocError, Global};
use vr_header::{Header, HeaderList};
use vr_msg::Statement;

/// The first op above `commit`, the greatest commit number, that isn't intact; `view` is the greatest
/// log view.
pub fn first_gap(view: u32, commit: u64, statements: &[Statement]) -> u64
    requires view { view ≡ top_view statements.now }
    requires commit { commit ≡ top_commit statements.now }
    requires statements { All IsSomeStatement statements.now }
    ensures { result ≡ row_end statements.now + 1 }
{
    let mut k = commit + 1;
    while is_intact(&named_by(view, k, statements), k, statements) {
        k += 1;
    }
    k
}

/// The op below the first header of a log that ends at `head`: `far` is the first statement with the
/// greatest commit number, `commit`.
fn log_start(commit: u64, head: u64, far: Option<&Statement>) -> u64
    ensures { result ≡ option_map_or (start_of commit head) (option_copied far.entry) commit }
{
    match far {
        None => commit,
        Some(s) => {
            let below_list = s.body.first.saturating_sub(1);
            commit.min(below_list.max(head.saturating_sub(64)))
        }
    }
}

/// The header of op `k` in the new log.
fn chosen_header(
    view: u32,
    commit: u64,
    far: Option<&Statement>,
    k: u64,
    statements: &[Statement],
) -> Option<Header>
    ensures { result ≡ (if nat_le k commit then option_and_then (stated_header k) (option_copied far.entry) else named_by view k statements.now) }
{
    if k <= commit {
        match far {
            None => None,
            Some(s) => stated_header(k, s),
        }
    } else {
        named_by(view, k, statements)
    }
}

fn push_some(headers: &mut HeaderList, header: Option<Header>) -> Result<(), AllocError>
    ensures { OnOk result (headers.new ≡ headers.old ++ option_to_list header) }
{
    match header {
        None => Ok(()),
        Some(header) => headers.push(header),
    }
}

/// The headers of the log that ends at `head`; `commit` is the greatest commit number, and `view` the
/// greatest log view.
pub fn log_headers(
    alloc: Global,
    view: u32,
    commit: u64,
    head: u64,
    statements: &[Statement],
) -> Result<HeaderList, AllocError>
    requires view { view ≡ top_view statements.now }
    requires commit { commit ≡ top_commit statements.now }
    requires reaches { commit ≤ head }
    requires small { head < 2 ^ 63 }
    ensures { IfOk result (λ headers. headers ≡ log_headers statements.now head) }
{
    let far = with_commit(commit, statements);
    let start = log_start(commit, head, far);
    let mut headers = HeaderList::from_vec(Vec::with_capacity(alloc, (head - start) as usize)?);
    for k in start + 1..head + 1 {
        push_some(
            &mut headers,
            chosen_header(view, commit, far, k, statements),
        )?;
    }
    Ok(headers)
}
