//! What one statement says of one op.
ghost use Rattle.std.specs.Prelude.{◌≡◌};
ghost use Rattle.vr_msg.specs.Choice.{stated_part, stated_header, is_here, denies_as_newest, denies_named, denies_by};

use vr_header::{Header, Part};
use vr_msg::Statement;

/// What the statement says of op `k`.
fn stated_part(k: u64, s: &Statement) -> Part
    ensures { result ≡ stated_part k s.now }
{
    if k < s.body.first {
        return Part::Nothing;
    }
    let parts = s.body.parts.as_slice();
    let at = k - s.body.first;
    if at < parts.len() as u64 {
        parts[at as usize]
    } else {
        Part::Nothing
    }
}

/// The header that the statement knows of op `k`.
pub fn stated_header(k: u64, s: &Statement) -> Option<Header>
    ensures { result ≡ stated_header k s.now }
{
    stated_part(k, s).header()
}

fn is_here(e: &Header, part: &Part) -> bool
    ensures { result ≡ is_here e.now part.now }
{
    match part {
        Part::Here(h) => h.is(e),
        _ => false,
    }
}

/// Whether the statement has the entry of this header at op `k`.
pub fn has_here(e: &Header, k: u64, s: &Statement) -> bool
    ensures { result ≡ is_here e.now (stated_part k s.now) }
{
    is_here(e, &stated_part(k, s))
}

fn denies_as_newest(part: &Part) -> bool
    ensures { result ≡ denies_as_newest part.now }
{
    matches!(part, Part::Wanted(_) | Part::Nothing)
}

fn denies_named(e: &Header, part: &Part) -> bool
    ensures { result ≡ denies_named e.now part.now }
{
    match part {
        Part::Here(h) => !h.is(e),
        Part::Lost(h) => !h.is(e),
        Part::Wanted(_) => true,
        Part::Unknown => false,
        Part::Nothing => true,
    }
}

/// Whether the statement denies op `k`, where `view` is the greatest log view and `e` the header that
/// is named at `k`.
pub fn denies(view: u32, e: &Option<Header>, k: u64, s: &Statement) -> bool
    ensures { result ≡ denies_by view e.now k s.now }
{
    let part = stated_part(k, s);
    if s.log_view == view {
        denies_as_newest(&part)
    } else {
        match e {
            None => true,
            Some(e) => denies_named(e, &part),
        }
    }
}
