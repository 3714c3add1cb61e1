//! Whether two messages say the same: of the long ones, a statement and the log of a view.
ghost use Rattle.std.specs.Prelude.{◌≡◌, true};

use vr_header::{Header, Part};
use vr_msg::{DoViewChange, Frame, StartView};

fn is_header(a: &Header, b: &Header) -> bool
    ensures { result ≡ true → a.now ≡ b.now }
{
    *a == *b
}

fn is_part(a: &Part, b: &Part) -> bool
    ensures { result ≡ true → a.now ≡ b.now }
{
    match (a, b) {
        (Part::Here(x), Part::Here(y)) => is_header(x, y),
        (Part::Lost(x), Part::Lost(y)) => is_header(x, y),
        (Part::Wanted(x), Part::Wanted(y)) => is_header(x, y),
        (Part::Unknown, Part::Unknown) => true,
        (Part::Nothing, Part::Nothing) => true,
        _ => false,
    }
}

fn are_headers(a: &[Header], b: &[Header]) -> bool
    ensures { result ≡ true → a.now ≡ b.now }
{
    if a.len() != b.len() {
        return false;
    }
    for i in 0..a.len() {
        if !is_header(&a[i], &b[i]) {
            return false;
        }
    }
    true
}

fn are_parts(a: &[Part], b: &[Part]) -> bool
    ensures { result ≡ true → a.now ≡ b.now }
{
    if a.len() != b.len() {
        return false;
    }
    for i in 0..a.len() {
        if !is_part(&a[i], &b[i]) {
            return false;
        }
    }
    true
}

fn same_do_view_change(a: &DoViewChange, b: &DoViewChange) -> bool
    ensures { result ≡ true → a.now ≡ b.now }
{
    let (x, y) = (&a.statement, &b.statement);
    a.version == b.version
        && a.cluster == b.cluster
        && a.replica == b.replica
        && a.view == b.view
        && x.log_view == y.log_view
        && x.commit == y.commit
        && x.head == y.head
        && x.body.first == y.body.first
        && are_parts(x.body.parts.as_slice(), y.body.parts.as_slice())
}

fn same_start_view(a: &StartView, b: &StartView) -> bool
    ensures { result ≡ true → a.now ≡ b.now }
{
    a.version == b.version
        && a.cluster == b.cluster
        && a.replica == b.replica
        && a.view == b.view
        && a.head == b.head
        && a.commit == b.commit
        && a.body.lo == b.body.lo
        && are_headers(a.body.headers.as_slice(), b.body.headers.as_slice())
}

/// Whether both are the same statement, or the same log of a view. Of other messages it isn't looked at.
pub fn says_same(a: &Frame, b: &Frame) -> bool
    ensures { result ≡ true → a.now ≡ b.now }
{
    match (a, b) {
        (Frame::DoViewChange(x), Frame::DoViewChange(y)) => same_do_view_change(x, y),
        (Frame::StartView(x), Frame::StartView(y)) => same_start_view(x, y),
        _ => false,
    }
}
