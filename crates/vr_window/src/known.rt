//! What is known of ops: their headers, and how far they are known without a hole.
ghost use Rattle.std.specs.Prelude.{◌≡◌, ◌≤◌, ◌-◌, drop, length, slice_index_or, IfOk};
ghost use Rattle.std.specs.List.{prefix_len};
ghost use Rattle.vr_header.specs.Parts.{has_header, header_of};
ghost use Rattle.vr_header.specs.Spelling.{IsHeader};
ghost use Rattle.vr_header.specs.declared.part.Part.TheVariants.{Nothing};
ghost use Rattle.vr_window.specs.Runs.{run_of};

use crate::Window;
use std::alloc::{AllocError, Global};
use vr_base::Seq;
use vr_header::{Header, HeaderList, Part};

/// The header as it is, which has the values of the program.
pub fn valued(header: Header) -> Header
    ensures same { result ≡ header }
    ensures values { IsHeader result }
{
    header
}

/// Whether the header of the op is known.
pub fn has_header(part: &Part) -> bool
    ensures { result ≡ has_header part.now }
{
    match part {
        Part::Here(_) | Part::Lost(_) | Part::Wanted(_) => true,
        Part::Unknown | Part::Nothing => false,
    }
}

// Whether the header of the op at a place is known.
#[tactic(auto, using(crate::proofs::Lists::past_is, crate::proofs::Lists::found_is))]
fn knows(parts: &Window<Part>, at: usize) -> bool
    ensures { result ≡ has_header (slice_index_or parts.now at Nothing) }
{
    match parts.item(at) {
        Some(part) => has_header(part),
        None => false,
    }
}

/// How many headers are known from a place on without a hole.
#[tactic(auto, using(crate::proofs::Lists::known_more, crate::proofs::Lists::known_stops, crate::proofs::Lists::known_past))]
pub fn known_from(parts: &Window<Part>, from: usize) -> usize
    ensures value { result ≡ prefix_len has_header (drop from parts.now) }
    ensures within { result ≤ length parts.now - from }
{
    let mut count = 0;
    for i in from..parts.len() {
        if !knows(parts, i) {
            return count;
        }
        count += 1;
    }
    count
}

/// How many known headers reach the end of the first items without a hole.
#[tactic(auto, using(crate::proofs::Lists::runs))]
pub fn run_length(parts: &Window<Part>, count: usize) -> usize
    requires { count ≤ length parts.now }
    ensures value { result ≡ length (run_of count parts.now) }
    ensures within { result ≤ count }
{
    let mut known = 0;
    for i in 0..count {
        match known_at(parts, i) {
            Some(_) => known += 1,
            None => known = 0,
        }
    }
    known
}

/// The known headers of the first items that reach the last of them without a hole.
#[tactic(auto, using(crate::proofs::Lists::rows))]
pub fn run_of(alloc: Global, parts: &Window<Part>, count: usize) -> Result<HeaderList, AllocError>
    requires { count ≤ length parts.now }
    ensures { IfOk result (λ hs. hs ≡ run_of count parts.now) }
{
    let known = run_length(parts, count);
    let mut headers = Seq::from_vec(Vec::with_capacity(alloc, known)?);
    for i in count - known..count {
        match known_at(parts, i) {
            Some(header) => headers.push(header)?,
            None => {}
        }
    }
    Ok(headers)
}

/// The known header of the op at a place.
#[tactic(auto, using(crate::proofs::Lists::past_is, crate::proofs::Lists::found_is))]
pub fn known_at(parts: &Window<Part>, at: usize) -> Option<Header>
    ensures { result ≡ header_of (slice_index_or parts.now at Nothing) }
{
    match parts.item(at) {
        Some(part) => part.header(),
        None => None,
    }
}
