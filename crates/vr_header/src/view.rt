//! Reading of bodies in place.
ghost use Rattle.std.specs.Prelude.{◌≡◌, ◌<◌, ◌≤◌, IsTrue, Ok, Some, is_some, length, drop, nat_eq, true};
ghost use Rattle.std.specs.Cmp.Lexicographic.{pointwise};
ghost use Rattle.vr_base.specs.Bytes.{name_of};
ghost use Rattle.std.specs.Option.{option_map};
ghost use Rattle.vr_header.specs.Bodies.{key_of, operation_of, outcome_of, pair_of, value_of};
ghost use Rattle.vr_header.specs.Made.{entry_of, is_register, is_whole, with_body};
ghost use Rattle.vr_header.specs.Spelling.{decoded};
ghost use Rattle.vr_header.specs.Views.{entry_seen, operation_seen, outcome_seen};

use crate::text::is_text;
use crate::{HEADER_SIZE, Header, decode, decoded_header};
use vr_base::{Sum, Version, checksum};

/// An operation whose texts stand in the bytes that it was read from.
#[derive(Clone, Copy)]
pub enum OperationView<'a> {
    Register,
    Put(&'a [u8], &'a [u8]),
    Get(&'a [u8]),
    Delete(&'a [u8]),
}

/// An entry whose texts stand in the bytes that it was read from.
#[derive(Clone, Copy)]
pub struct EntryView<'a> {
    pub header: Header,
    pub operation: OperationView<'a>,
}

/// An outcome whose text stands in the bytes that it was read from.
#[derive(Clone, Copy)]
pub enum OutcomeView<'a> {
    Session,
    Ok,
    Full,
    Absent,
    Value(&'a [u8]),
}

#[tactic(auto, unfolding(crate::specs::Bodies::key_of))]
fn read_key(bytes: &[u8]) -> Option<&[u8]>
    ensures { option_map (λ x. x.now) result ≡ key_of bytes.now }
{
    match bytes {
        [n, key @ ..] if key.len() == *n as usize && is_text(64, key) => Some(key),
        _ => None,
    }
}

#[tactic(auto, unfolding(crate::specs::Bodies::value_of))]
fn read_value(limit: usize, bytes: &[u8]) -> Option<&[u8]>
    ensures { option_map (λ x. x.now) result ≡ value_of limit bytes.now }
{
    match bytes {
        [high, low, value @ ..] => {
            if value.len() == u16::from_be_bytes([*high, *low]) as usize && is_text(limit, value) {
                Some(value)
            } else {
                None
            }
        }
        _ => None,
    }
}

#[tactic(auto, unfolding(crate::specs::Bodies::pair_of))]
fn read_pair(limit: usize, bytes: &[u8]) -> Option<OperationView<'_>>
    ensures { option_map operation_seen result ≡ pair_of limit bytes.now }
{
    let [n, high, low, texts @ ..] = bytes else {
        return None;
    };
    if *n as usize > texts.len() {
        return None;
    }
    let (key, value) = texts.split_at(*n as usize);
    let size = u16::from_be_bytes([*high, *low]) as usize;
    if value.len() == size && is_text(64, key) && is_text(limit, value) {
        Some(OperationView::Put(key, value))
    } else {
        None
    }
}

/// The operation of this version that these bytes are, `None` exactly where they are none.
#[tactic(auto, unfolding(crate::specs::Bodies::operation_of))]
pub fn read_operation(version: Version, bytes: &[u8]) -> Option<OperationView<'_>>
    ensures { option_map operation_seen result ≡ operation_of version bytes.now }
{
    match bytes {
        [1] => Some(OperationView::Register),
        [2, rest @ ..] => read_pair(version.value_limit(), rest),
        [3, rest @ ..] => Some(OperationView::Get(read_key(rest)?)),
        [4, rest @ ..] => Some(OperationView::Delete(read_key(rest)?)),
        _ => None,
    }
}

/// The outcome of this version that these bytes are, `None` exactly where they are none.
#[tactic(auto, unfolding(crate::specs::Bodies::outcome_of))]
pub fn read_outcome(version: Version, bytes: &[u8]) -> Option<OutcomeView<'_>>
    ensures { option_map outcome_seen result ≡ outcome_of version bytes.now }
{
    match bytes {
        [1] => Some(OutcomeView::Session),
        [2] => Some(OutcomeView::Ok),
        [3] => Some(OutcomeView::Full),
        [4] => Some(OutcomeView::Absent),
        [5, rest @ ..] => Some(OutcomeView::Value(read_value(version.value_limit(), rest)?)),
        _ => None,
    }
}

/// The entry that these bytes spell, `None` exactly where they spell none.
#[tactic(auto, unfolding(crate::specs::Made::entry_of))]
pub fn read_entry(bytes: &[u8]) -> Option<EntryView<'_>>
    ensures { option_map entry_seen result ≡ entry_of bytes.now }
{
    let header = decode(bytes).ok()?;
    if is_whole(&header, bytes) {
        with_body(header, bytes)
    } else {
        None
    }
}

/// The entry that these bytes spell, as `read_entry` gives it, where they begin with this header, and this is the name of those after it.
#[tactic(auto, unfolding(crate::specs::Made::entry_of))]
pub fn entry_by(bytes: &[u8], header: Header, body: Sum) -> Option<EntryView<'_>>
    requires long { 128 ≤ length bytes.now }
    requires header { decoded bytes.now ≡ Ok header }
    requires body { body.0 ≡ name_of (drop 128 bytes.now) }
    ensures { option_map entry_seen result ≡ entry_of bytes.now }
{
    if is_whole_by(&header, bytes, body) {
        with_body(header, bytes)
    } else {
        None
    }
}

// This header with the operation after it.
fn with_body(header: Header, bytes: &[u8]) -> Option<EntryView<'_>>
    requires { 128 ≤ length bytes.now }
    ensures { option_map entry_seen result ≡ with_body header (operation_of header.version (drop 128 bytes.now)) }
{
    let (_, body) = bytes.split_at(HEADER_SIZE);
    let operation = read_operation(header.version, body)?;
    if is_register(operation) == (header.request == 0) {
        Some(EntryView { header, operation })
    } else {
        None
    }
}

/// The entry that these bytes spell, where they are known to spell one; nothing is hashed.
#[tactic(auto, using(crate::proofs::EntryLaws::entry_long, crate::proofs::EntryLaws::entry_ok))]
pub fn entry_at(bytes: &[u8]) -> EntryView<'_>
    requires { is_some (entry_of bytes.now) ≡ true }
    ensures { entry_of bytes.now ≡ Some (entry_seen result) }
{
    let header = decoded_header(bytes);
    let (_, body) = bytes.split_at(HEADER_SIZE);
    let operation = read_operation(header.version, body).unwrap();
    EntryView { header, operation }
}

// Whether the header is an entry's, of so many bytes, with the name of those after it.
fn is_whole(header: &Header, bytes: &[u8]) -> bool
    ensures value { result ≡ is_whole header.now bytes.now }
    ensures long { IsTrue result → 128 < length bytes.now }
{
    header.is_entry() && header.size.get() as usize == bytes.len() && has_name(bytes, header.body)
}

// Whether the header is an entry's, of so many bytes, where the name of those after it is known: it has that name.
fn is_whole_by(header: &Header, bytes: &[u8], body: Sum) -> bool
    requires { body.0 ≡ name_of (drop 128 bytes.now) }
    ensures { result ≡ is_whole header.now bytes.now }
{
    header.is_entry() && header.size.get() as usize == bytes.len() && header.body == body
}

fn has_name(bytes: &[u8], name: Sum) -> bool
    requires { 128 ≤ length bytes.now }
    ensures { result ≡ pointwise nat_eq name.0 (name_of (drop 128 bytes.now)) }
{
    let (_, body) = bytes.split_at(HEADER_SIZE);
    name == checksum(body)
}

fn is_register(view: OperationView<'_>) -> bool
    ensures { result ≡ is_register (operation_seen view.entry) }
{
    matches!(view, OperationView::Register)
}
