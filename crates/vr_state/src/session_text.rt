//! The bytes of a client's session.
ghost use Rattle.std.specs.Prelude.{◌≡◌, ◌≤◌, ℕ, ◌+◌, ◌++◌, length, IfOk, OnOk};
ghost use Rattle.std.specs.Option.{option_map};
ghost use Rattle.vr_base.specs.Versions.{value_limit};
ghost use Rattle.vr_header.specs.Bodies.{outcome_bytes};
ghost use Rattle.vr_state.specs.SessionTexts.{session_text, value_from, outcome_of, outcome_from, numbers_from, session_from};

use crate::{Session, split_byte, split_piece, split_u16, split_u32, split_u64};
use std::alloc::Global;
use vr_base::{ByteList, NoMemory};
use vr_header::{LAST_OP, Outcome, Value};

/// How many bytes the text of a session has, whoever its client is: client, request, op, and the outcome after its kind.
#[tactic(auto, using(std::proofs::lemmas::Grind::common_steps, crate::proofs::Values::length_of_session))]
pub fn session_length(session: &Session) -> usize
    ensures { (client : ℕ) → result ≡ length (session_text (client, session.now)) }
{
    8 + 4 + 8 + 1 + value_length(&session.outcome)
}

/// How many bytes a value takes after the kind of an outcome, with its length of two bytes; 0 where there is no value.
#[tactic(auto, using(std::proofs::lemmas::Grind::common_steps, crate::proofs::Values::length_of_value), unfolding(vr_header::specs::Bodies::outcome_bytes))]
fn value_length(outcome: &Outcome) -> usize
    ensures value { 1 + result ≡ length (outcome_bytes outcome.now) }
    ensures most { result ≤ 2 + value_limit 2 }
{
    match outcome {
        Outcome::Value(value) => 2 + value.as_slice().len(),
        Outcome::Session | Outcome::Ok | Outcome::Full | Outcome::Absent => 0,
    }
}

/// Adds the bytes of a client's session at the end.
pub fn write_session(text: &mut ByteList, client: u64, session: &Session) -> Result<(), NoMemory>
    ensures { OnOk result (text.new ≡ text.old ++ session_text (client, session.now)) }
{
    text.extend(&client.to_be_bytes())?;
    text.extend(&session.number.to_be_bytes())?;
    text.extend(&session.op.to_be_bytes())?;
    write_outcome(text, &session.outcome)?;
    Ok(())
}

#[tactic(auto, using(std::proofs::lemmas::Grind::common_steps), unfolding(vr_header::specs::Bodies::outcome_bytes))]
fn write_outcome(text: &mut ByteList, outcome: &Outcome) -> Result<(), NoMemory>
    ensures { OnOk result (text.new ≡ text.old ++ outcome_bytes outcome.now) }
{
    match outcome {
        Outcome::Session => text.push(1)?,
        Outcome::Ok => text.push(2)?,
        Outcome::Full => text.push(3)?,
        Outcome::Absent => text.push(4)?,
        Outcome::Value(value) => write_value(text, value)?,
    }
    Ok(())
}

#[tactic(auto, using(std::proofs::lemmas::Grind::common_steps, crate::proofs::Values::value_length), unfolding(vr_header::specs::Bodies::outcome_bytes, vr_base::specs::Bytes::bytes16))]
fn write_value(text: &mut ByteList, value: &Value) -> Result<(), NoMemory>
    ensures { OnOk result (text.new ≡ text.old ++ outcome_bytes (Outcome.Value value.now)) }
{
    let bytes = value.as_slice();
    text.push(5)?;
    text.extend(&(bytes.len() as u16).to_be_bytes())?;
    text.extend(bytes)?;
    Ok(())
}

/// A client, a request and an op, and the bytes after them.
#[derive(Clone, Copy)]
struct Numbers<'a> {
    client: u64,
    number: u32,
    op: u64,
    rest: &'a [u8],
}

#[tactic(auto, unfolding(crate::specs::SessionTexts::numbers_from))]
fn split_numbers(bytes: &[u8]) -> Option<Numbers<'_>>
    ensures { option_map (λ n. ((n.client, (n.number, n.op)), n.rest.now)) result ≡ numbers_from bytes.now }
{
    let (client, rest) = split_u64(bytes)?;
    let (number, rest) = split_u32(rest)?;
    let (op, rest) = split_u64(rest)?;
    if op > LAST_OP {
        return None;
    }
    Some(Numbers {
        client,
        number,
        op,
        rest,
    })
}

/// The session at the front with its client, and the bytes after it; `None` exactly where the bytes don't begin with
/// one.
#[tactic(auto, unfolding(crate::specs::SessionTexts::session_from))]
pub fn read_session(
    alloc: Global,
    bytes: &[u8],
) -> Result<Option<((u64, Session), &[u8])>, NoMemory>
    ensures { IfOk result (λ r. option_map (λ p. (p.0, p.1.now)) r ≡ session_from bytes.now) }
{
    let Some(numbers) = split_numbers(bytes) else {
        return Ok(None);
    };
    let Some((outcome, rest)) = read_outcome(alloc, numbers.rest)? else {
        return Ok(None);
    };
    let session = Session {
        number: numbers.number,
        op: numbers.op,
        outcome,
    };
    Ok(Some(((numbers.client, session), rest)))
}

#[tactic(auto, unfolding(crate::specs::SessionTexts::outcome_from))]
fn read_outcome(alloc: Global, bytes: &[u8]) -> Result<Option<(Outcome, &[u8])>, NoMemory>
    ensures { IfOk result (λ r. option_map (λ p. (p.0, p.1.now)) r ≡ outcome_from bytes.now) }
{
    let Some((kind, rest)) = split_byte(bytes) else {
        return Ok(None);
    };
    read_kind(alloc, kind, rest)
}

/// The outcome of this kind whose value, if it has one, is at the front.
#[tactic(auto, unfolding(crate::specs::SessionTexts::outcome_of))]
fn read_kind(alloc: Global, kind: u8, rest: &[u8]) -> Result<Option<(Outcome, &[u8])>, NoMemory>
    ensures { IfOk result (λ r. option_map (λ p. (p.0, p.1.now)) r ≡ outcome_of kind rest.now) }
{
    match kind {
        1 => Ok(Some((Outcome::Session, rest))),
        2 => Ok(Some((Outcome::Ok, rest))),
        3 => Ok(Some((Outcome::Full, rest))),
        4 => Ok(Some((Outcome::Absent, rest))),
        5 => read_value(alloc, rest),
        _ => Ok(None),
    }
}

#[tactic(auto, unfolding(crate::specs::SessionTexts::value_from))]
fn read_value(alloc: Global, bytes: &[u8]) -> Result<Option<(Outcome, &[u8])>, NoMemory>
    ensures { IfOk result (λ r. option_map (λ p. (p.0, p.1.now)) r ≡ value_from bytes.now) }
{
    let Some((length, rest)) = split_u16(bytes) else {
        return Ok(None);
    };
    let Some((piece, rest)) = split_piece(rest, length as usize) else {
        return Ok(None);
    };
    let Some(value) = Value::read(alloc, piece)? else {
        return Ok(None);
    };
    Ok(Some((Outcome::Value(value), rest)))
}
