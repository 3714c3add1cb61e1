//! The bytes of a key with its value.
ghost use Rattle.std.specs.Prelude.{◌≡◌, ◌++◌, length, IfOk, OnOk, IsTrue};
ghost use Rattle.std.specs.Option.{option_map};
ghost use Rattle.vr_base.specs.Versions.{value_limit};
ghost use Rattle.vr_header.specs.Text.{is_text};
ghost use Rattle.vr_state.specs.Pairs.{pair_text, pieces_from, pair_from};

use crate::{split_byte, split_piece, split_u16};
use std::alloc::Global;
use vr_base::{ByteList, NoMemory, Version};
use vr_header::{Key, Value};

/// A key with its value.
pub type Pair = (Key, Value);

/// The pieces of a pair, as bytes begin with them.
#[derive(Clone, Copy)]
pub struct RawPair<'a> {
    pub key: &'a [u8],
    pub value: &'a [u8],
    /// The bytes after them.
    pub rest: &'a [u8],
}

/// The pieces at the front: the key's length in one byte, the value's in two, the key, the value. `None` exactly
/// where the bytes end before.
#[tactic(auto, unfolding(crate::specs::Pairs::pieces_from))]
fn split_pair(bytes: &[u8]) -> Option<RawPair<'_>>
    ensures { option_map (λ p. ((p.key.now, p.value.now), p.rest.now)) result ≡ pieces_from bytes.now }
{
    let (key_length, rest) = split_byte(bytes)?;
    let (value_length, rest) = split_u16(rest)?;
    let (key, rest) = split_piece(rest, key_length as usize)?;
    let (value, rest) = split_piece(rest, value_length as usize)?;
    Some(RawPair { key, value, rest })
}

/// The pair at the front and the bytes after it, `None` exactly where the bytes don't begin with a pair.
#[tactic(auto, unfolding(crate::specs::Pairs::pair_from))]
pub fn read_pair(alloc: Global, bytes: &[u8]) -> Result<Option<(Pair, &[u8])>, NoMemory>
    ensures { IfOk result (λ r. option_map (λ p. (p.0, p.1.now)) r ≡ pair_from bytes.now) }
{
    let Some(raw) = split_pair(bytes) else {
        return Ok(None);
    };
    let Some(key) = Key::read(alloc, raw.key)? else {
        return Ok(None);
    };
    let Some(value) = Value::read(alloc, raw.value)? else {
        return Ok(None);
    };
    Ok(Some(((key, value), raw.rest)))
}

/// How many bytes a pair has: both lengths, the key, the value.
#[tactic(auto, using(std::proofs::lemmas::Grind::common_steps, crate::proofs::KvTexts::length_of_pair))]
pub fn pair_length(pair: &Pair) -> usize
    ensures { result ≡ length (pair_text pair.now) }
{
    3 + pair.0.as_slice().len() + pair.1.as_slice().len()
}

/// Adds the bytes of a pair at the end.
#[tactic(auto, using(std::proofs::lemmas::Grind::common_steps, crate::proofs::KvTexts::key_length, crate::proofs::KvTexts::value_length), unfolding(crate::specs::Pairs::pair_text, vr_base::specs::Bytes::bytes16))]
pub fn write_pair(text: &mut ByteList, pair: &Pair) -> Result<(), NoMemory>
    ensures { OnOk result (text.new ≡ text.old ++ pair_text pair.now) }
{
    let key = pair.0.as_slice();
    let value = pair.1.as_slice();
    text.push(key.len() as u8)?;
    text.extend(&(value.len() as u16).to_be_bytes())?;
    text.extend(key)?;
    text.extend(value)?;
    Ok(())
}

/// Whether the value is one of this version.
#[tactic(auto, using(std::proofs::lemmas::Grind::common_steps, crate::proofs::Values::text_by_length))]
pub fn value_fits(value: &Value, version: Version) -> bool
    ensures { result ≡ is_text (value_limit version) value.now }
{
    value.as_slice().len() <= version.value_limit()
}

/// A pair of its own, of a key and a value that are texts.
pub fn new_pair(alloc: Global, key: &[u8], value: &[u8]) -> Result<Pair, NoMemory>
    requires key { IsTrue (is_text 64 key.now) }
    requires value { IsTrue (is_text (value_limit 2) value.now) }
    ensures { IfOk result (λ pair. pair ≡ (key.now, value.now)) }
{
    Ok((
        Key::from_bytes(alloc, key)?,
        Value::from_bytes(alloc, value)?,
    ))
}
