//! The operation of a request.
ghost use Rattle.std.specs.Prelude.{◌≡◌, ℕ, IfOk, IfSome, option_and_then};
ghost use Rattle.std.specs.Option.{option_map};
ghost use Rattle.vr_base.specs.Versions.{value_limit};
ghost use Rattle.vr_header.specs.Bodies.{IsOperation};
ghost use Rattle.vr_header.specs.Text.{text_of};
ghost use Rattle.vr_header.specs.declared.operation.Operation.TheVariants as Operation;
ghost use Rattle.vr_lines.specs.Operations.{key_word, operation_behind, operation_words, pair_of, put_words, register_words};
ghost use Rattle.vr_lines.specs.Words.{words_left, words_of};

use crate::words::{Words, is_word};
use std::alloc::{AllocError, Global};
use vr_base::Version;
use vr_header::{Key, Operation, Value};

/// Two words, where no more are left.
fn two_words<'a>(words: Words<'a>) -> Option<(&'a [u8], &'a [u8])>
    ensures { (version : ℕ) → put_words version (words_left words.entry) ≡ option_and_then (λ p. pair_of version p.0.now p.1.now) result }
{
    let (key, words) = words.first()?;
    Some((key, words.only()?))
}

/// The value of this version that these bytes are.
#[tactic(auto, using(std::proofs::lemmas::Grind::common_steps, crate::proofs::Operations::long_text, crate::proofs::Operations::short_text))]
fn read_value(alloc: Global, value: &[u8], version: Version) -> Result<Option<Value>, AllocError>
    ensures { IfOk result (λ text. text ≡ text_of (value_limit version) value.now) }
{
    if value.len() > version.value_limit() {
        return Ok(None);
    }
    Value::read(alloc, value)
}

/// The operation of these texts.
fn read_pair(
    alloc: Global,
    key: &[u8],
    value: &[u8],
    version: Version,
) -> Result<Option<Operation>, AllocError>
    ensures { IfOk result (λ operation. operation ≡ pair_of version key.now value.now) }
{
    let Some(key) = Key::read(alloc, key)? else {
        return Ok(None);
    };
    match read_value(alloc, value, version)? {
        Some(value) => Ok(Some(Operation::Put(key, value))),
        None => Ok(None),
    }
}

/// KEY and VALUE after `put`.
fn read_put(
    alloc: Global,
    words: Words<'_>,
    version: Version,
) -> Result<Option<Operation>, AllocError>
    ensures { IfOk result (λ operation. operation ≡ put_words version (words_left words.entry)) }
{
    match two_words(words) {
        Some((key, value)) => read_pair(alloc, key, value, version),
        None => Ok(None),
    }
}

/// KEY after `get` and `del`.
fn read_key(alloc: Global, words: Words<'_>) -> Result<Option<Key>, AllocError>
    ensures { IfOk result (λ key. key ≡ key_word (words_left words.entry)) }
{
    match words.only() {
        Some(word) => Key::read(alloc, word),
        None => Ok(None),
    }
}

fn read_get(alloc: Global, words: Words<'_>) -> Result<Option<Operation>, AllocError>
    ensures { IfOk result (λ operation. operation ≡ option_map Operation.Get (key_word (words_left words.entry))) }
{
    match read_key(alloc, words)? {
        Some(key) => Ok(Some(Operation::Get(key))),
        None => Ok(None),
    }
}

fn read_delete(alloc: Global, words: Words<'_>) -> Result<Option<Operation>, AllocError>
    ensures { IfOk result (λ operation. operation ≡ option_map Operation.Delete (key_word (words_left words.entry))) }
{
    match read_key(alloc, words)? {
        Some(key) => Ok(Some(Operation::Delete(key))),
        None => Ok(None),
    }
}

fn register_alone(words: Words<'_>) -> Option<Operation>
    ensures { result ≡ register_words (words_left words.entry) }
{
    if words.is_end() {
        Some(Operation::Register)
    } else {
        None
    }
}

fn read_behind(
    alloc: Global,
    word: &[u8],
    words: Words<'_>,
    version: Version,
) -> Result<Option<Operation>, AllocError>
    ensures { IfOk result (λ operation. operation ≡ operation_behind version word.now (words_left words.entry)) }
{
    if is_word(word, "register") {
        Ok(register_alone(words))
    } else if is_word(word, "put") {
        read_put(alloc, words, version)
    } else if is_word(word, "get") {
        read_get(alloc, words)
    } else if is_word(word, "del") {
        read_delete(alloc, words)
    } else {
        Ok(None)
    }
}

#[tactic(auto, unfolding(crate::specs::Operations::operation_words))]
fn read_words(
    alloc: Global,
    words: Words<'_>,
    version: Version,
) -> Result<Option<Operation>, AllocError>
    ensures { IfOk result (λ operation. operation ≡ operation_words version (words_left words.entry)) }
{
    match words.first() {
        Some((word, words)) => read_behind(alloc, word, words, version),
        None => Ok(None),
    }
}

/// The operation of this version that these words spell.
#[tactic(auto, using(std::proofs::lemmas::Grind::common_steps, crate::proofs::Operations::spelled_fits))]
pub fn read_operation(
    alloc: Global,
    words: Words<'_>,
    version: Version,
) -> Result<Option<Operation>, AllocError>
    ensures spelled { IfOk result (λ operation. operation ≡ operation_words version (words_left words.entry)) }
    ensures fits { IfOk result (λ operation. IfSome operation (λ o. IsOperation version o)) }
{
    read_words(alloc, words, version)
}

/// The operation of this version that these bytes spell, words with single spaces between them.
pub fn parse_operation(
    alloc: Global,
    bytes: &[u8],
    version: Version,
) -> Result<Option<Operation>, AllocError>
    ensures spelled { IfOk result (λ operation. operation ≡ operation_words version (words_of bytes.now)) }
    ensures fits { IfOk result (λ operation. IfSome operation (λ o. IsOperation version o)) }
{
    read_operation(alloc, Words::of(bytes), version)
}
