//! The lines `started R` and `stopped R`, and the operations that the client asks, with their keys and values.
ghost use Rattle.std.specs.Prelude.{◌≡◌, ℕ, IfOk, IsTrue, string_bytes};
ghost use Rattle.vr_base.specs.Versions.{value_limit};
ghost use Rattle.vr_header.specs.Bodies.{IsOperation};
ghost use Rattle.vr_header.specs.Text.{is_text};
ghost use Rattle.cmd_trial.specs.Parts.{WritesLine};
ghost use Rattle.cmd_trial.specs.Told.{key, member_line, operation_of, value};

use crate::step::Question;
use std::alloc::{AllocError, Global};
use vr_base::Status;
use vr_edge::{Sink, write_whole};
use vr_header::{Key, Operation, Value};

/// The line that says what became of a member: this word, a space, its number in decimal digits, and an LF.
#[tactic(auto, using(std::proofs::lemmas::Grind::common_steps), unfolding(crate::specs::Told::member_line))]
fn member_line(alloc: Global, what: &str, member: u8) -> Result<String, AllocError>
    ensures { IfOk result (λ line. string_bytes line ≡ member_line what.now member) }
{
    Ok(format!(in alloc; "{what} {member}\n")?)
}

/// Writes the line of this word and this member whole, as `started 0`, with its LF. After `WriteFault` the sink took a front of it, and
/// counts one fault more. After `NoMemory` it took a front, too, and counts none; no other `Err` comes.
#[tactic(auto, using(std::proofs::lemmas::Grind::common_steps, crate::proofs::Writing::cut_none, crate::proofs::Writing::cut_write))]
pub fn write_line<K: Sink>(
    alloc: Global,
    sink: &mut K,
    what: &str,
    member: u8,
) -> Result<(), Status>
    ensures { WritesLine K.Sink (member_line what.now member) sink.old sink.new result }
{
    let Ok(line) = member_line(alloc, what, member) else {
        return Err(Status::NoMemory);
    };
    match write_whole(sink, line.as_bytes()) {
        Ok(()) => Ok(()),
        Err(_) => Err(Status::WriteFault),
    }
}

/// `k` and the number in decimal digits, which is a key of each version.
#[tactic(auto, using(std::proofs::lemmas::Grind::common_steps, crate::proofs::Texts::key_text))]
fn key(alloc: Global, number: u8) -> Result<Key, AllocError>
    ensures value { IfOk result (λ k. k ≡ key number) }
    ensures fits { IfOk result (λ k. IsTrue (is_text 64 k)) }
{
    let text = format!(in alloc; "k{number}")?;
    Key::from_bytes(alloc, text.as_bytes())
}

/// `v` and the number in decimal digits, which is a value of each version.
#[tactic(auto, using(std::proofs::lemmas::Grind::common_steps, crate::proofs::Texts::value_text, crate::proofs::Texts::value_fits))]
fn value(alloc: Global, number: u8) -> Result<Value, AllocError>
    ensures value { IfOk result (λ v. v ≡ value number) }
    ensures fits { (version : ℕ) → IfOk result (λ v. IsTrue (is_text (value_limit version) v)) }
{
    let text = format!(in alloc; "v{number}")?;
    Value::from_bytes(alloc, text.as_bytes())
}

/// The operation of a question, which is one of each version: `Register`; for `Put(N)` a put of value `vN` at key `kN`; for `Get(N)` a
/// get of key `kN`.
pub fn operation_of(alloc: Global, question: Question) -> Result<Operation, AllocError>
    ensures value { IfOk result (λ operation. operation ≡ operation_of question) }
    ensures fits { (version : ℕ) → IfOk result (λ operation. IsOperation version operation) }
{
    match question {
        Question::Register => Ok(Operation::Register),
        Question::Put(number) => Ok(Operation::Put(key(alloc, number)?, value(alloc, number)?)),
        Question::Get(number) => Ok(Operation::Get(key(alloc, number)?)),
    }
}
