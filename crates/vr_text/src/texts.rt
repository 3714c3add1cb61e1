//! Pieces of text.
ghost use Rattle.std.specs.Fmt.{decimal};
ghost use Rattle.std.specs.Prelude.{◌≡◌, ◌++◌, ◌<◌, OnOk};
ghost use Rattle.vr_header.specs.Bodies.{IsOperation, IsOutcome};
ghost use Rattle.vr_text.specs.Fronts.{IsFront};
ghost use Rattle.vr_text.specs.Text.{client_text, entry_text, head_text, log_text, numbered, operation_text, outcome_text, viewed};

use itoa::Buffer;
use std::alloc::AllocError;
use vr_base::ByteList;
use vr_header::{Operation, Outcome};

/// Bytes at the end. It is in line, as are its callers below: words that a caller spells are then moved, not copied by a call.
#[inline(always)]
#[tactic(auto, using(std::proofs::lemmas::Grind::common_steps, crate::proofs::Fronts::front_grown))]
pub fn put_bytes(to: &mut ByteList, bytes: &[u8]) -> Result<(), AllocError>
    ensures text { OnOk result (to.new ≡ to.old ++ bytes.now) }
    ensures front { IsFront to.old to.new }
{
    to.extend(bytes)
}

/// Words at the end.
#[inline(always)]
pub fn put(to: &mut ByteList, words: &str) -> Result<(), AllocError>
    ensures text { OnOk result (to.new ≡ to.old ++ words.now) }
    ensures front { IsFront to.old to.new }
{
    put_bytes(to, words.as_bytes())
}

/// Words with a number after them.
#[inline(always)]
#[tactic(auto, using(std::proofs::lemmas::Grind::common_steps, crate::proofs::Fronts::front_then), unfolding(crate::specs::Text::numbered))]
pub fn put_number(to: &mut ByteList, words: &str, n: u64) -> Result<(), AllocError>
    ensures text { OnOk result (to.new ≡ to.old ++ numbered words.now n) }
    ensures front { IsFront to.old to.new }
{
    put(to, words)?;
    // most numbers of a line have one digit
    if n < 10 {
        put_digit(to, n as u8)
    } else {
        put_digits(to, n)
    }
}

/// Words with bytes after them.
#[inline(always)]
#[tactic(auto, using(std::proofs::lemmas::Grind::common_steps, crate::proofs::Fronts::front_then))]
fn put_behind(to: &mut ByteList, words: &str, bytes: &[u8]) -> Result<(), AllocError>
    ensures text { OnOk result (to.new ≡ to.old ++ words.now ++ bytes.now) }
    ensures front { IsFront to.old to.new }
{
    put(to, words)?;
    put_bytes(to, bytes)
}

/// A number below 10, at the end.
#[inline(always)]
#[tactic(auto, using(std::proofs::lemmas::Grind::common_steps, std::proofs::lemmas::Fmt::decimal_digit, crate::proofs::Fronts::front_grown))]
fn put_digit(to: &mut ByteList, n: u8) -> Result<(), AllocError>
    requires { n < 10 }
    ensures text { OnOk result (to.new ≡ to.old ++ decimal n) }
    ensures front { IsFront to.old to.new }
{
    to.push(b'0' + n)
}

/// A number, at the end.
fn put_digits(to: &mut ByteList, n: u64) -> Result<(), AllocError>
    ensures text { OnOk result (to.new ≡ to.old ++ decimal n) }
    ensures front { IsFront to.old to.new }
{
    put_bytes(to, Buffer::new().format(n).as_bytes())
}

/// A message's word, with the view that it is of.
#[tactic(auto, using(std::proofs::lemmas::Grind::common_steps, crate::proofs::Fronts::front_then), unfolding(crate::specs::Text::viewed))]
pub fn put_view(to: &mut ByteList, word: &str, view: u32) -> Result<(), AllocError>
    ensures text { OnOk result (to.new ≡ to.old ++ viewed word.now view) }
    ensures front { IsFront to.old to.new }
{
    put(to, word)?;
    put_number(to, " view ", u64::from(view))
}

/// The op of an entry, and the view in which it was made.
#[tactic(auto, using(std::proofs::lemmas::Grind::common_steps, crate::proofs::Fronts::front_then))]
pub fn put_entry(to: &mut ByteList, op: u64, made: u32) -> Result<(), AllocError>
    ensures text { OnOk result (to.new ≡ to.old ++ entry_text op made) }
    ensures front { IsFront to.old to.new }
{
    put_number(to, "op ", op)?;
    put_number(to, " made ", u64::from(made))
}

/// The last op of a log and its commit number.
#[tactic(auto, using(std::proofs::lemmas::Grind::common_steps, crate::proofs::Fronts::front_then))]
pub fn put_head(to: &mut ByteList, head: u64, commit: u64) -> Result<(), AllocError>
    ensures text { OnOk result (to.new ≡ to.old ++ head_text head commit) }
    ensures front { IsFront to.old to.new }
{
    put_number(to, " op ", head)?;
    put_number(to, " commit ", commit)
}

/// The view of a log, its commit number and its last op.
#[tactic(auto, using(std::proofs::lemmas::Grind::common_steps, crate::proofs::Fronts::front_then))]
pub fn put_log(to: &mut ByteList, log_view: u32, commit: u64, head: u64) -> Result<(), AllocError>
    ensures text { OnOk result (to.new ≡ to.old ++ log_text log_view commit head) }
    ensures front { IsFront to.old to.new }
{
    put_number(to, " log ", u64::from(log_view))?;
    put_number(to, " commit ", commit)?;
    put_number(to, " head ", head)
}

/// A client, and the number of its request.
#[tactic(auto, using(std::proofs::lemmas::Grind::common_steps, crate::proofs::Fronts::front_then))]
pub fn put_client(to: &mut ByteList, client: u64, request: u32) -> Result<(), AllocError>
    ensures text { OnOk result (to.new ≡ to.old ++ client_text client request) }
    ensures front { IsFront to.old to.new }
{
    put_number(to, " client ", client)?;
    put_number(to, " request ", u64::from(request))?;
    put(to, " ")
}

/// The word and the key of an operation, and what it puts.
#[tactic(auto, using(std::proofs::lemmas::Grind::common_steps, crate::proofs::Fronts::front_then))]
pub fn put_operation(to: &mut ByteList, operation: &Operation) -> Result<(), AllocError>
    ensures text { OnOk result (to.new ≡ to.old ++ operation_text operation.now) }
    ensures printable { OnOk result (IsOperation 2 operation.now) }
    ensures front { IsFront to.old to.new }
{
    match operation {
        Operation::Register => put(to, "register"),
        Operation::Put(key, value) => {
            put_behind(to, "put ", key.as_slice())?;
            put_behind(to, " ", value.as_slice())
        }
        Operation::Get(key) => put_behind(to, "get ", key.as_slice()),
        Operation::Delete(key) => put_behind(to, "del ", key.as_slice()),
    }
}

/// The words of an outcome.
#[tactic(auto, using(std::proofs::lemmas::Grind::common_steps, crate::proofs::Fronts::front_then))]
pub fn put_outcome(to: &mut ByteList, outcome: &Outcome) -> Result<(), AllocError>
    ensures text { OnOk result (to.new ≡ to.old ++ outcome_text outcome.now) }
    ensures printable { OnOk result (IsOutcome 2 outcome.now) }
    ensures front { IsFront to.old to.new }
{
    match outcome {
        Outcome::Session => put(to, "session"),
        Outcome::Ok => put(to, "ok"),
        Outcome::Full => put(to, "full"),
        Outcome::Absent => put(to, "absent"),
        Outcome::Value(value) => put_behind(to, "value ", value.as_slice()),
    }
}
