//! What a client reads and writes.
ghost use Rattle.std.specs.Prelude.{◌≡◌, ◌++◌, IfOk, OnOk};
ghost use Rattle.cmd_client.specs.Text.{answer_text, answer_words, operation_of};

use std::alloc::{AllocError, Global};
use vr_base::{ByteList, Seq, Version};
use vr_client::Answer;
use vr_header::Operation;
use vr_lines::parse_operation;
use vr_text::put_outcome;

/// The operation that the words of a line are in this version: `put KEY VALUE`, `get KEY` or `del KEY`. `None` for every other line, `register` among
/// them: a client registers by itself.
#[tactic(auto, unfolding(crate::specs::Text::operation_of))]
pub fn read_line(
    alloc: Global,
    line: &[u8],
    version: Version,
) -> Result<Option<Operation>, AllocError>
    ensures { IfOk result (λ operation. operation ≡ operation_of version line.now) }
{
    match parse_operation(alloc, line, version)? {
        Some(operation) if !operation.is_register() => Ok(Some(operation)),
        _ => Ok(None),
    }
}

/// Adds an answer at the end of the text, without an end of line: the words of its outcome, or `old`, `gap` or `evicted`. After an `Err`, want of memory,
/// nothing is said of the text.
fn put_answer(to: &mut ByteList, answer: &Answer) -> Result<(), AllocError>
    ensures { OnOk result (to.new ≡ to.old ++ answer_words answer.now) }
{
    match answer {
        Answer::Outcome(answered) => put_outcome(to, &answered.outcome),
        Answer::Old => to.extend(b"old"),
        Answer::Gap => to.extend(b"gap"),
        Answer::Evicted => to.extend(b"evicted"),
    }
}

/// The line of an answer: the words of its outcome, or `old`, `gap` or `evicted`, and an LF.
#[tactic(auto, unfolding(crate::specs::Text::answer_text))]
pub fn answer_text(alloc: Global, answer: &Answer) -> Result<ByteList, AllocError>
    ensures { IfOk result (λ text. text ≡ answer_text answer.now) }
{
    let mut text = Seq::new(alloc);
    put_answer(&mut text, answer)?;
    text.extend(b"\n")?;
    Ok(text)
}
