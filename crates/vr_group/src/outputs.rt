//! What is put out, and the messages among it.
ghost use Rattle.std.specs.Prelude.{◌≡◌, ◌≤◌, ◌+◌, ◌++◌, ◌∷◌, [], length, OnOk};
ghost use Rattle.vr_rules.specs.Outputs.{message_of, messages};
ghost use Rattle.vr_group.specs.Outputs.{line_text, numbered, outputs_of, put_as, puts_of, text_of, with_number};
ghost use Rattle.vr_text.specs.Fronts.{IsFront};

use crate::Letter;
use std::alloc::{AllocError, Global};
use vr_base::{ByteList, Seq};
use vr_msg::{Outbox, Output};
use vr_text::write_text;

/// What is put out: a message, which stays with those that were sent, by its number, or any other output.
#[derive(Drop, PartialEq, Eq)]
pub enum Put {
    Message(u64),
    Other(Output),
}

/// What is put out, in order, and its text.
#[derive(Drop)]
pub struct Outputs {
    pub puts: Seq<Put>,
    /// A line for each.
    pub text: ByteList,
}

impl Outputs {
    /// Nothing.
    #[tactic(auto, using(std::proofs::lemmas::Grind::common_steps, crate::proofs::Numbering::text_none))]
    pub fn new(alloc: Global) -> Outputs
        ensures { result ≡ outputs_of [] }
    {
        Outputs {
            puts: Seq::new(alloc),
            text: ByteList::new(alloc),
        }
    }
}

// One output more: its line, and its letter where it is a message.
#[tactic(auto, using(std::proofs::lemmas::Grind::common_steps, vr_text::proofs::Fronts::front_same))]
fn record_output(
    alloc: Global,
    sent: &mut Seq<Letter>,
    output: &Output,
    to: &mut ByteList,
) -> Result<(), AllocError>
    ensures sent { OnOk result (sent.new ≡ sent.old ++ message_of output.now) }
    ensures text { OnOk result (to.new ≡ to.old ++ line_text (with_number (length sent.old) output.now)) }
    ensures front { IsFront to.old to.new }
{
    write_text(sent.len() as u64, output, to)?;
    if let Output::Send(message) = output {
        let letter = Letter::new(alloc, sent.as_slice(), message)?;
        sent.push(letter)?;
    }
    Ok(())
}

/// Each output, in order: its line goes after what stands there, of which an `Err` may have added some.
#[tactic(auto, using(std::proofs::lemmas::Grind::common_steps, crate::proofs::Numbering::messages_at, crate::proofs::Numbering::messages_past, crate::proofs::Numbering::text_at, crate::proofs::Numbering::text_past, vr_text::proofs::Fronts::front_same, vr_text::proofs::Fronts::front_then))]
pub fn record_outputs(
    alloc: Global,
    sent: &mut Seq<Letter>,
    outputs: &[Output],
    to: &mut ByteList,
) -> Result<(), AllocError>
    ensures sent { OnOk result (sent.new ≡ sent.old ++ messages outputs.now) }
    ensures text { OnOk result (to.new ≡ to.old ++ text_of (numbered (length sent.old) outputs.now)) }
    ensures front { IsFront to.old to.new }
{
    for output in outputs {
        record_output(alloc, sent, output, to)?;
    }
    Ok(())
}

// What is put out of an output.
fn put_of(number: u64, output: Output) -> Put
    ensures { result ≡ put_as number output }
{
    match output {
        Output::Send(message) => {
            drop(message);
            Put::Message(number)
        }
        other => Put::Other(other),
    }
}

// The number of the next message after an output; below `end` there is one more.
fn number_after(number: u64, end: u64, output: &Output) -> u64
    requires { number + length (message_of output.now) ≤ end }
    ensures { result ≡ number + length (message_of output.now) }
{
    match output {
        Output::Send(_) => number + 1,
        _ => number,
    }
}

/// Puts each output out, in order. The first message among them has this number, and after them comes that of `end`.
#[tactic(auto, using(std::proofs::lemmas::Grind::common_steps, crate::proofs::Numbering::puts_none))]
pub fn put_out(
    number: u64,
    end: u64,
    outputs: Outbox,
    puts: &mut Seq<Put>,
) -> Result<(), AllocError>
    requires { number + length (messages outputs) ≡ end }
    ensures { OnOk result (puts.new ≡ puts.old ++ puts_of number outputs) }
{
    let mut number = number;
    for output in outputs.into_vec() {
        let next = number_after(number, end, &output);
        puts.push(put_of(number, output))?;
        number = next;
    }
    Ok(())
}
