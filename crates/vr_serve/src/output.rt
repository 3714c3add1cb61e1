//! What an event puts out: its text, and the datagrams after it.
ghost use Rattle.std.specs.Prelude.{◌≡◌, ◌++◌, ◌∷◌, [], Some, true, IfOk, IfSome, OnOk};
ghost use Rattle.vr_edge.specs.Sending.{datagram_at};
ghost use Rattle.vr_msg.specs.Spelling.{spelling};
ghost use Rattle.vr_serve.specs.Outgoing.{datagram_of};
ghost use Rattle.vr_serve.specs.Outputs.{datagram_for, datagrams_for, number_after, numbers_after, reply_for, text_from};
ghost use Rattle.vr_serve.specs.Sending.{SendsInOrder, SendsOrNone};

use crate::clients::{Client, port_of};
use std::alloc::AllocError;
use vr_base::ByteList;
use vr_edge::Link;
use vr_mail::{send_bytes, send_message};
use vr_msg::{Message, Outbox, Output, Reply};
use vr_text::write_text;

/// One more after a message that is sent, up to 2^64 - 1; the same after any other output, a reply too.
fn number_after(number: u64, output: &Output) -> u64
    ensures { result ≡ number_after number output.now }
{
    match output {
        Output::Send(_) => number.saturating_add(1),
        _ => number,
    }
}

/// Adds the line of each output at the end of the text, in order. A message that is sent has `number` in its line, which goes up by one
/// after it, to 2^64 - 1 at most; other outputs leave it. After an `Err`, want of memory, nothing is said of text and number.
#[tactic(auto, using(std::proofs::lemmas::Grind::common_steps, crate::proofs::Outputs::text_more, crate::proofs::Outputs::text_none, crate::proofs::Outputs::numbers_more, crate::proofs::Outputs::numbers_none))]
pub fn put_text(number: &mut u64, outputs: &[Output], text: &mut ByteList) -> Result<(), AllocError>
    ensures text { OnOk result (text.new ≡ text.old ++ text_from number.old outputs.now) }
    ensures number { OnOk result (number.new ≡ numbers_after number.old outputs.now) }
{
    for output in outputs {
        write_text(*number, output, text)?;
        *number = number_after(*number, output);
    }
    Ok(())
}

/// A message, and the port that it goes to.
#[derive(Drop)]
pub struct Outgoing {
    pub port: u32,
    pub message: Message,
}

/// The reply, with the port of its client; `None` where the client isn't in the list.
fn address_reply(clients: &[Client], reply: Reply) -> Option<Outgoing>
    ensures { datagram_of result ≡ reply_for clients.now reply }
{
    match port_of(clients, reply.fields().client) {
        Some(port) => Some(Outgoing {
            port,
            message: Message::reply(reply),
        }),
        None => {
            drop(reply);
            None
        }
    }
}

/// A message that is sent, with its member's number as the port, or a reply, with its client's port in the list. `None` for a
/// reply whose client isn't in the list, and for each other output.
fn address(clients: &[Client], output: Output) -> Option<Outgoing>
    ensures { datagram_of result ≡ datagram_for clients.now output }
{
    match output {
        Output::Send(sent) => Some(Outgoing {
            port: u32::from(sent.to),
            message: sent.message,
        }),
        Output::Reply(reply) => address_reply(clients, reply),
        other => {
            drop(other);
            None
        }
    }
}

// `true` only where the message that was sent last is this one; `false` tells nothing.
fn is_last(last: &Option<Message>, message: &Message) -> bool
    ensures { result ≡ true → last.now ≡ Some message.now }
{
    match last {
        Some(same) => same.is_same_prepare(message),
        None => false,
    }
}

/// Gives the message's bytes to the link as one datagram to its port; where the link fails to send it, it is lost, and nothing
/// else. Before, `bytes` is the spelling of `last` where there is one; after `Ok` it is that of this message. After an `Err`,
/// want of memory, nothing was sent. The link's receives, attaches and faults stay as they are. A prepare is spelled once for all
/// backups: where it was sent last, its bytes stand there already.
fn send_again<L: Link>(
    link: &mut L,
    out: &Outgoing,
    last: &Option<Message>,
    bytes: &mut Vec<u8>,
) -> Result<(), AllocError>
    requires { IfSome last.now (λ m. bytes.old.items ≡ spelling m) }
    ensures bytes { OnOk result (bytes.new.items ≡ spelling out.now.message) }
    ensures sends { SendsOrNone L.Link (datagram_at out.now.port (spelling out.now.message) ∷ []) link.old link.new result }
{
    if is_last(last, &out.message) {
        send_bytes(link, out.port, bytes.as_slice());
        return Ok(());
    }
    send_message(link, out.port, &out.message, bytes)
}

/// Gives the output's datagram to the link, where it has one: a message's goes to its member, a reply's to its client's port in
/// the list. After `Ok` the message that is returned, if any, is the one whose spelling `bytes` is. After an `Err`, want of
/// memory, nothing was sent. The link's receives, attaches and faults stay as they are.
fn send_output<L: Link>(
    link: &mut L,
    clients: &[Client],
    output: Output,
    last: &Option<Message>,
    bytes: &mut Vec<u8>,
) -> Result<Option<Message>, AllocError>
    requires { IfSome last.now (λ m. bytes.old.items ≡ spelling m) }
    ensures last { IfOk result (λ last. IfSome last (λ m. bytes.new.items ≡ spelling m)) }
    ensures sends { SendsOrNone L.Link (datagram_for clients.now output) link.old link.new result }
{
    let Some(out) = address(clients, output) else {
        return Ok(None);
    };
    match send_again(link, &out, last, bytes) {
        Ok(()) => Ok(Some(out.message)),
        Err(why) => {
            drop(out);
            Err(why)
        }
    }
}

/// The same, after a message that isn't needed any more.
fn send_next<L: Link>(
    link: &mut L,
    clients: &[Client],
    output: Output,
    last: Option<Message>,
    bytes: &mut Vec<u8>,
) -> Result<Option<Message>, AllocError>
    requires { IfSome last (λ m. bytes.old.items ≡ spelling m) }
    ensures last { IfOk result (λ last. IfSome last (λ m. bytes.new.items ≡ spelling m)) }
    ensures sends { SendsOrNone L.Link (datagram_for clients.now output) link.old link.new result }
{
    let sent = send_output(link, clients, output, &last, bytes);
    drop(last);
    sent
}

/// Gives the datagrams of all outputs to the link, in order: messages go to their members, replies to their clients' ports in the
/// list. One that the link fails to send is lost, and the next ones are sent. After an `Err`, want of memory, a front of them was
/// given. The link's receives, attaches and faults stay as they are.
pub fn send_outputs<L: Link>(
    link: &mut L,
    clients: &[Client],
    outputs: Outbox,
    bytes: &mut Vec<u8>,
) -> Result<(), AllocError>
    ensures { SendsInOrder L.Link (datagrams_for clients.now outputs) link.old link.new result }
{
    let mut last = None;
    for output in outputs.into_vec() {
        last = send_next(link, clients, output, last, bytes)?;
    }
    drop(last);
    Ok(())
}
