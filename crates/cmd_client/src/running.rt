//! The whole run of a client.
ghost use Rattle.std.specs.Prelude.{◌≡◌, ◌≢◌, true, vec_len};
ghost use Rattle.cmd_client.specs.Acts.{AsksAll, AsksMade, Runs};
ghost use Rattle.cmd_client.specs.Run.{client_with};
ghost use Rattle.vr_base.specs.Groups.{is_size};
ghost use Rattle.vr_edge.specs.Attaching.{texts_of};

use crate::asking::exchange;
use crate::lines::ask_lines;
use std::alloc::Global;
use vr_base::{Status, Version};
use vr_client::ClientCore;
use vr_edge::{Link, Sink, Source};
use vr_header::Operation;
use vr_lines::Lines;

/// Registers with number 0 and writes the answer; after an outcome it asks the lines of the source in order, from number 1 on, and writes each
/// outcome. Any other end of the register ends all, with nothing read. Source, link and sink count one fault more where the status names them, and
/// else none; nothing is attached.
#[tactic(auto, using(crate::proofs::Runs::unregistered, crate::proofs::Runs::registered))]
fn ask_all<S: Source, K: Sink, L: Link>(
    alloc: Global,
    core: &mut ClientCore,
    lines: &mut Lines,
    source: &mut S,
    link: &mut L,
    sink: &mut K,
    turns: u64,
) -> Status
    requires { core.old.number ≡ 0 }
    ensures { AsksAll S.Source K.Sink L.Link turns core.old core.new lines.old lines.new source.old source.new link.old link.new sink.old sink.new result }
{
    match exchange(alloc, core, link, sink, &Operation::Register, turns) {
        Ok(()) => ask_lines(alloc, core, lines, source, link, sink, turns),
        Err(status) => status,
    }
}

/// Makes the client, over a link that is attached; it registers, then asks the lines of the source in order, and writes each answer. Where memory is
/// short for the client itself, the end is `NoMemory`, and nothing was read, asked or written. Source, link and sink count one fault more where the
/// status names them, and else none; nothing is attached.
#[tactic(auto, using(crate::proofs::Runs::ran, crate::proofs::Runs::unmade))]
fn ask_made<S: Source, K: Sink, L: Link>(
    alloc: Global,
    version: Version,
    cluster: u64,
    id: u64,
    peers: &Vec<String>,
    turns: u64,
    source: &mut S,
    sink: &mut K,
    link: &mut L,
) -> Status
    requires id { id ≢ 0 }
    requires size { is_size version (vec_len peers.now) ≡ true }
    ensures { AsksMade S.Source K.Sink L.Link (client_with version cluster id (vec_len peers.now) turns) source.old source.new link.old link.new sink.old sink.new result }
{
    let size = peers.len() as u8;
    let Ok(mut core) = ClientCore::new(alloc, cluster, id, size, version) else {
        return Status::NoMemory;
    };
    let mut lines = Lines::new();
    ask_all(alloc, &mut core, &mut lines, source, link, sink, turns)
}

/// The link is attached once, with these addresses as peers and no own one; then the client `id` registers, and asks each line of its source in
/// order. Each answer's line is written before the next line is read. `LinkFault`: the attach failed, and nothing came after it, or the last receive
/// did. It ends as `Done` at the source's end, as `Refused` at a line that is none of this version, and else by an ask, a read or a write. Source,
/// link and sink count one fault more where the status names them, and else none.
#[tactic(auto, using(crate::proofs::Runs::linked, crate::proofs::Runs::unlinked))]
pub fn run_client<S: Source, K: Sink, L: Link>(
    alloc: Global,
    version: Version,
    cluster: u64,
    id: u64,
    peers: &Vec<String>,
    turns: u64,
    source: &mut S,
    sink: &mut K,
    link: &mut L,
) -> Status
    requires id { id ≢ 0 }
    requires size { is_size version (vec_len peers.now) ≡ true }
    ensures { Runs S.Source K.Sink L.Link (client_with version cluster id (vec_len peers.now) turns) (texts_of peers.now.items) source.old source.new sink.old sink.new link.old link.new result }
{
    match link.attach("", peers) {
        Ok(()) => ask_made(
            alloc, version, cluster, id, peers, turns, source, sink, link,
        ),
        Err(_) => Status::LinkFault,
    }
}
