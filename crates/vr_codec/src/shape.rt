//! Whether bytes are of a message's form; nothing here takes memory.
ghost use Rattle.std.specs.Prelude.{◌≡◌, ◌||◌, ◌+◌, ◌≤◌, ◌<◌, ◌^◌, ◌==◌, length, Some, None, Ok};
ghost use Rattle.std.specs.List.{prefix_len};
ghost use Rattle.std.specs.Option.{option_map};
ghost use Rattle.vr_header.specs.declared.command.Command.{Command};
ghost use Rattle.vr_codec.specs.Shapes.{uses_parent, uses_request_name, uses_client, uses_view, uses_op, uses_commit, uses_replica, uses_aux, is_no_name, unused_names_are_zero, unused_numbers_are_zero, is_view, is_number, numbers_fit, is_asked, kind_fits, is_at, is_ok_entry_at, begins_entry, is_body, entry_fits, headers_fit, checkpoint_fits, log_fits, sync_fits, knows, after_tag, tags_fit, tags_run, statement_fits, parts_fit, body_fits, has_shape, inspected, inspected_with};

use crate::MsgFault;
use vr_base::{Sum, Version, checksum, u16_at, u64_at};
use vr_header::{Command, Entry, Header, LAST_OP, Operation, Outcome, decode};

fn uses_parent(command: Command) -> bool
    ensures { result ≡ uses_parent command }
{
    matches!(
        command,
        Command::PrepareOk | Command::GetPrepare | Command::GetBlock
    )
}

fn uses_request_name(command: Command) -> bool
    ensures { result ≡ uses_request_name command }
{
    matches!(command, Command::Reply)
}

fn uses_client(command: Command) -> bool
    ensures { result ≡ uses_client command }
{
    matches!(command, Command::Request | Command::Reply)
}

fn uses_view(command: Command) -> bool
    ensures { result ≡ uses_view command }
{
    !matches!(
        command,
        Command::Request
            | Command::GetPrepare
            | Command::GivePrepare
            | Command::GetBlock
            | Command::GiveBlock
    )
}

fn uses_op(command: Command) -> bool
    ensures { result ≡ uses_op command }
{
    !matches!(
        command,
        Command::Request
            | Command::StartViewChange
            | Command::GetView
            | Command::GetBlock
            | Command::GiveBlock
            | Command::GetSync
    )
}

fn uses_commit(command: Command) -> bool
    ensures { result ≡ uses_commit command }
{
    matches!(
        command,
        Command::Prepare
            | Command::Commit
            | Command::DoViewChange
            | Command::StartView
            | Command::SyncView
    )
}

fn uses_replica(command: Command) -> bool
    ensures { result ≡ uses_replica command }
{
    !matches!(command, Command::Request)
}

fn uses_aux(command: Command) -> bool
    ensures { result ≡ uses_aux command }
{
    matches!(
        command,
        Command::PrepareOk
            | Command::DoViewChange
            | Command::StartView
            | Command::GetPrepare
            | Command::GetBlock
            | Command::GiveBlock
            | Command::SyncView
    )
}

fn is_no_name(sum: Sum) -> bool
    ensures { result ≡ is_no_name sum }
{
    sum.0 == [0; 16]
}

// Whether each field that the command has no use for is zero: names, and what names the client.
#[tactic(auto, unfolding(crate::specs::Shapes::unused_names_are_zero))]
fn unused_names_are_zero(h: &Header) -> bool
    ensures { result ≡ unused_names_are_zero h.now }
{
    if !(uses_parent(h.command) || is_no_name(h.parent)) {
        return false;
    }
    if !(uses_request_name(h.command) || is_no_name(h.request_name)) {
        return false;
    }
    if !(uses_request_name(h.command) || h.kind == 0) {
        return false;
    }
    if !(uses_client(h.command) || h.client == 0) {
        return false;
    }
    uses_client(h.command) || h.request == 0
}

// Whether each number that the command has no use for is zero.
#[tactic(auto, unfolding(crate::specs::Shapes::unused_numbers_are_zero))]
fn unused_numbers_are_zero(h: &Header) -> bool
    ensures { result ≡ unused_numbers_are_zero h.now }
{
    if !(uses_view(h.command) || h.view == 0) {
        return false;
    }
    if !(uses_op(h.command) || h.op == 0) {
        return false;
    }
    if !(uses_commit(h.command) || h.commit == 0) {
        return false;
    }
    if !(uses_replica(h.command) || h.replica == 0) {
        return false;
    }
    uses_aux(h.command) || h.aux == 0
}

fn is_view(view: u64) -> bool
    ensures { result ≡ is_view view }
{
    view < u32::MAX as u64
}

fn is_number(op: u64) -> bool
    ensures { result ≡ is_number op }
{
    op <= LAST_OP
}

#[tactic(auto, unfolding(crate::specs::Shapes::numbers_fit))]
fn numbers_fit(h: &Header) -> bool
    ensures { result ≡ numbers_fit h.now }
{
    is_view(h.view as u64) && (is_number(h.op) && is_number(h.commit))
}

// Whether the bytes are an operation of this version that a request of this number may ask for.
#[tactic(auto, unfolding(crate::specs::Shapes::is_asked))]
fn is_asked(version: Version, request: u32, body: &[u8]) -> bool
    ensures { result ≡ is_asked version request body.now }
{
    if !Operation::is_body(body, version) {
        return false;
    }
    if body.len() == 1 {
        request == 0
    } else {
        request != 0
    }
}

// Whether a reply of this version and kind may have this op and this body.
#[tactic(auto, unfolding(crate::specs::Shapes::kind_fits))]
fn kind_fits(version: Version, kind: u8, op: u64, body: &[u8]) -> bool
    ensures { result ≡ kind_fits version kind op body.now }
{
    if kind == 1 {
        return Outcome::is_body(body, version);
    }
    if kind == 0 {
        return false;
    }
    if kind > 6 {
        return false;
    }
    op == 0 && body.is_empty()
}

// Whether a header is of this version or an earlier one, of this group and op, and made in a view up to `last`.
#[tactic(auto, unfolding(crate::specs::Shapes::is_at))]
fn is_at(version: Version, cluster: u64, last: u32, op: u64, h: &Header) -> bool
    ensures { result ≡ is_at version cluster last op h.now }
{
    if h.version.get() > version.get() {
        return false;
    }
    if h.cluster != cluster {
        return false;
    }
    if h.op != op {
        return false;
    }
    h.view <= last
}

// Whether the bytes begin with the header of such an entry.
#[tactic(auto, unfolding(crate::specs::Shapes::begins_entry))]
fn begins_entry(version: Version, cluster: u64, last: u32, op: u64, bytes: &[u8]) -> bool
    ensures { result ≡ begins_entry version cluster last op bytes.now }
{
    match decode(bytes) {
        Ok(h) => is_entry_at(version, cluster, last, op, &h),
        Err(_) => false,
    }
}

fn is_entry_at(version: Version, cluster: u64, last: u32, op: u64, h: &Header) -> bool
    ensures { result ≡ is_ok_entry_at version cluster last op (Ok h.now) }
{
    if !h.is_entry() {
        return false;
    }
    is_at(version, cluster, last, op, h)
}

// Whether the header has this body.
#[tactic(auto, unfolding(crate::specs::Shapes::is_body))]
fn is_body(h: &Header, body: &[u8]) -> bool
    ensures { result ≡ is_body h.now body.now }
{
    if h.size.get() as usize != 128 + body.len() {
        return false;
    }
    let right = checksum(body);
    h.body.0 == right.0
}

// Whether the bytes are such an entry.
#[tactic(auto, unfolding(crate::specs::Shapes::entry_fits))]
fn entry_fits(version: Version, cluster: u64, last: u32, op: u64, bytes: &[u8]) -> bool
    ensures { result ≡ entry_fits version cluster last op bytes.now }
{
    match Entry::header_in(bytes) {
        Some(h) => is_at(version, cluster, last, op, &h),
        None => false,
    }
}

// Whether the bytes are `count` headers of entries, from `op` on.
#[tactic(auto, using(std::proofs::lemmas::Grind::common_steps, crate::proofs::Fitting::headers_fitting), unfolding(crate::specs::Shapes::headers_fit))]
fn headers_fit(version: Version, cluster: u64, last: u32, count: u64, op: u64, bytes: &[u8]) -> bool
    requires { op + count < 2 ^ 64 }
    ensures { result ≡ headers_fit version cluster last count op bytes.now }
{
    let mut rest = bytes;
    for i in 0..count {
        if !begins_entry(version, cluster, last, op + i, rest) {
            return false;
        }
        let (_, after) = rest.split_at(128);
        rest = after;
    }
    rest.is_empty()
}

#[tactic(auto, unfolding(crate::specs::Shapes::log_fits))]
fn log_fits(h: &Header, body: &[u8]) -> bool
    requires { h.now.op ≤ 2 ^ 62 }
    ensures { result ≡ log_fits h.now body.now }
{
    if h.op < h.commit {
        return false;
    }
    if h.op < h.aux {
        return false;
    }
    if h.op - h.aux > 64 {
        return false;
    }
    let count = h.op - h.aux;
    headers_fit(h.version, h.cluster, h.view, count, h.aux + 1, body)
}

// Whether a checkpoint of this op, whose root has this address, may stand before the log of the header.
#[tactic(auto, unfolding(crate::specs::Shapes::checkpoint_fits))]
fn checkpoint_fits(h: &Header, checkpoint: u64, address: u64) -> bool
    ensures { result ≡ checkpoint_fits h.now checkpoint address }
{
    if checkpoint % 32 != 0 {
        return false;
    }
    if checkpoint <= h.aux {
        return false;
    }
    if h.commit < checkpoint {
        return false;
    }
    address < 128
}

#[tactic(auto, unfolding(crate::specs::Shapes::sync_fits))]
fn sync_fits(h: &Header, body: &[u8]) -> bool
    requires { h.now.op ≤ 2 ^ 62 }
    ensures { result ≡ sync_fits h.now body.now }
{
    if body.len() < 32 {
        return false;
    }
    if !checkpoint_fits(h, u64_at(body, 0), u64_at(body, 8)) {
        return false;
    }
    let (_, headers) = body.split_at(32);
    log_fits(h, headers)
}

// Whether a tag is of a Part that knows its header.
pub(crate) fn knows(tag: u8) -> bool
    ensures { result ≡ knows tag }
{
    1 <= tag && tag <= 3
}

// The bytes after the header that a tag speaks of; `None` where the tag or the header doesn't fit.
#[tactic(auto, using(std::proofs::lemmas::Grind::common_steps, crate::proofs::Fitting::begins_long), unfolding(crate::specs::Shapes::after_tag))]
fn after_tag(
    version: Version,
    cluster: u64,
    last: u32,
    op: u64,
    tag: u8,
    bytes: &[u8],
) -> Option<&[u8]>
    ensures { option_map (λ x. x.now) result ≡ after_tag version cluster last op tag bytes.now }
{
    if knows(tag) {
        if begins_entry(version, cluster, last, op, bytes) {
            let (_, after) = bytes.split_at(128);
            Some(after)
        } else {
            None
        }
    } else if tag > 4 {
        None
    } else {
        Some(bytes)
    }
}

// Whether after these tags, of the ops from `op` on, stand the headers that they speak of.
#[tactic(auto, using(std::proofs::lemmas::Grind::common_steps, crate::proofs::Fitting::tags_fitting))]
fn tags_fit(version: Version, cluster: u64, last: u32, tags: &[u8], op: u64, bytes: &[u8]) -> bool
    requires { op + length tags.now < 2 ^ 64 }
    ensures { result ≡ tags_fit version cluster last tags.now op bytes.now }
{
    let mut rest = bytes;
    let mut at = op;
    for tag in tags {
        match after_tag(version, cluster, last, at, *tag, rest) {
            Some(after) => rest = after,
            None => return false,
        }
        at += 1;
    }
    rest.is_empty()
}

// How many tags at the front are of Parts that know their headers.
#[tactic(auto, using(std::proofs::lemmas::Grind::common_steps, crate::proofs::Fitting::running))]
fn run_length(tags: &[u8]) -> usize
    ensures { result ≡ prefix_len knows tags.now }
{
    for (i, tag) in tags.iter().enumerate() {
        if !knows(*tag) {
            return i;
        }
    }
    tags.len()
}

// Whether the known headers at the front are those up to the head, and the last tag isn't 0.
#[tactic(auto, unfolding(crate::specs::Shapes::tags_run))]
fn tags_run(head: u64, first: u64, tags: &[u8]) -> bool
    requires head { head ≤ 2 ^ 62 }
    requires first { first ≤ 2 ^ 62 + 1 }
    requires count { length tags.now ≤ 128 }
    ensures { result ≡ tags_run head first tags.now }
{
    let run = run_length(tags);
    if run > 64 {
        return false;
    }
    if first + run as u64 != head + 1 {
        return false;
    }
    match tags.last() {
        None => true,
        Some(tag) => *tag != 0,
    }
}

#[tactic(auto, unfolding(crate::specs::Shapes::statement_fits))]
fn statement_fits(h: &Header, first: u64, tags: &[u8], bytes: &[u8]) -> bool
    requires numbers { (h.now.op ≤ 2 ^ 62) × (h.now.commit ≤ 2 ^ 62) }
    requires count { length tags.now ≤ 128 }
    ensures { result ≡ statement_fits h.now first tags.now bytes.now }
{
    if first == 0 {
        return false;
    }
    if h.commit + 1 < first {
        return false;
    }
    if h.op < h.commit {
        return false;
    }
    if h.view as u64 <= h.aux {
        return false;
    }
    let log_view = h.aux as u32;
    tags_run(h.op, first, tags) && tags_fit(h.version, h.cluster, log_view, tags, first, bytes)
}

#[tactic(auto, unfolding(crate::specs::Shapes::parts_fit))]
fn parts_fit(h: &Header, body: &[u8]) -> bool
    requires numbers { (h.now.op ≤ 2 ^ 62) × (h.now.commit ≤ 2 ^ 62) }
    ensures { result ≡ parts_fit h.now body.now }
{
    if body.len() < 10 {
        return false;
    }
    let count = u16_at(body, 8) as usize;
    if count > 128 {
        return false;
    }
    if body.len() < 10 + count {
        return false;
    }
    let (front, bytes) = body.split_at(10 + count);
    let (_, tags) = front.split_at(10);
    statement_fits(h, u64_at(body, 0), tags, bytes)
}

// Whether the bytes after the header are as its command asks.
fn body_fits(h: &Header, body: &[u8]) -> bool
    requires numbers { (h.now.op ≤ 2 ^ 62) × (h.now.commit ≤ 2 ^ 62) }
    ensures { result ≡ body_fits h.now.command h.now body.now }
{
    match h.command {
        Command::Request => is_asked(h.version, h.request, body),
        Command::Reply => kind_fits(h.version, h.kind, h.op, body),
        Command::Prepare => entry_fits(h.version, h.cluster, h.view, h.op, body),
        Command::PrepareOk => is_view(h.aux) && body.is_empty(),
        Command::Commit => body.is_empty(),
        Command::StartViewChange => body.is_empty(),
        Command::DoViewChange => parts_fit(h, body),
        Command::StartView => log_fits(h, body),
        Command::GetView => body.is_empty(),
        Command::GetPrepare => is_view(h.aux) && body.is_empty(),
        Command::GivePrepare => entry_fits(h.version, h.cluster, u32::MAX - 1, h.op, body),
        Command::GetBlock => body.is_empty(),
        Command::GiveBlock => body.len() == 4096,
        Command::GetSync => body.is_empty(),
        Command::SyncView => sync_fits(h, body),
        Command::Reserved | Command::Root | Command::Entry | Command::Block => false,
    }
}

#[tactic(auto, using(std::proofs::lemmas::Grind::common_steps, crate::proofs::Fitting::numbers), unfolding(crate::specs::Shapes::has_shape))]
fn has_shape(h: &Header, body: &[u8]) -> bool
    ensures { result ≡ has_shape h.now body.now }
{
    if !unused_names_are_zero(h) {
        return false;
    }
    if !unused_numbers_are_zero(h) {
        return false;
    }
    if !numbers_fit(h) {
        return false;
    }
    body_fits(h, body)
}

/// The header of the message that the bytes spell, or their first fault.
#[tactic(auto, using(std::proofs::lemmas::Grind::common_steps, crate::proofs::Fitting::long_of), unfolding(crate::specs::Shapes::inspected))]
pub(crate) fn inspect(bytes: &[u8]) -> Result<Header, MsgFault>
    ensures { result ≡ inspected bytes.now }
{
    match decode(bytes) {
        Ok(h) => {
            let (_, body) = bytes.split_at(128);
            inspect_body(h, body)
        }
        Err(fault) => Err(MsgFault::Header(fault)),
    }
}

fn inspect_body(h: Header, body: &[u8]) -> Result<Header, MsgFault>
    ensures { result ≡ inspected_with body.now (Ok h) }
{
    if !is_body(&h, body) {
        return Err(MsgFault::BodySum);
    }
    if !has_shape(&h, body) {
        return Err(MsgFault::BodyShape);
    }
    Ok(h)
}
