//! The 128 bytes of a header, both ways.
ghost use Rattle.std.specs.Prelude.{◌≡◌, ◌≤◌, ◌<◌, length, drop, Some, None, Ok, IfOk, is_ok, true};
ghost use Rattle.vr_base.specs.Bytes.{name_of, piece};
ghost use Rattle.vr_header.specs.Names.{header_name};
ghost use Rattle.vr_header.specs.declared.header.Header.{Header};
ghost use Rattle.vr_header.specs.Spelling.{Spells, IsHeader, code_of, command_of, decoded, fault_of, decoded_header, header_bytes, is_named, is_size, named_bytes};

use crate::{Command, HEADER_SIZE, Header, HeaderFault, MESSAGE_MOST, NAMED_AT, SIZE_AT, Size};
use vr_base::{
    Sum, Version, checksum, is_version, put, put_sum, put_u32, put_u64, sum_at, u32_at, u64_at,
};

/// The header that the first 128 bytes spell, or the first fault that applies.
pub fn decode(bytes: &[u8]) -> Result<Header, HeaderFault>
    ensures exact { result ≡ decoded bytes.now }
    ensures found { IfOk result (λ h. Spells h bytes.now × IsHeader h) }
    ensures only { (h : Header) → IsHeader h → Spells h bytes.now → result ≡ Ok h }
{
    read(bytes)
}

/// The header that the first 128 bytes spell, as `decode` gives it, where the name of bytes 16 to 127 is known; nothing is hashed.
pub fn decode_by(bytes: &[u8], name: Sum) -> Result<Header, HeaderFault>
    requires long { 128 ≤ length bytes.now }
    requires name { name.0 ≡ name_of (piece 16 112 bytes.now) }
    ensures { result ≡ decoded bytes.now }
{
    match fault_by(bytes, name) {
        Some(fault) => Err(fault),
        None => Ok(decoded_header(bytes)),
    }
}

// The first fault of 128 bytes or more, where the name of bytes 16 to 127 is known.
#[tactic(auto, using(std::proofs::lemmas::Grind::common_steps), unfolding(crate::specs::Spelling::fault_of, crate::specs::Spelling::is_named, vr_base::specs::Bytes::piece))]
fn fault_by(bytes: &[u8], name: Sum) -> Option<HeaderFault>
    requires long { 128 ≤ length bytes.now }
    requires name { name.0 ≡ name_of (piece 16 112 bytes.now) }
    ensures { result ≡ fault_of bytes.now }
{
    if sum_at(bytes, 0) != name {
        return Some(HeaderFault::BadSum);
    }
    if command_of(bytes[108]).is_none() {
        return Some(HeaderFault::BadCommand);
    }
    if !is_version(bytes[110]) {
        return Some(HeaderFault::BadVersion);
    }
    if !is_size(u32_at(bytes, SIZE_AT)) {
        return Some(HeaderFault::BadSize);
    }
    if u64_at(bytes, 120) != 0 {
        return Some(HeaderFault::NotZero);
    }
    None
}

/// The one spelling of a header whose name is known; nothing is hashed.
pub fn spelled(h: &Header, name: Sum) -> [u8; 128]
    requires { name ≡ header_name h.now }
    ensures bytes { result ≡ header_bytes h.now }
    ensures header { IsHeader h.now }
{
    let mut out = written(*h);
    put_sum(&mut out, 0, name);
    out
}

fn read(bytes: &[u8]) -> Result<Header, HeaderFault>
    ensures { result ≡ decoded bytes.now }
{
    match fault_of(bytes) {
        Some(fault) => Err(fault),
        None => Ok(decoded_header(bytes)),
    }
}

#[tactic(auto, unfolding(crate::specs::Spelling::fault_of, vr_base::specs::Bytes::piece))]
fn fault_of(bytes: &[u8]) -> Option<HeaderFault>
    ensures { result ≡ fault_of bytes.now }
{
    if bytes.len() < HEADER_SIZE {
        return Some(HeaderFault::Short);
    }
    let (front, _) = bytes.split_at(HEADER_SIZE);
    let (_, named) = front.split_at(NAMED_AT);
    fault_by(bytes, checksum(named))
}

fn is_size(bytes: u32) -> bool
    ensures { result ≡ is_size bytes }
{
    HEADER_SIZE <= bytes as usize && bytes as usize <= MESSAGE_MOST
}

#[tactic(auto, unfolding(crate::specs::Spelling::command_of))]
fn command_of(code: u8) -> Option<Command>
    ensures { result ≡ command_of code }
{
    match code {
        1 => Some(Command::Reserved),
        2 => Some(Command::Root),
        3 => Some(Command::Entry),
        4 => Some(Command::Request),
        5 => Some(Command::Reply),
        6 => Some(Command::Prepare),
        7 => Some(Command::PrepareOk),
        8 => Some(Command::Commit),
        9 => Some(Command::StartViewChange),
        10 => Some(Command::DoViewChange),
        11 => Some(Command::StartView),
        12 => Some(Command::GetView),
        13 => Some(Command::GetPrepare),
        14 => Some(Command::GivePrepare),
        15 => Some(Command::GetBlock),
        16 => Some(Command::GiveBlock),
        17 => Some(Command::Block),
        18 => Some(Command::GetSync),
        19 => Some(Command::SyncView),
        _ => None,
    }
}

fn code_of(command: Command) -> u8
    ensures { result ≡ code_of command }
{
    match command {
        Command::Reserved => 1,
        Command::Root => 2,
        Command::Entry => 3,
        Command::Request => 4,
        Command::Reply => 5,
        Command::Prepare => 6,
        Command::PrepareOk => 7,
        Command::Commit => 8,
        Command::StartViewChange => 9,
        Command::DoViewChange => 10,
        Command::StartView => 11,
        Command::GetView => 12,
        Command::GetPrepare => 13,
        Command::GivePrepare => 14,
        Command::GetBlock => 15,
        Command::GiveBlock => 16,
        Command::Block => 17,
        Command::GetSync => 18,
        Command::SyncView => 19,
    }
}

/// The header that the first 128 bytes spell, where they are known to spell one; nothing is hashed.
#[tactic(auto, using(crate::proofs::Faults::no_fault_of_ok, crate::proofs::Faults::read_at), unfolding(crate::specs::Spelling::decoded_header))]
pub fn decoded_header(bytes: &[u8]) -> Header
    requires { is_ok (decoded bytes.now) ≡ true }
    ensures fields { result ≡ decoded_header bytes.now }
    ensures exact { decoded bytes.now ≡ Ok result }
{
    Header {
        body: sum_at(bytes, 16),
        parent: sum_at(bytes, 32),
        request_name: sum_at(bytes, 48),
        cluster: u64_at(bytes, 64),
        client: u64_at(bytes, 72),
        request: u32_at(bytes, 80),
        view: u32_at(bytes, 84),
        op: u64_at(bytes, 88),
        commit: u64_at(bytes, 96),
        size: Size::new(u32_at(bytes, SIZE_AT)),
        command: command_of(bytes[108]).unwrap_or(Command::Reserved),
        replica: bytes[109],
        version: Version::new(bytes[110]),
        kind: bytes[111],
        aux: u64_at(bytes, 112),
    }
}

/// The one spelling of a header.
pub fn encode(h: &Header) -> [u8; 128]
    ensures bytes { result ≡ header_bytes h.now }
    ensures header { IsHeader h.now }
    ensures again { decoded result ≡ Ok h.now }
{
    let mut out = written(*h);
    let name = name_of_rest(&out);
    put_sum(&mut out, 0, name);
    out
}

// The name of the bytes from 16 on.
pub(crate) fn name_of_rest(bytes: &[u8]) -> Sum
    requires { 16 ≤ length bytes.now }
    ensures { result.0 ≡ name_of (drop 16 bytes.now) }
{
    let (_, rest) = bytes.split_at(NAMED_AT);
    checksum(rest)
}

/// The bytes of a header without its name: the first 16 are zero.
pub fn nameless(h: &Header) -> [u8; 128]
    ensures bytes { drop 16 result ≡ named_bytes h.now }
    ensures header { IsHeader h.now }
{
    written(*h)
}

// Bytes 16 to 127; the first 16 are zero.
pub(crate) fn written(h: Header) -> [u8; 128]
    ensures bytes { drop 16 result ≡ named_bytes h }
    ensures header { IsHeader h }
{
    let mut out = [0; 128];
    put_sum(&mut out, 16, h.body);
    put_sum(&mut out, 32, h.parent);
    put_sum(&mut out, 48, h.request_name);
    put_u64(&mut out, 64, h.cluster);
    put_u64(&mut out, 72, h.client);
    put_u32(&mut out, 80, h.request);
    put_u32(&mut out, 84, h.view);
    put_u64(&mut out, 88, h.op);
    put_u64(&mut out, 96, h.commit);
    put_u32(&mut out, SIZE_AT, h.size.get());
    put(
        &mut out,
        108,
        &[code_of(h.command), h.replica, h.version.get(), h.kind],
    );
    put_u64(&mut out, 112, h.aux);
    put(&mut out, 120, &[0; 8]);
    out
}
