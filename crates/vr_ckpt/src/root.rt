//! Roots: blocks that name the others of their checkpoint.
ghost use Rattle.std.specs.Prelude.{◌≡◌, ◌≤◌, ◌<◌, ◌+◌, ◌*◌, ◌++◌, length, OnOk, IfOk, Some, None, true, ◌==◌};
ghost use Rattle.vr_base.specs.Bytes.{bytes16, bytes32, bytes64};
ghost use Rattle.vr_state.specs.StateTexts.{FitsPayloads, payloads};
ghost use Rattle.vr_ckpt.specs.Blocks.{Content, block_of};
ghost use Rattle.vr_ckpt.specs.Loads.{both_named, has_numbers, keys_size, name_at, names_at, read_root, root_in, sessions_size};
ghost use Rattle.vr_ckpt.specs.Places.{HasRoom};
ghost use Rattle.vr_ckpt.specs.Saves.{IsPlaced, names_bytes, root_of, root_payload};

use crate::places::{KEY_PAYLOADS, Places, SESSION_PAYLOADS, is_place, root_place};
use crate::{Block, BlockView, Name, NameList, PAYLOAD_SIZE, Payload, PayloadTable, ROOT};
use std::alloc::Global;
use vr_base::{NoMemory, Seq, put_u16, put_u32, put_u64, sum_at, u16_at, u32_at, u64_at};
use vr_state::Texts;

/// The bytes of the numbers at the front of a root's payload.
const FRONT: usize = 18;

/// The bytes of a name after them: an address and a sum.
const NAME: usize = 24;

/// The bytes of an address.
const ADDRESS: usize = 8;

/// What a root says: how many bytes the texts have, and the names of their payloads.
#[derive(Drop)]
pub struct Root {
    pub sessions_size: u32,
    pub keys_size: u32,
    pub sessions: NameList,
    pub keys: NameList,
}

// Adds the addresses and names of these payloads.
fn push_names(bytes: &mut Vec<u8>, payloads: &[Payload]) -> Result<(), NoMemory>
    ensures bytes { OnOk result (bytes.new.items ≡ bytes.old.items ++ names_bytes payloads.now) }
    ensures size { OnOk result (length bytes.new.items ≡ length bytes.old.items + 24 * length payloads.now) }
{
    for payload in payloads {
        push_name(bytes, payload.name)?;
    }
    Ok(())
}

#[tactic(auto, unfolding(vr_base::specs::Bytes::bytes64))]
fn push_name(bytes: &mut Vec<u8>, name: Name) -> Result<(), NoMemory>
    ensures bytes { OnOk result (bytes.new.items ≡ bytes.old.items ++ (bytes64 name.address ++ name.sum.0)) }
    ensures size { OnOk result (length bytes.new.items ≡ length bytes.old.items + 24) }
{
    bytes.extend_from_slice(&name.address.to_be_bytes())?;
    bytes.extend_from_slice(&name.sum.0)?;
    Ok(())
}

// The numbers at the front of a root's payload: the op, how many bytes the texts have, how many payloads there are.
#[tactic(auto, unfolding(vr_base::specs::Bytes::bytes16, vr_base::specs::Bytes::bytes32, vr_base::specs::Bytes::bytes64))]
fn root_front(op: u64, sessions: u32, keys: u32, count: u16) -> [u8; FRONT]
    ensures { result ≡ bytes64 op ++ (bytes32 sessions ++ (bytes32 keys ++ bytes16 count)) }
{
    let mut out = [0; FRONT];
    put_u64(&mut out, 0, op);
    put_u32(&mut out, 8, sessions);
    put_u32(&mut out, 12, keys);
    put_u16(&mut out, 16, count);
    out
}

// The payload of a root.
#[tactic(auto, unfolding(crate::specs::Saves::root_payload))]
fn root_payload(
    alloc: Global,
    op: u64,
    texts: &Texts,
    table: &PayloadTable,
) -> Result<Vec<u8>, NoMemory>
    requires texts { FitsPayloads texts.now }
    requires sessions { length table.now.sessions ≡ payloads (length texts.now.sessions) }
    requires keys { length table.now.keys ≡ payloads (length texts.now.keys) }
    ensures bytes { IfOk result (λ bytes. bytes.items ≡ root_payload op (length texts.now.sessions) (length texts.now.keys) table.now) }
    ensures size { IfOk result (λ bytes. length bytes.items ≤ PAYLOAD_SIZE) }
{
    let sessions = texts.sessions.len() as u32;
    let keys = texts.keys.len() as u32;
    let count = (table.sessions.len() + table.keys.len()) as u16;
    let mut bytes = Vec::from_slice(alloc, &root_front(op, sessions, keys, count))?;
    push_names(&mut bytes, table.sessions.as_slice())?;
    push_names(&mut bytes, table.keys.as_slice())?;
    Ok(bytes)
}

/// The root of a checkpoint.
#[tactic(auto, unfolding(crate::specs::Saves::root_of))]
pub fn root_block(
    alloc: Global,
    cluster: u64,
    texts: &Texts,
    op: u64,
    table: &PayloadTable,
) -> Result<Block, NoMemory>
    requires texts { FitsPayloads texts.now }
    requires sessions { length table.now.sessions ≡ payloads (length texts.now.sessions) }
    requires keys { length table.now.keys ≡ payloads (length texts.now.keys) }
    ensures value { IfOk result (λ b. b ≡ block_of (root_of cluster texts.now op table.now)) }
    ensures placed { IfOk result IsPlaced }
{
    let payload = root_payload(alloc, op, texts, table)?;
    let root = Block::new(alloc, cluster, root_place(op), op, ROOT, payload.as_slice())?;
    Ok(root)
}

// ---- read

// The i-th name that a root gives.
#[tactic(auto, unfolding(crate::specs::Loads::name_at))]
fn name_at(bytes: &[u8], i: usize) -> Name
    requires { 42 + 24 * i ≤ length bytes.now }
    ensures { result ≡ name_at bytes.now i }
{
    Name {
        address: u64_at(bytes, FRONT + NAME * i),
        sum: sum_at(bytes, FRONT + ADDRESS + NAME * i),
    }
}

// So many names from one on, those of a text's payloads.
fn names_at(
    alloc: Global,
    places: Places,
    bytes: &[u8],
    first: usize,
    count: usize,
) -> Result<Option<NameList>, NoMemory>
    requires room { HasRoom places count }
    requires within { 18 + 24 * (first + count) ≤ length bytes.now }
    ensures { IfOk result (λ names. names ≡ names_at places 0 bytes.now first count) }
{
    let mut names = Seq::new(alloc);
    for k in 0..count {
        let name = name_at(bytes, first + k);
        let low = places.of(k);
        if !is_place(low, name.address) {
            return Ok(None);
        }
        names.push(name)?;
    }
    Ok(Some(names))
}

// How many payloads a text of so many bytes has.
fn payloads(bytes: u32) -> usize
    ensures { result ≡ payloads bytes }
{
    bytes.div_ceil(PAYLOAD_SIZE as u32) as usize
}

#[tactic(auto, unfolding(crate::specs::Loads::sessions_size))]
fn sessions_size(bytes: &[u8]) -> u32
    requires { 18 ≤ length bytes.now }
    ensures { result ≡ sessions_size bytes.now }
{
    u32_at(bytes, 8)
}

#[tactic(auto, unfolding(crate::specs::Loads::keys_size))]
fn keys_size(bytes: &[u8]) -> u32
    requires { 18 ≤ length bytes.now }
    ensures { result ≡ keys_size bytes.now }
{
    u32_at(bytes, 12)
}

// The numbers of a root's payload stand.
#[tactic(auto, unfolding(crate::specs::Loads::has_numbers))]
fn has_numbers(op: u64, bytes: &[u8]) -> bool
    ensures { result ≡ has_numbers op bytes.now }
{
    if bytes.len() < FRONT {
        return false;
    }
    let sessions = payloads(sessions_size(bytes));
    let keys = payloads(keys_size(bytes));
    u64_at(bytes, 0) == op
        && sessions <= SESSION_PAYLOADS
        && keys <= KEY_PAYLOADS
        && u16_at(bytes, 16) as usize == sessions + keys
        && bytes.len() == FRONT + NAME * (sessions + keys)
}

// What a root's payload says.
#[tactic(auto, unfolding(crate::specs::Loads::root_in))]
fn root_in(alloc: Global, op: u64, bytes: &[u8]) -> Result<Option<Root>, NoMemory>
    requires { has_numbers op bytes.now ≡ true }
    ensures { IfOk result (λ root. root ≡ root_in bytes.now) }
{
    let sessions = payloads(sessions_size(bytes));
    let keys = payloads(keys_size(bytes));
    let first = names_at(alloc, Places::of_sessions(), bytes, 0, sessions)?;
    let second = names_at(alloc, Places::of_keys(), bytes, sessions, keys)?;
    Ok(both(bytes, first, second))
}

fn both(bytes: &[u8], sessions: Option<NameList>, keys: Option<NameList>) -> Option<Root>
    requires { 18 ≤ length bytes.now }
    ensures { result ≡ both_named bytes.now sessions keys }
{
    Some(Root {
        sessions_size: sessions_size(bytes),
        keys_size: keys_size(bytes),
        sessions: sessions?,
        keys: keys?,
    })
}

/// What a block says that stands at this address; none where it isn't a root.
#[tactic(auto, unfolding(crate::specs::Loads::read_root))]
pub fn read_root(
    alloc: Global,
    address: u64,
    block: &BlockView<'_>,
) -> Result<Option<Root>, NoMemory>
    ensures { (c : Content) → c.address ≡ address → c.op ≡ block.now.op → c.kind ≡ block.now.kind → c.payload ≡ block.now.payload.now → IfOk result (λ root. root ≡ read_root c) }
{
    if block.kind == ROOT
        && address == root_place(block.op)
        && has_numbers(block.op, block.payload)
    {
        root_in(alloc, block.op, block.payload)
    } else {
        Ok(None)
    }
}
