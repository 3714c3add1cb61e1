//! What a checkpoint has in its blocks, and which of them are written: made before the first call.
ghost use Rattle.std.specs.Prelude.{◌≡◌, ◌≤◌, ◌<◌, ◌+◌, ◌*◌, ◌++◌, length, OnOk, IfOk, Some};
ghost use Rattle.std.specs.List.{All};
ghost use Rattle.vr_state.specs.StateTexts.{payloads};
ghost use Rattle.vr_ckpt.specs.Places.{HasRoom};
ghost use Rattle.vr_ckpt.specs.Saves.{IsPlaced, changed, goes_to, payload_blocks, payload_blocks_at, payload_at, payloads_of};

use crate::places::{Places, first_place, other_place};
use crate::{Block, DATA, PAYLOAD_SIZE, Payload};
use std::alloc::Global;
use vr_base::{NoMemory, Seq};
use vr_disk::BLOCKS;

/// One text of a checkpoint: its group, the checkpoint's op, the lower places of its payloads.
#[derive(Clone, Copy)]
pub struct Run {
    pub cluster: u64,
    pub op: u64,
    pub places: Places,
}

/// How many payloads a text has.
pub fn payloads_in(text: &[u8]) -> usize
    ensures { result ≡ payloads (length text.now) }
{
    text.len().div_ceil(PAYLOAD_SIZE)
}

/// The i-th payload of a text.
#[tactic(auto, unfolding(crate::specs::Saves::payload_at, vr_base::specs::Bytes::piece))]
fn payload_at(text: &[u8], i: usize) -> &[u8]
    requires begins { PAYLOAD_SIZE * i ≤ length text.now }
    ensures { result.now ≡ payload_at text.now i }
{
    let (_, rest) = text.split_at(PAYLOAD_SIZE * i);
    let (front, _) = rest.split_at(rest.len().min(PAYLOAD_SIZE));
    front
}

// A payload in a block of its own at this address.
fn goes_to(
    alloc: Global,
    run: Run,
    address: u64,
    bytes: &[u8],
    blocks: &mut Seq<Block>,
) -> Result<Payload, NoMemory>
    requires size { length bytes.now ≤ PAYLOAD_SIZE }
    requires address { address < BLOCKS }
    ensures payload { IfOk result (λ p. p ≡ (goes_to run address bytes.now).payload) }
    ensures blocks { OnOk result (blocks.new ≡ blocks.old ++ (goes_to run address bytes.now).blocks) }
    ensures placed { OnOk result (All IsPlaced blocks.old → All IsPlaced blocks.new) }
{
    let copy = Vec::from_slice(alloc, bytes)?;
    let block = Block::new(alloc, run.cluster, address, run.op, DATA, bytes)?;
    let name = block.name;
    blocks.push(block)?;
    Ok(Payload {
        name,
        bytes: Seq::from_vec(copy),
    })
}

// A payload where the checkpoint before had one: with the same bytes it stays.
fn goes_on(
    alloc: Global,
    run: Run,
    i: usize,
    bytes: &[u8],
    old: &Payload,
    blocks: &mut Seq<Block>,
) -> Result<Payload, NoMemory>
    requires size { length bytes.now ≤ PAYLOAD_SIZE }
    requires room { HasRoom run.places (i + 1) }
    ensures payload { IfOk result (λ p. p ≡ (payload_blocks run i bytes.now (Some old.now)).payload) }
    ensures blocks { OnOk result (blocks.new ≡ blocks.old ++ (payload_blocks run i bytes.now (Some old.now)).blocks) }
    ensures placed { OnOk result (All IsPlaced blocks.old → All IsPlaced blocks.new) }
{
    if old.bytes.as_slice() == bytes {
        return Ok(Payload {
            name: old.name,
            bytes: old.bytes.try_clone(alloc)?,
        });
    }
    let low = run.places.of(i);
    let address = other_place(low, old.name.address);
    goes_to(alloc, run, address, bytes, blocks)
}

// The i-th payload, and what is written for it.
fn plan_payload(
    alloc: Global,
    run: Run,
    i: usize,
    text: &[u8],
    old: &[Payload],
    blocks: &mut Seq<Block>,
) -> Result<Payload, NoMemory>
    requires begins { PAYLOAD_SIZE * i ≤ length text.now }
    requires room { HasRoom run.places (i + 1) }
    ensures payload { IfOk result (λ p. p ≡ (payload_blocks_at run text.now old.now i).payload) }
    ensures blocks { OnOk result (blocks.new ≡ blocks.old ++ (payload_blocks_at run text.now old.now i).blocks) }
    ensures placed { OnOk result (All IsPlaced blocks.old → All IsPlaced blocks.new) }
{
    let bytes = payload_at(text, i);
    if i < old.len() {
        return goes_on(alloc, run, i, bytes, &old[i], blocks);
    }
    let low = run.places.of(i);
    let address = first_place(run.op, low);
    goes_to(alloc, run, address, bytes, blocks)
}

/// The payloads of a text; the blocks that are written for them are added to the others.
pub fn plan_text(
    alloc: Global,
    run: Run,
    text: &[u8],
    old: &[Payload],
    blocks: &mut Seq<Block>,
) -> Result<Seq<Payload>, NoMemory>
    requires { HasRoom run.places (payloads (length text.now)) }
    ensures payloads { IfOk result (λ ps. ps ≡ payloads_of run text.now old.now) }
    ensures blocks { OnOk result (blocks.new ≡ blocks.old ++ changed run text.now old.now) }
    ensures placed { OnOk result (All IsPlaced blocks.old → All IsPlaced blocks.new) }
{
    let mut payloads = Seq::new(alloc);
    for i in 0..payloads_in(text) {
        payloads.push(plan_payload(alloc, run, i, text, old, blocks)?)?;
    }
    Ok(payloads)
}
