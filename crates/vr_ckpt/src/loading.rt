//! A checkpoint loaded.
ghost use Rattle.std.specs.Prelude.{◌≡◌, ◌≤◌, ◌∷◌, [], IfOk, IfSome, OnOk};
ghost use Rattle.vr_ckpt.specs.Blocks.{Content};
ghost use Rattle.vr_ckpt.specs.Loads.{HasSome, behind, data_at, data_of, gathered, gathered_both, loaded, root_at, text_of, with_data};
ghost use Rattle.vr_ckpt.specs.declared.loading.Gathered.{Gathered};
ghost use Rattle.vr_ckpt.specs.declared.found.Load.TheVariants as Load;
ghost use Rattle.vr_disk.specs.Untouched.{Untouched};

use crate::root::{Root, read_root};
use crate::{
    BlockView, DATA, Load, Name, NameList, PAYLOAD_SIZE, Payload, PayloadTable, read_block, view_of,
};
use std::alloc::Global;
use vr_base::{ByteList, NoMemory, Seq};
use vr_disk::{Buffer, SectorDisk};
use vr_state::Texts;

// The root of this name.
#[tactic(auto, unfolding(crate::specs::Loads::root_at))]
fn load_root<D: SectorDisk>(
    alloc: Global,
    disk: &mut D,
    name: &Name,
    buffer: &mut Buffer,
) -> Result<Option<Root>, NoMemory>
    ensures untouched { Untouched D.SectorDisk disk.old disk.new }
    ensures reads { D.read_faults disk.old ≤ D.read_faults disk.new }
    ensures value { IfSome (D.told disk.old) (λ d. IfOk result (λ root. root ≡ root_at d.face name.now)) }
{
    match read_block(disk, name, buffer) {
        Err(_) => Ok(None),
        Ok(size) => read_root(alloc, name.address, &view_of(buffer.as_slice(), name, size)),
    }
}

// Reads a payload of this length; none where its block is faulty.
#[tactic(auto, unfolding(crate::specs::Loads::data_at))]
fn load_payload<D: SectorDisk>(
    alloc: Global,
    disk: &mut D,
    name: &Name,
    size: usize,
    buffer: &mut Buffer,
) -> Result<Option<ByteList>, NoMemory>
    ensures untouched { Untouched D.SectorDisk disk.old disk.new }
    ensures reads { D.read_faults disk.old ≤ D.read_faults disk.new }
    ensures value { IfSome (D.told disk.old) (λ d. IfOk result (λ bytes. bytes ≡ data_at d.face name.now size)) }
{
    match read_block(disk, name, buffer) {
        Err(_) => Ok(None),
        Ok(found) => data_of(alloc, size, &view_of(buffer.as_slice(), name, found)),
    }
}

// The payload of a data block, where it has this length.
fn data_of(alloc: Global, size: usize, block: &BlockView<'_>) -> Result<Option<ByteList>, NoMemory>
    ensures { (c : Content) → c.kind ≡ block.now.kind → c.payload ≡ block.now.payload.now → IfOk result (λ bytes. bytes ≡ data_of size c) }
{
    if block.kind == DATA && block.payload.len() == size {
        Ok(Some(Seq::from_vec(Vec::from_slice(alloc, block.payload)?)))
    } else {
        Ok(None)
    }
}

/// The payloads of a text that are there, and the names of the faulty blocks, in order.
#[derive(Drop)]
pub struct Gathered {
    pub payloads: Seq<Payload>,
    pub missing: NameList,
}

// Adds a payload that is there, or the name of a faulty block.
fn add(
    payloads: &mut Seq<Payload>,
    missing: &mut NameList,
    name: Name,
    found: Option<ByteList>,
) -> Result<(), NoMemory>
    ensures { OnOk result ((g : Gathered) → behind payloads.new missing.new g ≡ behind payloads.old missing.old (with_data name found g)) }
{
    match found {
        None => missing.push(name)?,
        Some(bytes) => payloads.push(Payload { name, bytes })?,
    }
    Ok(())
}

// Reads the payloads of a text of so many bytes.
fn gather<D: SectorDisk>(
    alloc: Global,
    disk: &mut D,
    size: usize,
    names: &[Name],
    buffer: &mut Buffer,
) -> Result<Gathered, NoMemory>
    ensures untouched { Untouched D.SectorDisk disk.old disk.new }
    ensures reads { D.read_faults disk.old ≤ D.read_faults disk.new }
    ensures value { IfSome (D.told disk.old) (λ d. IfOk result (λ g. g ≡ gathered d.face size names.now)) }
{
    let mut payloads = Seq::new(alloc);
    let mut missing = Seq::new(alloc);
    let mut left = size;
    for name in names {
        let found = load_payload(alloc, disk, name, left.min(PAYLOAD_SIZE), buffer)?;
        add(&mut payloads, &mut missing, *name, found)?;
        left = left.saturating_sub(PAYLOAD_SIZE);
    }
    Ok(Gathered { payloads, missing })
}

// The text of these payloads.
fn text_of(alloc: Global, payloads: &[Payload]) -> Result<ByteList, NoMemory>
    ensures { IfOk result (λ text. text ≡ text_of payloads.now) }
{
    let mut text = Seq::new(alloc);
    for payload in payloads {
        text.extend(payload.bytes.as_slice())?;
    }
    Ok(text)
}

// The texts of these payloads with their table, where no block is faulty.
fn load_of(alloc: Global, sessions: Gathered, keys: Gathered) -> Result<Load, NoMemory>
    ensures value { IfOk result (λ load. load ≡ gathered_both sessions keys) }
    ensures some { IfOk result HasSome }
{
    let Gathered {
        payloads: sessions,
        missing: mut missing,
    } = sessions;
    let Gathered {
        payloads: keys,
        missing: others,
    } = keys;
    missing.extend(others.as_slice())?;
    if missing.len() > 0 {
        return Ok(Load::Missing(missing));
    }
    let texts = Texts {
        sessions: text_of(alloc, sessions.as_slice())?,
        keys: text_of(alloc, keys.as_slice())?,
    };
    Ok(Load::Loaded(texts, PayloadTable { sessions, keys }))
}

// What a root names.
fn load_named<D: SectorDisk>(
    alloc: Global,
    disk: &mut D,
    root: &Root,
    buffer: &mut Buffer,
) -> Result<Load, NoMemory>
    ensures untouched { Untouched D.SectorDisk disk.old disk.new }
    ensures reads { D.read_faults disk.old ≤ D.read_faults disk.new }
    ensures value { IfSome (D.told disk.old) (λ d. IfOk result (λ load. load ≡ gathered_both (gathered d.face root.now.sessions_size root.now.sessions) (gathered d.face root.now.keys_size root.now.keys))) }
    ensures some { IfOk result HasSome }
{
    let sessions = gather(
        alloc,
        disk,
        root.sessions_size as usize,
        root.sessions.as_slice(),
        buffer,
    )?;
    let keys = gather(
        alloc,
        disk,
        root.keys_size as usize,
        root.keys.as_slice(),
        buffer,
    )?;
    load_of(alloc, sessions, keys)
}

// The name alone.
fn only(alloc: Global, name: &Name) -> Result<Load, NoMemory>
    ensures value { IfOk result (λ load. load ≡ Load.Missing (name.now ∷ [])) }
    ensures some { IfOk result HasSome }
{
    let mut names = Seq::new(alloc);
    names.push(*name)?;
    Ok(Load::Missing(names))
}

/// The texts and the table of the checkpoint with this root, or the names of the faulty blocks: the root alone, or data blocks in order.
#[tactic(auto, unfolding(crate::specs::Loads::loaded))]
pub fn load<D: SectorDisk>(alloc: Global, disk: &mut D, root: &Name) -> Result<Load, NoMemory>
    ensures untouched { Untouched D.SectorDisk disk.old disk.new }
    ensures reads { D.read_faults disk.old ≤ D.read_faults disk.new }
    ensures value { IfSome (D.told disk.old) (λ d. IfOk result (λ load. load ≡ loaded d.face root.now)) }
    ensures some { IfOk result HasSome }
{
    let mut buffer = Buffer::new(alloc)?;
    match load_root(alloc, disk, root, &mut buffer)? {
        None => only(alloc, root),
        Some(found) => load_named(alloc, disk, &found, &mut buffer),
    }
}
