//! Texts with their names, so that a digest of a text is made once.
ghost use Rattle.std.specs.Prelude.{◌≡◌, ◌≤◌, ◌<◌, ◌-◌, IfSome, drop, length, replicate};
ghost use Rattle.vr_base.specs.Bytes.{name_of};

use crate::{BLOCKS, SECTOR_SIZE, SLOTS};
use std::alloc::{AllocError, Global};
use std::marker::Model;
use vr_base::{Sum, checksum, is_zeros};

// How many bytes a header without its name has.
const NAMELESS: usize = 112;

// A text with its name. What stands here before the first text is kept, or where there was no memory for one, has none.
#[derive(Drop)]
struct Text {
    bytes: Vec<u8>,
    // How many zeros stand after them: most of a value of the superblock are.
    zeros: usize,
    name: Option<Sum>,
}

impl Model for Text {
    ghost use Rattle.std.specs.Prelude.{◌≡◌, ◌++◌, IfSome, replicate, ⊤};
    ghost use Rattle.vr_base.specs.Bytes.{name_of};

    ghost Value = { ⊤ };

    ghost view = { λ _. tt };

    ghost invariant = { λ t. IfSome t.name (λ name. name.0 ≡ name_of (t.bytes.items ++ replicate t.zeros 0)) };
}

// How many zeros these bytes end with, by whole sectors.
fn zeros_behind(bytes: &[u8]) -> usize
    ensures within { result ≤ length bytes.now }
    ensures zeros { drop (length bytes.now - result) bytes.now ≡ replicate result 0 }
{
    let sectors = bytes.len() / SECTOR_SIZE;
    for k in 0..sectors {
        let end = bytes.len() - SECTOR_SIZE * k;
        if !is_zeros(&bytes[end - SECTOR_SIZE..end]) {
            return SECTOR_SIZE * k;
        }
    }
    SECTOR_SIZE * sectors
}

impl Text {
    fn none(alloc: Global) -> Text {
        Text {
            bytes: Vec::new(alloc),
            zeros: 0,
            name: None,
        }
    }

    // The name of these bytes, where they are the ones that stand here.
    fn name_of(&self, bytes: &[u8]) -> Option<Sum>
        ensures { IfSome result (λ name. name.0 ≡ name_of bytes.now) }
    {
        let kept = self.bytes.len();
        if bytes.len() < kept {
            return None;
        }
        let (front, rest) = bytes.split_at(kept);
        if rest.len() == self.zeros && self.bytes.as_slice() == front && is_zeros(rest) {
            self.name
        } else {
            None
        }
    }

    // Keeps these bytes in the place of others. Where there is no memory for them, nothing stands here.
    fn set(&mut self, bytes: &[u8], name: Sum)
        requires { name.0 ≡ name_of bytes.now }
    {
        self.name = None;
        self.zeros = zeros_behind(bytes);
        self.bytes.clear();
        let (front, _) = bytes.split_at(bytes.len() - self.zeros);
        match self.bytes.extend_from_slice(front) {
            Ok(()) => self.name = Some(name),
            Err(_) => {}
        }
    }
}

// A header without its name, with its name. It stands where it is looked up, since headers are asked for most of all, and a
// text that stands elsewhere is a second wait for memory. What stands here before the first one is kept has none.
#[derive(Drop)]
struct Nameless {
    bytes: [u8; NAMELESS],
    name: Option<Sum>,
}

impl Model for Nameless {
    ghost use Rattle.std.specs.Prelude.{◌≡◌, IfSome, ⊤};
    ghost use Rattle.vr_base.specs.Bytes.{name_of};

    ghost Value = { ⊤ };

    ghost view = { λ _. tt };

    ghost invariant = { λ h. IfSome h.name (λ name. name.0 ≡ name_of h.bytes) };
}

impl Nameless {
    fn none() -> Nameless {
        Nameless {
            bytes: [0; NAMELESS],
            name: None,
        }
    }

    // The name of these bytes, where they are the ones that stand here.
    fn name_of(&self, bytes: &[u8]) -> Option<Sum>
        ensures { IfSome result (λ name. name.0 ≡ name_of bytes.now) }
    {
        if self.bytes.as_slice() == bytes {
            self.name
        } else {
            None
        }
    }

    // Keeps these bytes in the place of others. Bytes of another length aren't kept.
    fn set(&mut self, bytes: &[u8], name: Sum)
        requires { name.0 ≡ name_of bytes.now }
    {
        if bytes.len() == NAMELESS {
            self.bytes.copy_from_slice(bytes);
            self.name = Some(name);
        }
    }
}

/// Texts with their names: the one that was kept last in each room. Contracts see nothing of them.
#[derive(Drop)]
pub struct Memo {
    headers: Vec<Nameless>,
    texts: Vec<Text>,
}

impl Model for Memo {
    ghost use Rattle.std.specs.Prelude.{⊤};

    ghost Value = { ⊤ };

    ghost view = { λ _. tt };
}

/// Which kept text another one replaces: at most one is kept in each room.
#[derive(Clone, Copy, Debug, PartialEq, Eq)]
pub enum Room {
    /// Of an entry's header without its name, of 112 bytes, by its op: ops that are 256 apart share one.
    Header(u64),
    /// Of a block's header without its name, of 112 bytes: one for each address.
    BlockHeader(u64),
    /// Of an entry's operation: one for each slot.
    Body(u32),
    /// Of a block's payload: one for each address.
    Payload(u64),
    /// Of a value of the superblock, by its sequence: the values before and after have another one.
    Value(u64),
}

// How many headers of entries are kept.
const OPS: u64 = 256;

// Where the places of headers begin by op, and those by address.
const BY_OP: usize = 0;

const BY_ADDRESS: usize = BY_OP + OPS as usize;

const HEADERS: usize = BY_ADDRESS + BLOCKS as usize;

// Where the places of other texts begin: those of bodies, of payloads and of values.
const BODIES: usize = 0;

const PAYLOADS: usize = BODIES + SLOTS as usize;

const VALUES: usize = PAYLOADS + BLOCKS as usize;

const TEXTS: usize = VALUES + 2;

// Where a text is kept: a header without its name, or another text.
#[derive(Clone, Copy)]
enum Place {
    Header(usize),
    Text(usize),
}

// The block at an address, or one that its place is shared with where there is none.
fn block_of(address: u64) -> usize
    ensures { result < BLOCKS }
{
    (address % u64::from(BLOCKS)) as usize
}

impl Room {
    fn place(self) -> Place {
        match self {
            Room::Header(op) => Place::Header(BY_OP + (op % OPS) as usize),
            Room::BlockHeader(address) => Place::Header(BY_ADDRESS + block_of(address)),
            Room::Body(slot) => Place::Text(BODIES + (slot % SLOTS) as usize),
            Room::Payload(address) => Place::Text(PAYLOADS + block_of(address)),
            Room::Value(sequence) => Place::Text(VALUES + (sequence % 2) as usize),
        }
    }
}

fn no_headers(alloc: Global) -> Result<Vec<Nameless>, AllocError> {
    let mut headers = Vec::with_capacity(alloc, HEADERS)?;
    for _ in 0..HEADERS {
        headers.push(Nameless::none())?;
    }
    Ok(headers)
}

fn no_texts(alloc: Global) -> Result<Vec<Text>, AllocError> {
    let mut texts = Vec::with_capacity(alloc, TEXTS)?;
    for _ in 0..TEXTS {
        texts.push(Text::none(alloc))?;
    }
    Ok(texts)
}

impl Memo {
    /// No text is kept.
    pub fn new(alloc: Global) -> Result<Memo, AllocError> {
        Ok(Memo {
            headers: no_headers(alloc)?,
            texts: no_texts(alloc)?,
        })
    }

    fn kept(&self, room: Room, bytes: &[u8]) -> Option<Sum>
        ensures { IfSome result (λ name. name.0 ≡ name_of bytes.now) }
    {
        match room.place() {
            Place::Header(at) => self.headers.as_slice().get(at)?.name_of(bytes),
            Place::Text(at) => self.texts.as_slice().get(at)?.name_of(bytes),
        }
    }

    /// Keeps a text with its name, in place of another one.
    pub fn keep(&mut self, room: Room, bytes: &[u8], name: Sum)
        requires { name.0 ≡ name_of bytes.now }
    {
        match room.place() {
            Place::Header(at) => {
                if let Some(header) = self.headers.as_mut_slice().get_mut(at) {
                    header.set(bytes, name);
                }
            }
            Place::Text(at) => {
                if let Some(text) = self.texts.as_mut_slice().get_mut(at) {
                    text.set(bytes, name);
                }
            }
        }
    }

    /// The name of these bytes: the kept one, or one that is made, and kept.
    pub fn name_of(&mut self, room: Room, bytes: &[u8]) -> Sum
        ensures { result.0 ≡ name_of bytes.now }
    {
        match self.kept(room, bytes) {
            Some(name) => name,
            None => {
                let name = checksum(bytes);
                self.keep(room, bytes, name);
                name
            }
        }
    }
}
